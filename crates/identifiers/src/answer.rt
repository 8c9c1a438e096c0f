// The answer to what is done or refused, and nothing else told, in numbers.
ghost use Rattle.std.specs.Prelude.{◌≡◌};
ghost use Rattle.identifiers.specs.Answers.{answer_told};

use crate::refusal::Refusal;

// The refusal, 0 for none.
#[repr(C)]
#[derive(Clone, Copy)]
pub struct AnswerTold {
    pub refusal: u8,
}

impl From<Result<(), Refusal>> for AnswerTold {
    ghost from_gives = { λ answer told. told ≡ answer_told answer };

    #[tactic(auto, unfolding(crate::specs::Answers::answer_told))]
    fn from(answer: Result<(), Refusal>) -> AnswerTold {
        let refusal = match answer {
            Ok(()) => 0,
            Err(why) => why.number(),
        };
        AnswerTold { refusal }
    }
}
