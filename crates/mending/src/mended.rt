// What mending leaves: how many bytes were kept and how many the list has; and that, or the refusal, in numbers.
ghost use Rattle.std.specs.Prelude.{◌≡◌};
ghost use Rattle.mending.specs.Mended.{mended_told};

use identifiers::Refusal;

#[derive(Clone, Copy, Debug, PartialEq, Eq)]
pub struct Mended {
    pub kept: u32,
    pub listed: u32,
}

// The refusal, 0 for none, and both lengths, 0 where refused.
#[repr(C)]
#[derive(Clone, Copy)]
pub struct MendedTold {
    pub refusal: u8,
    pub kept: u32,
    pub listed: u32,
}

impl From<Result<Mended, Refusal>> for MendedTold {
    ghost from_gives = { λ answer told. told ≡ mended_told answer };

    #[tactic(auto, unfolding(crate::specs::Mended::mended_told))]
    fn from(answer: Result<Mended, Refusal>) -> MendedTold {
        match answer {
            Ok(mended) => MendedTold {
                refusal: 0,
                kept: mended.kept,
                listed: mended.listed,
            },
            Err(why) => MendedTold {
                refusal: why.number(),
                kept: 0,
                listed: 0,
            },
        }
    }
}
