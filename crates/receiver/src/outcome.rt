// What is answered to a frame: its outcome, and the same in numbers.
ghost use Rattle.std.specs.Prelude.{◌≡◌};
ghost use Rattle.receiver.specs.Cuts.{control_byte};
ghost use Rattle.receiver.specs.Outcomes.{nothing_told, outcome_told};

use crate::reception::region;
use identifiers::Refusal;
use readings::Position;

// Over-long is no `Err`: a control is due to its vehicle (`due_of`), and no other refusal tells one.
#[derive(Clone, Copy, Debug, PartialEq, Eq)]
pub enum Outcome {
    OverLong {
        from: Position,
    },
    Opened {
        from: Position,
    },
    Taken {
        from: Position,
    },
    Single {
        from: Position,
        functional: bool,
        length: u8,
    },
    Train {
        from: Position,
        length: u8,
    },
}

// By its byte behind the unit.
#[derive(Clone, Copy, Debug, PartialEq, Eq)]
pub enum Control {
    Continue = 0x30,
    Overflow = 0x32,
}

impl Control {
    #[tactic(auto, unfolding(crate::specs::Cuts::control_byte))]
    pub(crate) fn byte(self) -> u8
        ensures { result ≡ control_byte self }
    {
        self as u8
    }
}

// The outcome in the numbers of include/castanhiu.h: the refusal, 0 for none; what is handed out, 0 nothing, 1 a single frame, 2 a train; from
// whom, functional or not, where the message starts in the frame's data or in the buffer, its length; and the control that is due to that
// vehicle, 0 none, 1 continue, 2 overflow.
#[repr(C)]
#[derive(Clone, Copy, Debug, PartialEq, Eq)]
pub struct OutcomeTold {
    pub refusal: u8,
    pub handed_out: u8,
    pub from: u8,
    pub functional: bool,
    pub start: u16,
    pub length: u8,
    pub control: u8,
}

#[tactic(auto, unfolding(crate::specs::Outcomes::nothing_told))]
fn nothing_told(refusal: u8, from: u8, control: u8) -> OutcomeTold
    ensures { result ≡ nothing_told refusal from control }
{
    OutcomeTold {
        refusal,
        handed_out: 0,
        from,
        functional: false,
        start: 0,
        length: 0,
        control,
    }
}

impl From<Result<Outcome, Refusal>> for OutcomeTold {
    ghost from_gives = { λ r t. t ≡ outcome_told r };

    #[tactic(auto, unfolding(crate::specs::Outcomes::outcome_told, crate::specs::Outcomes::nothing_told))]
    fn from(outcome: Result<Outcome, Refusal>) -> OutcomeTold {
        match outcome {
            Err(why) => nothing_told(why.number(), 0, 0),
            Ok(Outcome::OverLong { from }) => nothing_told(
                Refusal::OverLong.number(),
                from.place(),
                2,
            ),
            Ok(Outcome::Opened { from }) => nothing_told(0, from.place(), 1),
            Ok(Outcome::Taken { from }) => nothing_told(0, from.place(), 0),
            Ok(
                Outcome::Single {
                    from,
                    functional,
                    length,
                },
            ) => OutcomeTold {
                refusal: 0,
                handed_out: 1,
                from: from.place(),
                functional,
                start: 2,
                length,
                control: 0,
            },
            Ok(Outcome::Train { from, length }) => OutcomeTold {
                refusal: 0,
                handed_out: 2,
                from: from.place(),
                functional: false,
                start: region(from) as u16,
                length,
                control: 0,
            },
        }
    }
}
