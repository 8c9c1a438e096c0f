// The frames that the node sends: flow control, and the frames of a message.
ghost use Rattle.std.specs.Prelude.{◌≡◌};
ghost use Rattle.receiver.specs.Cuts.{frame_count, cut_of, cut_told};
ghost use Rattle.castanhiu.specs.Numbers.{control_numbered};

use identifiers::Refusal;
use receiver::{Control, FrameCutTold, cut, flow_control, frame_count};

// The numbers of the controls, as castanhiu.h has them, and as the outcome of a frame says that one is due.
const CONTINUE: u8 = 1;

const OVERFLOW: u8 = 2;

// Refusal 16 for a control of another number.
#[tactic(auto, using(receiver::proofs::LawsCutter::none_rules), unfolding(crate::specs::Numbers::control_numbered, identifiers::specs::Choice::pick))]
pub fn castanhiu_flow_control(control: u8, from: u8, to: u8, unit: u8) -> FrameCutTold
    ensures { result ≡ cut_told (control_numbered control from to unit) }
{
    let frame = match control {
        CONTINUE => flow_control(Control::Continue, from, to, unit),
        OVERFLOW => flow_control(Control::Overflow, from, to, unit),
        _ => Err(Refusal::NotWritable),
    };
    frame.into()
}

pub fn castanhiu_frame_count(total: usize) -> usize
    ensures { result ≡ frame_count total }
{
    frame_count(total)
}

pub fn castanhiu_cut(message: &[u8], number: usize, from: u8, to: u8, unit: u8) -> FrameCutTold
    ensures { result ≡ cut_told (cut_of message.now number from to unit) }
{
    cut(message, number, from, to, unit).into()
}
