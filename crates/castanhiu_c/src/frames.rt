// The frames that the node sends: flow control, and the frames of a message.
ghost use Rattle.std.specs.Prelude.{◌≡◌};
ghost use Rattle.receiver.specs.Cuts.{frame_count, cut_of, cut_told};
ghost use Rattle.castanhiu.specs.Numbers.{control_numbered};

use receiver::FrameCutTold;

// The control is a number in castanhiu.h, 1 continue or 2 overflow: refusal 16 for another.
#[unsafe(no_mangle)]
pub extern "C" fn castanhiu_flow_control(control: u8, from: u8, to: u8, unit: u8) -> FrameCutTold
    ensures { result ≡ cut_told (control_numbered control from to unit) }
{
    castanhiu::castanhiu_flow_control(control, from, to, unit)
}

#[unsafe(no_mangle)]
pub extern "C" fn castanhiu_frame_count(total: usize) -> usize
    ensures { result ≡ frame_count total }
{
    castanhiu::castanhiu_frame_count(total)
}

#[unsafe(no_mangle)]
pub extern "C" fn castanhiu_cut(
    message: &[u8],
    number: usize,
    from: u8,
    to: u8,
    unit: u8,
) -> FrameCutTold
    ensures { result ≡ cut_told (cut_of message.now number from to unit) }
{
    castanhiu::castanhiu_cut(message, number, from, to, unit)
}
