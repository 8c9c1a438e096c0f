// The cutter: one frame of a message, and the frame of flow control.
ghost use Rattle.std.specs.Prelude.{◌≡◌, ◌+◌, ◌<◌, ◌≤◌, length};
ghost use Rattle.receiver.specs.Cuts.{frame_count, headed, piece_of, way_of, cut_of, flow_control_of, cut_told};

use crate::bytes::store;
use crate::outcome::Control;
use identifiers::{Identifier, Refusal};
use readings::Position;

// A frame: its identifier and its first `length` data bytes; all else is 0, as `castanhiu_cut` gives it to C.
#[derive(Clone, Copy, Debug, PartialEq, Eq)]
pub struct FrameCut {
    pub identifier: u32,
    pub length: u8,
    pub data: [u8; 8],
}

// The same and the refusal, 0 for none; where refused, all else is 0.
#[repr(C)]
#[derive(Clone, Copy, Debug, Default, PartialEq, Eq)]
pub struct FrameCutTold {
    pub refusal: u8,
    pub length: u8,
    pub identifier: u32,
    pub data: [u8; 8],
}

impl From<Result<FrameCut, Refusal>> for FrameCutTold {
    ghost from_gives = { λ answer told. told ≡ cut_told answer };

    #[tactic(auto, unfolding(crate::specs::Cuts::cut_told))]
    fn from(answer: Result<FrameCut, Refusal>) -> FrameCutTold {
        match answer {
            Ok(cut) => {
                let data = cut.data;
                FrameCutTold {
                    refusal: 0,
                    length: cut.length,
                    identifier: cut.identifier,
                    data,
                }
            }
            Err(why) => FrameCutTold {
                refusal: why.number(),
                length: 0,
                identifier: 0,
                data: [0; 8],
            },
        }
    }
}

// How many frames a message of this length has: 0 where it can't be cut, as `castanhiu_frame_count` gives it to C.
#[tactic(auto, unfolding(crate::specs::Cuts::frame_count, identifiers::specs::Choice::pick, identifiers::specs::Choice::either))]
pub fn frame_count(total: usize) -> usize
    ensures { result ≡ frame_count total }
{
    match total {
        1..=6 => 1,
        7..=255 => 1 + total / 6,
        _ => 0,
    }
}

// From one position to another, for a unit.
#[derive(Clone, Copy)]
pub struct Way {
    pub sender: Position,
    pub receiver: Position,
    pub unit: u8,
}

impl Way {
    // Refusal 16 for positions over 5 or equal.
    #[tactic(auto, unfolding(crate::specs::Cuts::way_of, crate::specs::Cuts::ways, identifiers::specs::Choice::pick))]
    fn between(from: u8, to: u8, unit: u8) -> Result<Way, Refusal>
        ensures { result ≡ way_of from to unit }
    {
        let sender = Position::at(from).ok_or(Refusal::NotWritable)?;
        let receiver = Position::at(to).ok_or(Refusal::NotWritable)?;
        if from == to {
            return Err(Refusal::NotWritable);
        }
        Ok(Way {
            sender,
            receiver,
            unit,
        })
    }

    // The frame of these bytes and no more: priority 6, physical. Written out at each call, where most lengths are constants.
    #[inline(always)]
    fn frame(self, head: &[u8], bytes: &[u8]) -> Result<FrameCut, Refusal>
        requires { length head.now + length bytes.now ≤ 8 }
        ensures { result ≡ headed self.sender self.receiver head.now bytes.now }
    {
        let fields = Identifier {
            priority: 6,
            reserved: 0,
            data_page: 0,
            format: 206,
            specific: self.receiver.address(),
            source: self.sender.address(),
        };
        let identifier = fields.write()?;
        let mut data = [0; 8];
        store(&mut data, 0, head);
        store(&mut data, head.len(), bytes);
        Ok(FrameCut {
            identifier,
            length: (head.len() + bytes.len()) as u8,
            data,
        })
    }

    // Frame `number` of a message that has so many.
    fn piece(self, message: &[u8], number: usize) -> Result<FrameCut, Refusal>
        requires { number < frame_count (length message.now) }
        ensures { result ≡ piece_of self.sender self.receiver self.unit message.now number }
    {
        let total = message.len();
        if total <= 6 {
            return self.frame(&[self.unit, total as u8], message);
        }
        if number == 0 {
            return self.frame(&[self.unit, 0x10, total as u8], &message[..5]);
        }
        let start = 5 + 6 * (number - 1);
        let control = 0x20 + (number % 16) as u8;
        // Fewer than six apart: with `rest.len().min(6)`, which is no constant, a frame cut takes 12.8 ns, so 8.3 to 9.7; the model 11.7, and the reach is 1.0.
        let rest = &message[start..];
        if rest.len() < 6 {
            return self.frame(&[self.unit, control], rest);
        }
        self.frame(&[self.unit, control], &rest[..6])
    }
}

// One frame of a message: refusal 16 for a message of 0 or over 255 bytes, a frame past the last, positions over 5 or equal.
pub fn cut(message: &[u8], number: usize, from: u8, to: u8, unit: u8) -> Result<FrameCut, Refusal>
    ensures { result ≡ cut_of message.now number from to unit }
{
    let way = Way::between(from, to, unit)?;
    if frame_count(message.len()) <= number {
        return Err(Refusal::NotWritable);
    }
    way.piece(message, number)
}

// The frame of flow control: refusal 16 for positions over 5 or equal.
pub fn flow_control(control: Control, from: u8, to: u8, unit: u8) -> Result<FrameCut, Refusal>
    ensures { result ≡ flow_control_of control from to unit }
{
    let way = Way::between(from, to, unit)?;
    way.frame(&[unit], &[control.byte(), 0, 0])
}
