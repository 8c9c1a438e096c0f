// What a frame carries, checks 9 and 10, and what it is by itself: checks 2 to 10, which look at no reception.
ghost use Rattle.std.specs.Prelude.{◌≡◌, length};
ghost use Rattle.receiver.specs.Frames.{single_of, first_of, carried_of, judged_of};

use crate::addressing::Addressing;
use crate::offered::{Offered, Own};
use identifiers::Refusal;
use readings::Position;

// From whom a frame is that checks 2 to 10 let through, and what it carries. Over-long is no `Err`: it has a vehicle, to which a control is due
// (`Outcomes.due_of`).
#[derive(Clone, Copy, Debug, PartialEq, Eq)]
pub enum Judged {
    Single {
        from: Position,
        functional: bool,
        length: u8,
    },
    First {
        from: Position,
        length: u8,
    },
    OverLong {
        from: Position,
    },
    Consecutive {
        from: Position,
        number: u8,
    },
}

// Low half 1 to 6, and at least 2 + L data bytes.
#[tactic(auto, unfolding(crate::specs::Frames::single_of, identifiers::specs::Choice::pick))]
fn single(addressing: Addressing, low: u8, count: usize) -> Result<Judged, Refusal>
    ensures { result ≡ single_of addressing.from addressing.functional low count }
{
    let Addressing { from, functional } = addressing;
    let length = low as usize;
    if !(1..=6).contains(&length) || count < 2 + length {
        return Err(Refusal::Malformed);
    }
    Ok(Judged::Single {
        from,
        functional,
        length: low,
    })
}

// 8 data bytes, and L in 12 bits: 7 to 255, or over-long.
#[tactic(auto, unfolding(crate::specs::Frames::first_of, crate::specs::Frames::first_length, identifiers::specs::Choice::pick))]
fn first(from: Position, data: &[u8]) -> Result<Judged, Refusal>
    ensures { result ≡ first_of from «data».now }
{
    if data.len() < 8 {
        return Err(Refusal::Malformed);
    }
    let length = u16::from_be_bytes([data[1] % 16, data[2]]);
    if length < 7 {
        return Err(Refusal::Malformed);
    }
    if 255 < length {
        return Ok(Judged::OverLong { from });
    }
    Ok(Judged::First {
        from,
        length: length as u8,
    })
}

// Checks 9 and 10: the second byte's high half.
#[tactic(auto, unfolding(crate::specs::Frames::carried_of, identifiers::specs::Choice::pick))]
fn carried(addressing: Addressing, data: &[u8]) -> Result<Judged, Refusal>
    ensures { result ≡ carried_of addressing.from addressing.functional «data».now }
{
    if data.len() < 2 {
        return Err(Refusal::Malformed);
    }
    let Addressing { from, functional } = addressing;
    let low = data[1] % 16;
    match data[1] / 16 {
        0 => single(addressing, low, data.len()),
        _ if functional => Err(Refusal::Malformed),
        1 => first(from, data),
        2 => Ok(Judged::Consecutive { from, number: low }),
        3 => Err(Refusal::FlowControl),
        _ => Err(Refusal::Malformed),
    }
}

impl Own {
    // Checks 2 to 10.
    #[tactic(auto, unfolding(crate::specs::Frames::judged_of, crate::specs::Frames::judged_from))]
    pub fn judge(self, frame: Offered) -> Result<Judged, Refusal>
        ensures { result ≡ judged_of self.position self.unit frame.entry.identifier frame.entry.data.now }
    {
        let addressing = self.addressing_of(frame)?;
        carried(addressing, frame.data)
    }
}
