// The trailer record, and the test of its rules: one loop over each array.
ghost use Rattle.std.specs.Prelude.{◌≡◌, ltb, get_or, length, fold, bit_or, nat_le, ◌&&◌};
ghost use Rattle.std.specs.List.{list_all};
ghost use Rattle.identifiers.specs.Choice.{both};
ghost use Rattle.identifiers.specs.Below.{all_below};
ghost use Rattle.server.specs.Trailer.{ascending, status_within, sound_record, checked_as};

use crate::mask::sound_mask;
use crate::places::ascend;
use identifiers::Refusal;

// Arrays and counts as C lends them (`castanhiu_record`), on no heap: the places past count, past held, and past a datum's length are free.
// Each identifier has 32 bytes of room.
#[repr(C)]
#[derive(Clone, Copy)]
pub struct TrailerRecord {
    pub codes: [u32; 63],
    pub statuses: [u8; 63],
    pub count: u8,
    pub availability: u8,
    pub identifiers: [u16; 16],
    pub lengths: [u8; 16],
    pub bytes: [u8; 512],
    pub held: u8,
}

pub fn status_within(availability: u8, status: u8) -> bool
    ensures { result ≡ status_within availability status }
{
    status & availability == status
}

// The last of codes that ascend is the greatest: it alone is held against FFFFFF.
fn sound_codes(codes: &[u32]) -> bool
    ensures { result ≡ both (all_below (λ i. ltb (get_or codes.now i 0) 0xFFFFFF) (length codes.now)) (ascending codes.now (length codes.now)) }
{
    let Some(last) = codes.last() else {
        return true;
    };
    ascend(codes) & (*last < 0xFFFFFF)
}

// The bits of all statuses together are within where those of each are.
fn statuses_within(statuses: &[u8], availability: u8) -> bool
    ensures { result ≡ status_within availability (fold bit_or 0 statuses.now) }
{
    status_within(
        availability,
        statuses.iter().fold(0, |bits, status| bits | *status),
    )
}

fn lengths_within(lengths: &[u8]) -> bool
    ensures { result ≡ list_all (λ n. nat_le 1 n && nat_le n 32) lengths.now }
{
    lengths.iter().all(|n| (1 <= *n) & (*n <= 32))
}

impl TrailerRecord {
    // Does a record keep its rules, whatever its data bytes are.
    pub(crate) fn is_sound(&self) -> bool
        ensures { result ≡ sound_record self.now }
    {
        if 63 < self.count || 16 < self.held {
            return false;
        }
        let count = self.count as usize;
        let held = self.held as usize;
        sound_mask(self.availability)
            & sound_codes(&self.codes[..count])
            & statuses_within(&self.statuses[..count], self.availability)
            & ascend(&self.identifiers[..held])
            & lengths_within(&self.lengths[..held])
    }
}

// Does a record keep its rules: refusal 1 where it does not.
pub fn check(record: &TrailerRecord) -> Result<(), Refusal>
    ensures { result ≡ checked_as «record».now }
{
    if record.is_sound() {
        return Ok(());
    }
    Err(Refusal::RulesBroken)
}
