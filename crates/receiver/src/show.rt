// The shown message: a part of the frame's own data, or of the reception buffer, never a copy.
ghost use Rattle.std.specs.Prelude.{◌≡◌, take, drop};
ghost use Rattle.receiver.specs.Shown.{told_message};

use crate::outcome::OutcomeTold;

// The `count` bytes from `at` on, or as many of them as there are.
fn part<'a>(s: &'a [u8], at: usize, count: usize) -> &'a [u8]
    ensures { result.now ≡ take count (drop at s.now) }
{
    let behind = &s[at.min(s.len())..];
    &behind[..count.min(behind.len())]
}

// By the outcome in numbers, as `Shown.told_message` has it and C hands it back.
#[tactic(auto, unfolding(crate::specs::Shown::told_message, identifiers::specs::Choice::pick))]
pub fn shown<'a>(data: &'a [u8], buffer: &'a [u8], outcome: OutcomeTold) -> &'a [u8]
    ensures { result.now ≡ told_message outcome «data».now buffer.now }
{
    if outcome.handed_out == 1 {
        return part(data, outcome.start as usize, outcome.length as usize);
    }
    part(buffer, outcome.start as usize, outcome.length as usize)
}
