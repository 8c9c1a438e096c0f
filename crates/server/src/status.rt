// The host sets the status of one code: the record goes in, and its statuses come back.
ghost use Rattle.std.specs.Prelude.{◌≡◌, set};
ghost use Rattle.server.specs.Trailer.{with_statuses};
ghost use Rattle.server.specs.Status.{setting_of};

use crate::places::place_of;
use crate::trailer::{TrailerRecord, check, status_within};
use identifiers::Refusal;

// What a setting leaves behind: of the record only the statuses can change.
#[derive(Clone, Copy)]
pub struct StatusSet {
    pub statuses: [u8; 63],
    pub answer: Result<(), Refusal>,
}

fn set_in(record: &mut TrailerRecord, code: u32, status: u8) -> Result<(), Refusal>
    ensures { («record».new ≡ (setting_of «record».old code status).after) × (result ≡ (setting_of «record».old code status).answer) }
{
    check(record)?;
    let Some(i) = place_of(&record.codes[..record.count as usize], &code) else {
        return Err(Refusal::CodeNotHeld);
    };
    if !status_within(record.availability, status) {
        return Err(Refusal::StatusOutsideMask);
    }
    let statuses = &mut record.statuses;
    statuses[i] = status;
    Ok(())
}

// Sets the status of one code: refusal 1 for the record, 18 where the code is not held, 19 for a status outside the mask. By value, as
// `serve`.
pub fn set_status(mut record: TrailerRecord, code: u32, status: u8) -> StatusSet
    ensures { (with_statuses «record» result.statuses ≡ (setting_of «record» code status).after) × (result.answer ≡ (setting_of «record» code status).answer) }
{
    let answer = set_in(&mut record, code, status);
    let statuses = record.statuses;
    StatusSet { statuses, answer }
}
