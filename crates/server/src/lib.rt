// The server: the trailer record, and services 14, 19, 22 and 3E over it.
#![tactic(auto)]

mod answers;
mod checks;
mod codes;
mod data_identifiers;
mod faults;
mod mask;
mod places;
mod requests;
mod serving;
mod severity;
mod silence;
mod sound;
mod status;
mod trailer;

pub use mask::sound_mask;
pub use serving::{ReplyTold, Served, serve};
pub use status::{StatusSet, set_status};
pub use trailer::{TrailerRecord, check};
