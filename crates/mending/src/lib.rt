// A cut sheet mended: whole readings are kept, and what stands between them is dropped and listed.
#![tactic(auto)]

mod mended;
mod stretch;
mod walk;

pub use mended::{Mended, MendedTold};
pub use walk::mend;
