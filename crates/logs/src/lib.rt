// One line of a log: read into a stamped frame, and written from one.
#![tactic(auto)]

mod answer;
mod parts;
mod read;
mod scan;
mod write;

pub use answer::{DataBytes, LogFrame, LogFrameTold, LogLineTold, put_data};
pub use read::{Front, read_front, read_line};
pub use write::{TEXT, write_line};
