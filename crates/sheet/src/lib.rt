// The count sheet: its input read field by field, and its text, or the page of one mask, printed into a lent page.
#![tactic(auto)]

mod basis;
mod fields;
mod line;
mod printing;
mod ranking;
mod reader;
mod reading;
mod sheet_read;

pub use basis::{Basis, basis_of};
pub use printing::{PAGE, print};
pub use ranking::rank;
pub use reader::{MOST_INPUT, read_sheet};
pub use reading::READING_SIZE;
pub use sheet_read::{RefusedAt, SheetReadTold};
