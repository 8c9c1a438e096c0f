// Numbers as text: put into a lent buffer where they fit, and read out of digits.
#![tactic(auto)]

mod putting;
mod reading;

pub use putting::{put, put_decimal, put_hex};
pub use reading::{digit_value, read_decimal, read_hex};
