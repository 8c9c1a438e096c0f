// Places put in the order of their keys.
#![tactic(auto)]

mod sorting;

pub use sorting::{MOST_PLACES, sort};
