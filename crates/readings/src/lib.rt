// Vehicle positions and their addresses, the route of a frame, and parameter readings.
#![tactic(auto)]

mod kind;
mod position;
mod reading;
mod routing;

pub use position::{AddressTakenTold, Position};
pub use reading::{
    Measured, ParameterReadTold, Reading, TwoBits, TwoBitsReadTold, read_parameter, read_two_bits,
};
pub use routing::{Passage, RoutedTold, Side, route};
