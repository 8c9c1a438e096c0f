// The receiver and the cutter: the node's state, one frame received, the shown message, flow control, one frame cut.
#![tactic(auto)]

mod addressing;
mod bytes;
mod cutter;
mod frame;
mod node;
mod offered;
mod outcome;
mod receiving;
mod reception;
mod show;
mod sound;
mod steps;

pub use cutter::{FrameCut, FrameCutTold, cut, flow_control, frame_count};
pub use node::{NODE, fresh, start, take_address};
pub use outcome::{Control, OutcomeTold};
pub use receiving::receive;
pub use reception::BUFFER;
pub use show::shown;
