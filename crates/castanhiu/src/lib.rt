// The layers for a host in C: each function calls a layer's own and gives its answer in document 01's numbers.
#![tactic(auto)]

mod frames;
mod identifier;
mod log;
mod mend;
mod node;
mod parameter;
mod ranking_text;
mod sheet_text;
mod trailer;
mod vehicle;

pub use frames::{castanhiu_cut, castanhiu_flow_control, castanhiu_frame_count};
pub use identifier::{castanhiu_identifier_read, castanhiu_identifier_write};
pub use log::{castanhiu_log_read, castanhiu_log_write};
pub use mend::castanhiu_mend;
pub use node::{castanhiu_fresh, castanhiu_receive, castanhiu_start, castanhiu_take_address};
pub use parameter::{castanhiu_read_parameter, castanhiu_read_two_bits};
pub use ranking_text::castanhiu_ranking_text;
pub use sheet_text::castanhiu_sheet_text;
pub use trailer::{castanhiu_record_check, castanhiu_serve, castanhiu_set_status};
pub use vehicle::{castanhiu_position_after, castanhiu_route};
