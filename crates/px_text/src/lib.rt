//! The text of a frame, and the line that tells of a fault.
#![tactic(auto)]

mod data_type;
mod frame;
mod json;
mod label;
mod value;

pub use frame::frame_text;
pub use label::error_line;
