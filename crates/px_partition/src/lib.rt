//! Frames that are cut into chunks, and the expressions that can be evaluated chunk by chunk.
#![tactic(auto)]

mod cutting;
mod elementwise;
mod safe;

pub use cutting::cut_frame;
pub use elementwise::is_elementwise;
pub use safe::partition_safe;
