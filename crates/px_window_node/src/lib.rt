//! The body of a window node: the groups that its keys and its order name, and the column of its function's
//! cells for them; and the laws by which its answer comes from those of its inputs.
#![tactic(auto)]

mod parts;
mod place;

pub use parts::window_parts;
pub use place::place_window;
