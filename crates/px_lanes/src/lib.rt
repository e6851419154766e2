//! Contexts that nodes read from one cell, or group by group; operators and casts on them.
#![tactic(auto)]

mod binary;
mod cast;
pub mod each;
pub mod each_one;
pub mod lane;
pub mod laying;

pub use binary::binary_groups;
pub use cast::cast_groups;
