//! The types and the names of expressions.
#![tactic(auto)]

mod functions;
mod naming;
mod nodes;
mod typed;
mod types;
mod typing;

pub use naming::output_name;
pub use typing::{type_of, type_on_groups};
