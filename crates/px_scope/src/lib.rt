//! What an expression finds by name, in a frame and beside it: the names and types that it is planned over,
//! and the columns of its column nodes.
#![tactic(auto)]

mod columns;
mod scope;

pub use columns::{copy_column, external_column, found_column};
pub use scope::scope_beside;
