//! Lazy aggregation contexts: what an expression has for each group, before it is laid out for all of them.
#![tactic(auto)]

mod agg_state;
mod context;
mod group_iter;
mod laws;
mod lent;
mod piece;
mod refused;

pub use agg_state::{AggState, UpdateGroups};
pub use context::AggregationContext;
pub use group_iter::{FlatIter, GroupIter, ListIter, LitIter, RowsIter};
pub use laws::{only_large_cells_are_too_long, same_rows_have_equal_cells};
pub use lent::{ColRef, GroupsRef};
pub use piece::GroupPiece;
pub use refused::Refused;
