//! What nodes make of contexts: for each group what they make of its cells.
#![tactic(auto)]

mod aggregation;
mod apply;
mod each_many;
mod each_three;
mod filter;
mod function_type;
mod gather;
mod group_windows;
mod kept;
mod many_lanes;
mod pairs;
mod slice;
mod sort;
mod sort_by;
mod ternary;

pub use aggregation::aggregation_groups;
pub use apply::apply_groups;
pub use filter::filter_groups;
pub use gather::gather_groups;
pub use px_lanes::{binary_groups, cast_groups};
pub use slice::slice_groups;
pub use sort::sort_groups_cells;
pub use sort_by::sort_by_groups;
pub use ternary::ternary_groups;
