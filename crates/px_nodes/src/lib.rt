//! The nodes of expressions that see no child: what each makes of its inputs' cells.
#![tactic(auto)]

mod aggregation;
mod answer;
mod apply;
mod beside;
mod binary;
mod cast;
mod filter;
mod gather;
mod slice;
mod sort;
mod sort_by;
mod ternary;

pub use aggregation::aggregation_cells;
pub use apply::apply_cells;
pub use binary::binary_cells;
pub use cast::cast_cells;
pub use filter::filter_cells;
pub use gather::gather_cells;
pub use slice::slice_cells;
pub use sort::sort_cells;
pub use sort_by::sort_by_cells;
pub use ternary::ternary_cells;
