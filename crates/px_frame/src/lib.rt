//! Frames of columns, groups of rows by equal keys, and the kernels over groups.
#![tactic(auto)]

mod aggregate;
mod blocks;
mod cell;
mod distinct;
mod frame;
mod grouping;
mod groups;
mod reduce;
mod regroup;
mod schema;
mod taking;
mod unsigned;

pub use aggregate::{
    agg_count, agg_first, agg_last, agg_list, agg_max, agg_min, agg_n_unique, agg_sum, key_rows,
};
pub use cell::{Cell, UnitColumn, assemble, spread, spread_each};
pub use frame::{DataFrame, add_name};
pub use grouping::group_by;
pub use groups::{GroupPositions, GroupsIndicator, GroupsType, IdxVec};
pub use reduce::{list_groups, same_rows_reduce_alike};
pub use schema::{Field, Schema, SchemaRef};
pub use taking::take_rows;
pub use unsigned::convert_to_unsigned_index;
