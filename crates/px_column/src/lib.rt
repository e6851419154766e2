//! Columns of typed, nullable values, and the kernels over them.
#![tactic(auto)]

mod builder;
mod column;
mod kernels;
mod number_key;
mod reading;
mod repeat;
mod row_by_row;
mod row_key;
mod take;
mod view;

pub use builder::ColumnBuilder;
pub use column::Column;
pub use kernels::{prepare_bool_vec, slice_window};
pub use number_key::NumberKey;
pub use px_array::{Integers, Rows};
pub use px_operation::{
    cast_type, is_boolean, is_cast, is_integer, operator_type, reduced_type, same_type, sum_type,
    type_where, wrap_sum,
};
pub use px_value::{
    ByteString, CastOptions, ClosedInterval, ComputeWhy, DataType, Flags, GroupByMethod,
    InvalidWhy, Name, Operator, Px, PxError, SortMultipleOptions, SortOptions, Steps, Value,
    ValueRef, Values,
};
pub use row_key::RowKey;
pub use view::ColumnView;
