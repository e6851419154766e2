//! Operations on single values: the types that they take and give, and what they make of values.
#![tactic(auto)]

mod casts;
mod functions;
mod operators;
mod reductions;
pub mod rows;
mod sum;
mod types;
mod wrapping;

pub use casts::cast_value;
pub use functions::{is_between, is_not_null, is_null, not};
pub use operators::operate;
pub use reductions::{
    CountReduce, FirstReduce, ImplodeReduce, LastReduce, MaxReduce, MinReduce, Reduce, SumReduce,
    reduce_parts, reduce_rows, state_of,
};
pub use sum::{number, wrap_sum};
pub use types::{
    cast_type, is_boolean, is_cast, is_integer, operator_type, reduced_type, same_type, sum_type,
    type_where,
};
pub use wrapping::wrap;
