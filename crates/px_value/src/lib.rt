//! Names, types, values and what they are told apart, ordered and hashed by; the options of operations, and the
//! errors.
#![tactic(auto)]

mod cast_options;
mod closed_interval;
mod data_type;
mod error;
mod method;
mod name;
mod operator;
mod order;
pub mod rows;
mod sort_options;
mod steps;
mod value;
mod value_ref;

pub use cast_options::CastOptions;
pub use closed_interval::ClosedInterval;
pub use data_type::DataType;
pub use error::{ComputeWhy, InvalidWhy, Px, PxError};
pub use method::GroupByMethod;
pub use name::{ByteString, Name};
pub use operator::Operator;
pub use sort_options::{Flags, SortMultipleOptions, SortOptions};
pub use steps::Steps;
pub use value::{Value, Values};
pub use value_ref::{ValueRef, copy_slot, copy_slots, hash_slot, lend, same_slot, slot_fits};
