//! Laws of what expressions mean. A function here does nothing: its clauses are laws.
#![tactic(auto)]

mod merge;
mod order;
mod parts;
mod value;

pub use merge::partial_values_merge;
pub use order::sorted_rows_are_in_order;
pub use parts::{
    group_rows_are_the_frame, ordered_parts_hold_each_row_once, parts_are_the_rows_of_a_key,
    parts_hold_each_row_once, parts_stand_by_their_first_rows, spread_keeps_equal_lengths,
};
pub use value::{
    accepted_expressions_fail_by_value, accepted_without_fault_has_value,
    alias_changes_the_name_alone, range_has_its_length, value_has_its_shape, value_has_no_fault,
    value_needs_no_external_column,
};
