//! Laws of frames that are cut into chunks. A function here does nothing: its clauses are laws.
#![tactic(auto)]

mod beside;
mod chunks;
mod faults;
mod merge;
mod sizes;

pub use beside::columns_beside_are_nothing;
pub use chunks::{chunks_make_the_whole, every_cut_makes_the_same, parts_of_chunks_are_parts};
pub use faults::faults_on_parts_are_faults;
pub use merge::{any_merges, partial_sums_are_the_sum};
pub use sizes::values_are_no_more_than_rows;
