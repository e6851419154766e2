//! The kernels: what is computed from whole columns.

mod arrange;
mod cast;
mod choose;
mod distinct;
mod explode;
mod interval;
mod keep;
mod membership;
mod operate;
mod rank;
mod reduce;
mod sort;
mod sort_key;
mod sort_multiple;
mod sum;
mod truths;

pub use arrange::slice_window;
pub use sort_multiple::prepare_bool_vec;
