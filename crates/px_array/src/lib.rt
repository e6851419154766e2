//! Typed, shared arrays of optional values, and how they are read and built.
#![tactic(auto)]

mod array;
mod builder;
mod copying;
mod filling;
mod integers;
mod lanes;
mod nulls;
mod rows;
mod words;

pub use array::Array;
pub use builder::ArrayBuilder;
pub use integers::Integers;
pub use rows::Rows;
