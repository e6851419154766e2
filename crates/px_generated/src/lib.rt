//! The document that is generated from a number: a large valid input without a file.
#![tactic(auto)]

mod columns;
mod document;
mod steps;

pub use document::generated;
