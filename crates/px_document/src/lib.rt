//! Documents of a frame and steps, and their reader.
#![tactic(auto)]

mod document;

pub use document::{Document, DocumentFault, read_document};
