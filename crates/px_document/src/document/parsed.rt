//! What a document was read into.

use px_column::Column;
use px_tree::Step;

/// The columns and the steps of a document, in their order.
#[derive(Drop)]
pub struct Parsed {
    /// The columns, whose names and lengths were not compared.
    pub columns: Vec<Column>,
    /// The steps.
    pub steps: Vec<Step>,
}
