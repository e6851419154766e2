//! The steps that are done with a frame.

use crate::expr::Expr;

/// What is done with a frame.
pub enum Step {
    /// The columns of these expressions, side by side (polars `select`).
    Select(Vec<Expr>),
    /// The rows for which this is true (polars `filter`).
    Filter(Expr),
    /// One row for each distinct key: the keys, and the aggregations over the key's rows (polars
    /// `group_by` with `agg`); `chunks` are the lengths of the chunks of rows, where they are told.
    GroupAgg {
        keys: Vec<Expr>,
        aggs: Vec<Expr>,
        chunks: Option<Vec<u32>>,
    },
}

/// One call where a step is let go, so that proofs see no case of it.
impl Drop for Step {
    fn drop(self) {
        match self {
            Step::Select(_exprs) => {}
            Step::Filter(_predicate) => {}
            Step::GroupAgg {
                keys: _keys,
                aggs: _aggs,
                chunks: _chunks,
            } => {}
        }
    }
}
