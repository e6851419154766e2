//! The reductions of a column.

/// How the rows of a column become one value (polars `GroupByMethod`).
#[derive(Clone, Copy, Debug, PartialEq, Eq)]
pub enum GroupByMethod {
    /// The least of the present values.
    Min,
    /// The greatest of the present values.
    Max,
    /// The sum of the present values, modulo the result's type.
    Sum,
    /// The first row.
    First,
    /// The last row.
    Last,
    /// The number of distinct rows, all nulls being one.
    NUnique,
    /// The number of rows, or of present ones.
    Count { include_nulls: bool },
    /// The list of all rows.
    Implode,
}
