//! Functions of rows.

use px_column::ClosedInterval;

/// A function of one expression or more (polars `FunctionExpr`).
#[derive(Clone, Copy, Debug, PartialEq, Eq)]
pub enum FunctionExpr {
    /// Whether a row is null.
    IsNull,
    /// Whether a row is present.
    IsNotNull,
    /// The other truth.
    Not,
    /// Whether a row lies between two others.
    IsBetween { closed: ClosedInterval },
    /// Whether a row stands among others.
    IsIn,
    /// The rows from the last to the first.
    Reverse,
    /// The rows, so many places later.
    Shift(i64),
    /// The rows that are present.
    DropNulls,
    /// The number of nulls.
    NullCount,
    /// The values in lists, one after another.
    Explode,
}
