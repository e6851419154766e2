//! Windows.

/// What kind of window it is (polars `WindowType`).
#[derive(Clone, Copy, Debug, PartialEq, Eq)]
pub enum WindowType {
    /// Over the parts of the rows by keys.
    Over(WindowMapping),
}

/// Where the results for the parts stand (polars `WindowMapping`).
#[derive(Clone, Copy, Debug, PartialEq, Eq)]
pub enum WindowMapping {
    /// Each at the row that it was computed for.
    GroupsToRows,
    /// All of a part's as one list, at each of the part's rows.
    Join,
    /// One part's after another's.
    Explode,
}
