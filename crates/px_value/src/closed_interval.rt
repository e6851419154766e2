//! Which ends belong to an interval.

/// The ends that belong to an interval (polars `ClosedInterval`).
#[derive(Clone, Copy, Debug, PartialEq, Eq)]
pub enum ClosedInterval {
    /// Both ends belong to it.
    Both,
    /// The low end belongs to it, the high one does not.
    Left,
    /// The high end belongs to it, the low one does not.
    Right,
    /// No end belongs to it.
    None,
}
