//! What a cast does with a value that the new type does not have.

/// What becomes of a value that a cast loses (polars `CastOptions`).
#[derive(Clone, Copy, Debug, PartialEq, Eq)]
pub enum CastOptions {
    /// The cast is refused.
    Strict,
    /// The value becomes a null.
    NonStrict,
    /// The value wraps in the new type.
    Overflowing,
}
