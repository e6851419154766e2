//! Where an expression stands.
ghost use Rattle.std.specs.Prelude.{◌≡◌};
ghost use Rattle.px_tree.specs.Typing.{is_on_groups};

/// Whether an expression is evaluated on a whole frame or on groups of its rows (polars `Context`).
#[derive(Clone, Copy, Debug, PartialEq, Eq)]
pub enum Context {
    /// On the whole frame.
    Default,
    /// On each group of rows.
    Aggregation,
}

impl Context {
    /// Whether it is that of groups.
    pub fn is_on_groups(self) -> bool
        ensures { result ≡ is_on_groups self }
    {
        matches!(self, Context::Aggregation)
    }
}
