//! How rows are sorted.
ghost use Rattle.std.specs.Prelude.{◌≡◌, Ok};
ghost use Rattle.px_value.specs.Answer.{Answers};

use crate::error::Px;
use std::alloc::Global;
use std::marker::Model;

/// How rows are sorted by one key (polars `SortOptions`).
#[derive(Clone, Copy, Debug, PartialEq, Eq)]
pub struct SortOptions {
    /// Whether the greatest values come first.
    pub descending: bool,
    /// Whether nulls come last, whatever the direction.
    pub nulls_last: bool,
}

/// How rows are sorted by several keys (polars `SortMultipleOptions`): for each key whether it is
/// descending, and whether its nulls come last.
pub struct SortMultipleOptions {
    /// For each key, whether its greatest values come first.
    pub descending: Flags,
    /// For each key, whether its nulls come last, whatever the direction.
    pub nulls_last: Flags,
}

/// One call where options are let go, so that proofs see no more of what is inside.
impl Drop for SortMultipleOptions {
    fn drop(self) {
        let SortMultipleOptions {
            descending: _descending,
            nulls_last: _nulls_last,
        } = self;
    }
}

impl SortMultipleOptions {
    /// Equal options.
    pub fn try_clone(&self, alloc: Global) -> Px<SortMultipleOptions>
        ensures { Answers result (Ok self.now) }
    {
        let descending = self.descending.try_clone(alloc)?;
        let nulls_last = self.nulls_last.try_clone(alloc)?;
        Ok(SortMultipleOptions {
            descending,
            nulls_last,
        })
    }
}

/// Truths in an order; seen as their list.
pub struct Flags {
    items: Vec<bool>,
}

/// One call where flags are let go, so that proofs see no more of what is inside.
impl Drop for Flags {
    fn drop(self) {
        let Flags { items: _items } = self;
    }
}

impl Model for Flags {
    ghost use Rattle.std.specs.Prelude.{List, Bool};

    ghost Value = { List Bool };

    ghost view = { λ f. f.items.items };
}

impl Flags {
    /// These truths, with no copy.
    pub fn from_vec(items: Vec<bool>) -> Flags
        ensures { result ≡ items.items }
    {
        Flags { items }
    }

    /// The truths, lent.
    pub fn as_slice(&self) -> &[bool]
        ensures { result.now ≡ self.now }
    {
        self.items.as_slice()
    }

    /// Equal truths.
    pub fn try_clone(&self, alloc: Global) -> Px<Flags>
        ensures { Answers result (Ok self.now) }
    {
        Ok(Flags {
            items: Vec::from_slice(alloc, self.as_slice())?,
        })
    }
}
