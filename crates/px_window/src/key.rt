//! What the groups of windows are kept under.
ghost use Rattle.std.specs.Prelude.{◌≡◌, Ok, option_map};
ghost use Rattle.px_column.specs.Prelude.{Answers, AnswersBy};

use crate::same::{hash_columns, hash_order, same_columns, same_order};
use px_column::{Column, Px, SortOptions};
use std::alloc::Global;
use std::hash::{Hash, Hasher};
use std::marker::Model;

/// What windows of the same groups have in common (polars `CacheKey`): the branch of a plan, the columns
/// that rows are grouped by, and the column that puts the rows of each group in order, with its options.
/// Seen as these.
pub struct CacheKey {
    branch: u64,
    keys: Vec<Column>,
    order: Option<(Column, SortOptions)>,
}

/// One call where a key is let go, so that proofs see no more of what is inside.
impl Drop for CacheKey {
    fn drop(self) {
        let CacheKey {
            branch: _,
            keys: _keys,
            order: _order,
        } = self;
    }
}

impl Model for CacheKey {
    ghost use Rattle.px_window.specs.Key.{Key, coded_key};

    ghost Value = { Key };

    ghost coded = { coded_key };

    ghost view = { λ k. record { branch = k.branch; keys = k.keys.items; order = k.order } };
}

impl CacheKey {
    /// The key of a branch, columns to group by, and an order.
    pub fn new(branch: u64, keys: Vec<Column>, order: Option<(Column, SortOptions)>) -> CacheKey
        ensures { result ≡ record { branch = branch; keys = keys.items; order = order } }
    {
        CacheKey {
            branch,
            keys,
            order,
        }
    }

    /// The number of the branch of a plan.
    pub fn branch(&self) -> u64
        ensures { result ≡ self.now.branch }
    {
        self.branch
    }

    /// The columns that rows are grouped by.
    pub fn keys(&self) -> &[Column]
        ensures { result.now ≡ self.now.keys }
    {
        &self.keys
    }

    /// The column that puts the rows of each group in order, and how, where there is one.
    pub fn order(&self) -> Option<(&Column, &SortOptions)>
        ensures { option_map (λ o. (o.0.now, o.1.now)) result ≡ self.now.order }
    {
        match &self.order {
            None => None,
            Some((column, options)) => Some((column, options)),
        }
    }

    /// An equal key, whose columns share their values.
    pub fn try_clone(&self, alloc: Global) -> Px<CacheKey>
        ensures { Answers result (Ok self.now) }
    {
        let keys = copy_columns(alloc, &self.keys)?;
        let order = copy_order(alloc, &self.order)?;
        Ok(CacheKey {
            branch: self.branch,
            keys,
            order,
        })
    }
}

fn copy_columns(alloc: Global, columns: &[Column]) -> Px<Vec<Column>>
    ensures { AnswersBy (λ v. v.items) result (Ok columns.now) }
{
    let mut copies = Vec::with_capacity(alloc, columns.len())?;
    for column in columns {
        copies.push(column.try_clone(alloc)?)?;
    }
    Ok(copies)
}

fn copy_order(
    alloc: Global,
    order: &Option<(Column, SortOptions)>,
) -> Px<Option<(Column, SortOptions)>>
    ensures { Answers result (Ok order.now) }
{
    match order {
        None => Ok(None),
        Some((column, options)) => Ok(Some((column.try_clone(alloc)?, *options))),
    }
}

impl PartialEq for CacheKey {
    ghost use Rattle.std.specs.Cmp as laws;
    ghost use Rattle.px_value.specs.Decided.{IsEquivalence-decides};
    ghost use Rattle.px_window.specs.Key.{key_eq};
    ghost use Rattle.px_window.specs.KeyDecided.{key_decides};

    ghost eq = { key_eq };

    ghost laws = { laws.partial_equiv_from_equiv (IsEquivalence-decides key_decides) };

    fn eq(&self, other: &CacheKey) -> bool {
        self.branch == other.branch
            && same_order(&self.order, &other.order)
            && same_columns(&self.keys, &other.keys)
    }
}

impl Eq for CacheKey {
    ghost use Rattle.px_value.specs.Decided.{IsEquivalence-decides};
    ghost use Rattle.px_window.specs.KeyDecided.{key_decides};

    ghost laws = { IsEquivalence-decides key_decides };
}

impl Hash for CacheKey {
    ghost use Rattle.std.specs.Hash as fed;
    ghost use Rattle.px_window.specs.Key.{key_hash};
    ghost use Rattle.px_window.specs.KeyDecided.{key_decides};

    ghost hash_input = { key_hash };

    ghost respects_eq = { (fed.same_Alike key_hash key_decides).fed };

    fn hash<H: Hasher>(&self, state: &mut H) {
        self.branch.hash(state);
        hash_order(&self.order, state);
        hash_columns(&self.keys, state);
    }
}
