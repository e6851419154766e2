//! Rows grouped by equal keys, through a table of the keys seen so far (polars `group_by` with
//! `maintain_order`).
ghost use Rattle.std.specs.Prelude.{◌≡◌, ◌+◌, ◌<◌, ◌≤◌, ◌∷◌, [], Ok, IfOk, IfSome, OnOk, length, map, true, vec_len};
ghost use Rattle.std.specs.List.{IsDistinct, list_all, list_any};
ghost use Rattle.px_column.specs.Prelude.{Answers};
ghost use Rattle.px_column.specs.Series.{slot_at};
ghost use Rattle.px_frame.specs.Aggregate.{has_row};
ghost use Rattle.px_frame.specs.Enter.{entered, AreStarted};
ghost use Rattle.px_frame.specs.Groups.{groups_by, grouped, is_list};
ghost use Rattle.px_frame.specs.Parts.{with_key};

use crate::frame::all_have_height;
use crate::groups::{GroupPositions, IdxVec};
use indexmap::IndexSet;
use px_column::{Column, ComputeWhy, Integers, InvalidWhy, NumberKey, Px, PxError, RowKey, Steps};
use smallvec::SmallVec;
use std::alloc::Global;
use std::hash::Hash;
use std::sync::ledger::Ledger;

/// Puts the row into the group of its key, which is a new last one where the key is new.
fn enter<K: Eq + Hash + Drop>(
    alloc: Global,
    seen: &mut IndexSet<K>,
    groups: &mut Vec<(u32, IdxVec)>,
    key: K,
    row: u32,
) -> Px<()>
    requires { length seen.old.keys ≡ vec_len groups.old }
    ensures answer { Answers result (Ok tt) }
    ensures keys { OnOk result (seen.new.keys ≡ with_key K.eq seen.old.keys key) }
    ensures len { OnOk result (length seen.new.keys ≡ vec_len groups.new) }
    ensures distinct { OnOk result (IsDistinct K.eq seen.new.keys) }
    ensures groups { OnOk result (map (λ g. g.1.items) groups.new.items
        ≡ entered K.eq seen.old.keys (map (λ g. g.1.items) groups.old.items) key row) }
    ensures started { OnOk result (AreStarted groups.old.items → AreStarted groups.new.items) }
{
    let (place, is_new) = seen.insert_full(key)?;
    if is_new {
        let mut rows = SmallVec::new(alloc);
        rows.push(row)?;
        groups.push((row, rows))?;
        Ok(())
    } else {
        groups[place].1.push(row)?;
        Ok(())
    }
}

/// The key of a row in a column of integers.
fn number_key_at(integers: &Integers<'_>, row: u32) -> NumberKey
    requires { row < length integers.now }
    ensures { result ≡ slot_at integers.now row ∷ [] }
{
    NumberKey::new(integers.get(row))
}

/// The groups of the first `len` rows by the integers in a column, through a table of those seen so far.
fn group_integers(
    alloc: Global,
    len: u32,
    key: &Column,
    integers: &Integers<'_>,
) -> Px<GroupPositions>
    requires integers { integers.now ≡ key.now.slots }
    requires short { len ≤ length key.now.slots }
    ensures groups { Answers result (Ok (groups_by (key.now ∷ []) len)) }
    ensures rows { IfOk result (λ g. list_all has_row g.groups ≡ true) }
{
    let mut seen: IndexSet<NumberKey> = IndexSet::new(alloc);
    let mut groups: Vec<(u32, IdxVec)> = Vec::new(alloc);
    for row in 0..len {
        enter(
            alloc,
            &mut seen,
            &mut groups,
            number_key_at(integers, row),
            row,
        )?;
    }
    Ok(GroupPositions::from_rows(groups, len))
}

/// The groups of the rows by the keys in these columns, through a table of the keys seen so far.
fn group_keys(alloc: Global, height: u32, by: &[Column]) -> Px<GroupPositions>
    ensures groups { Answers result (Ok (groups_by by.now height)) }
    ensures rows { IfOk result (λ g. list_all has_row g.groups ≡ true) }
{
    let mut seen: IndexSet<RowKey<'_>> = IndexSet::new(alloc);
    let mut groups: Vec<(u32, IdxVec)> = Vec::new(alloc);
    for row in 0..height {
        enter(alloc, &mut seen, &mut groups, RowKey::new(by, row), row)?;
    }
    Ok(GroupPositions::from_rows(groups, height))
}

fn any_is_list(by: &[Column]) -> bool
    ensures { result ≡ list_any is_list by.now }
{
    for column in by {
        if column.dtype().is_list() {
            return true;
        }
    }
    false
}

/// The integers of these columns, where there is one column of so many, which stand in memory as such.
fn key_integers(height: u32, by: &[Column]) -> Option<(&Column, Integers<'_>)>
    ensures { IfSome result (λ k. (by.now ≡ k.0.now ∷ []) × (k.1 ≡ k.0.now.slots) × (length k.0.now.slots ≡ height)) }
{
    match by {
        [key] => if key.len() == height {
            Some((key, key.integers()?))
        } else {
            None
        },
        _ => None,
    }
}

/// The groups of the rows by the keys in these columns: by integers where there is one column of them.
fn group_rows(alloc: Global, height: u32, by: &[Column]) -> Px<GroupPositions>
    ensures groups { Answers result (Ok (groups_by by.now height)) }
    ensures rows { IfOk result (λ g. list_all has_row g.groups ≡ true) }
{
    match key_integers(height, by) {
        Some((key, integers)) => group_integers(alloc, height, key, &integers),
        None => group_keys(alloc, height, by),
    }
}

/// The rows grouped by equal keys, a null being the same as a null: the groups in order of first
/// appearance, each with its rows rising and its first row as `first`. `NoKey` without a key, then
/// `ListKey` where a key is a List, then `ShapeMismatch` where a key has another height.
pub fn group_by<L: Ledger>(
    alloc: Global,
    height: u32,
    by: &[Column],
    groupings: &mut Steps<L>,
) -> Px<GroupPositions>
    ensures answer { Answers result (grouped height by.now) }
    ensures rows { IfOk result (λ g. list_all has_row g.groups ≡ true) }
    ensures ticks { groupings.new ≡ groupings.old + 1 }
{
    groupings.tick();
    if by.is_empty() {
        return Err(PxError::ComputeError(ComputeWhy::NoKey));
    }
    if any_is_list(by) {
        return Err(PxError::InvalidOperation(InvalidWhy::ListKey));
    }
    if !all_have_height(by, height) {
        return Err(PxError::ShapeMismatch);
    }
    group_rows(alloc, height, by)
}
