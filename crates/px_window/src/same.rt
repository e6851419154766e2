//! Whether columns are the same, and what a hash is fed of them: equal columns feed the same.
ghost use Rattle.std.specs.Prelude.{◌≡◌, fold, option_map};
ghost use Rattle.px_value.specs.Datum.{integer};
ghost use Rattle.px_value.specs.Equality.{row_eq};
ghost use Rattle.px_value.specs.LentView.{slot_of_ref};
ghost use Rattle.px_window.specs.Key.{all_series_eq, all_series_hash, order_eq, order_hash, series_eq, series_hash};
ghost use Rattle.px_window.specs.Key.{place_hash, places_hash};

use px_column::{Column, Integers, SortOptions, ValueRef, same_type};
use px_value::{hash_slot, same_slot};
use std::hash::{Hash, Hasher};

#[tactic(auto, using(crate::proofs::SlotBySlot::same_next, crate::proofs::SlotBySlot::differ_here))]
fn same_rows(a: &Column, b: &Column) -> bool
    ensures { result ≡ row_eq a.now.slots b.now.slots }
{
    if a.len() != b.len() {
        return false;
    }
    let mut i = 0;
    while i < a.len() {
        if !same_slot(a.get(i), b.get(i)) {
            return false;
        }
        i += 1;
    }
    true
}

fn same_column(a: &Column, b: &Column) -> bool
    ensures { result ≡ series_eq a.now b.now }
{
    a.name() == b.name() && same_type(a.dtype(), b.dtype()) && same_rows(a, b)
}

/// Whether some columns are the same, one by one.
pub(crate) fn same_columns(a: &[Column], b: &[Column]) -> bool
    ensures { result ≡ all_series_eq a.now b.now }
{
    if a.len() != b.len() {
        return false;
    }
    let mut i = 0;
    while i < a.len() {
        if !same_column(&a[i], &b[i]) {
            return false;
        }
        i += 1;
    }
    true
}

/// Whether two orders are the same.
pub(crate) fn same_order(
    a: &Option<(Column, SortOptions)>,
    b: &Option<(Column, SortOptions)>,
) -> bool
    ensures { result ≡ order_eq a.now b.now }
{
    match (a, b) {
        (None, None) => true,
        (Some((x, i)), Some((y, j))) => *i == *j && same_column(x, y),
        _ => false,
    }
}

/// Feeds an integer, or a mark where it is missing.
fn hash_integer<H: Hasher>(number: Option<i128>, state: &mut H)
    ensures { state.new ≡ fold H.write state.old (place_hash (option_map integer number)) }
{
    match number {
        None => state.write_u8(1),
        Some(number) => number.hash(state),
    }
}

/// Feeds what a place holds: an integer alone, and anything else with marks of its kind.
fn hash_place<H: Hasher>(slot: Option<ValueRef<'_>>, state: &mut H)
    ensures { state.new ≡ fold H.write state.old (place_hash (slot_of_ref slot.entry)) }
{
    match slot {
        Some(ValueRef::Int(number)) => number.hash(state),
        other => hash_slot(other, state),
    }
}

/// Feeds integers as they stand in memory.
fn hash_integers<H: Hasher>(integers: &Integers<'_>, state: &mut H)
    ensures { state.new ≡ fold H.write state.old (places_hash integers.now) }
{
    let mut i = 0;
    while i < integers.len() {
        hash_integer(integers.get(i), state);
        i += 1;
    }
    state.write_u8(0);
}

/// Feeds the values of a column one by one.
fn hash_values<H: Hasher>(column: &Column, state: &mut H)
    ensures { state.new ≡ fold H.write state.old (places_hash column.now.slots) }
{
    let mut i = 0;
    while i < column.len() {
        hash_place(column.get(i), state);
        i += 1;
    }
    state.write_u8(0);
}

/// Feeds each place of a column once; integers alike, whether they stand in memory as such or not.
fn hash_rows<H: Hasher>(column: &Column, state: &mut H)
    ensures { state.new ≡ fold H.write state.old (places_hash column.now.slots) }
{
    match column.integers() {
        Some(integers) => hash_integers(&integers, state),
        None => hash_values(column, state),
    }
}

fn hash_column<H: Hasher>(column: &Column, state: &mut H)
    ensures { state.new ≡ fold H.write state.old (series_hash column.now) }
{
    column.name().hash(state);
    hash_rows(column, state);
}

/// Feeds each of some columns once.
pub(crate) fn hash_columns<H: Hasher>(columns: &[Column], state: &mut H)
    ensures { state.new ≡ fold H.write state.old (all_series_hash columns.now) }
{
    let mut i = 0;
    while i < columns.len() {
        hash_column(&columns[i], state);
        i += 1;
    }
    state.write_u8(0);
}

/// Feeds the column of an order, where there is one.
pub(crate) fn hash_order<H: Hasher>(order: &Option<(Column, SortOptions)>, state: &mut H)
    ensures { state.new ≡ fold H.write state.old (order_hash order.now) }
{
    match order {
        None => state.write_u8(0),
        Some((column, _)) => {
            state.write_u8(1);
            hash_column(column, state);
        }
    }
}
