//! A row of some columns, as the key of a table: equal where the columns hold the same.
ghost use Rattle.std.specs.Prelude.{◌≡◌, fold};
ghost use Rattle.px_value.specs.Equality.{row_eq};
ghost use Rattle.px_value.specs.Hashing.{row_hash};
ghost use Rattle.px_column.specs.Key.{key_at};

use crate::column::Column;
use px_value::{hash_slot, same_slot};
use std::hash::{Hash, Hasher};
use std::marker::Model;

/// A row of some columns, with no copy of it; seen as what the columns hold there.
#[derive(Drop)]
pub struct RowKey<'a> {
    by: &'a [Column],
    row: u32,
}

impl<'a> Model for RowKey<'a> {
    ghost use Rattle.std.specs.Prelude.{List};
    ghost use Rattle.px_value.specs.Datum.{Slot};
    ghost use Rattle.px_value.specs.DatumCode.{coded_slots};

    ghost Value = { List Slot };

    ghost coded = { coded_slots };

    ghost use Rattle.px_column.specs.Key.{key_at};

    ghost view = { λ k. key_at k.by.now k.row };
}

impl<'a> RowKey<'a> {
    /// The key of a row, where a column that has no such row holds a null.
    pub fn new(by: &'a [Column], row: u32) -> RowKey<'a>
        ensures { result ≡ key_at by.now row }
    {
        RowKey { by, row }
    }
}

fn same_rows(a: &[Column], a_row: u32, b: &[Column], b_row: u32) -> bool
    ensures { result ≡ row_eq (key_at a.now a_row) (key_at b.now b_row) }
{
    if a.len() != b.len() {
        return false;
    }
    let mut i = 0;
    while i < a.len() {
        if !same_slot(a[i].get_or_null(a_row), b[i].get_or_null(b_row)) {
            return false;
        }
        i += 1;
    }
    true
}

fn hash_row<H: Hasher>(by: &[Column], row: u32, state: &mut H)
    ensures { state.new ≡ fold H.write state.old (row_hash (key_at by.now row)) }
{
    let mut i = 0;
    while i < by.len() {
        hash_slot(by[i].get_or_null(row), state);
        i += 1;
    }
    state.write_u8(0);
}

impl PartialEq for RowKey<'_> {
    ghost use Rattle.std.specs.Cmp as laws;
    ghost use Rattle.px_value.specs.Equality.{row_eq};
    ghost use Rattle.px_value.specs.Decided.{IsEquivalence-decides, row_decides};

    ghost eq = { row_eq };

    ghost laws = { laws.partial_equiv_from_equiv (IsEquivalence-decides row_decides) };

    fn eq(&self, other: &RowKey<'_>) -> bool {
        same_rows(self.by, self.row, other.by, other.row)
    }
}

impl Eq for RowKey<'_> {
    ghost use Rattle.px_value.specs.Decided.{IsEquivalence-decides, row_decides};

    ghost laws = { IsEquivalence-decides row_decides };
}

impl Hash for RowKey<'_> {
    ghost use Rattle.std.specs.Hash as fed;
    ghost use Rattle.px_value.specs.Hashing.{row_hash};
    ghost use Rattle.px_value.specs.Decided.{row_decides};

    ghost hash_input = { row_hash };

    ghost respects_eq = { (fed.same_Alike row_hash row_decides).fed };

    fn hash<H: Hasher>(&self, state: &mut H) {
        hash_row(self.by, self.row, state);
    }
}
