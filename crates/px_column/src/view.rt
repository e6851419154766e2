//! Some rows of a column, lent.
ghost use Rattle.std.specs.Prelude.{◌≡◌, ◌+◌, ◌<◌, ◌≤◌, length, drop, take};
ghost use Rattle.px_value.specs.LentView.{slot_of_ref};
ghost use Rattle.px_value.specs.Series.{slot_at};

use crate::column::Column;
use px_value::ValueRef;
use std::marker::Model;

/// Rows of a column that stand one after another, with no copy of them; seen as their places.
#[derive(Drop)]
pub struct ColumnView<'a> {
    column: &'a Column,
    first: u32,
    len: u32,
}

impl<'a> Model for ColumnView<'a> {
    ghost use Rattle.std.specs.Prelude.{List, ◌+◌, ◌<◌, ◌≤◌, ◌^◌, drop, length, take};
    ghost use Rattle.px_value.specs.Datum.{Slot};
    ghost use Rattle.px_value.specs.DatumCode.{coded_slots};

    ghost Value = { List Slot };

    ghost coded = { coded_slots };

    ghost view = { λ v. take v.len (drop v.first v.column.now.slots) };

    ghost invariant = { λ v. (v.first + v.len ≤ length v.column.now.slots) × (v.first + v.len < 2 ^ 32) };
}

impl Column {
    /// So many rows from an offset on, which are there; it takes no memory.
    pub fn view(&self, offset: u32, count: u32) -> ColumnView<'_>
        requires { offset + count ≤ length self.now.slots }
        ensures { result ≡ take count (drop offset self.now.slots) }
    {
        // There are fewer than 2^32 rows.
        let _ = self.rows();
        ColumnView {
            column: self,
            first: offset,
            len: count,
        }
    }
}

impl<'a> ColumnView<'a> {
    /// The number of rows.
    #[tactic(auto, using(crate::proofs::Placing::window_len))]
    pub fn len(&self) -> u32
        ensures { result ≡ length self.now }
    {
        self.len
    }

    /// The value at a row, `None` where it is a null.
    #[tactic(auto, using(crate::proofs::Placing::window_len, crate::proofs::Placing::window_slot))]
    pub fn get(&self, index: u32) -> Option<ValueRef<'a>>
        requires { index < length self.now }
        ensures { slot_of_ref result ≡ slot_at self.now index }
    {
        self.column.get(self.first + index)
    }
}
