//! What is read of a column by its rows.
ghost use Rattle.std.specs.Prelude.{◌≡◌, ℕ, ◌<◌, true};
ghost use Rattle.px_value.specs.Kind.{slot_fits};
ghost use Rattle.px_value.specs.LentView.{slot_of_ref};
ghost use Rattle.px_value.specs.Series.{slot_at};
ghost use Rattle.px_column.specs.Beside.{rows_to};
ghost use Rattle.px_column.specs.Column.{null_count};

use crate::column::Column;
use px_value::ValueRef;

impl Column {
    /// The number of nulls (polars `null_count`), by whole words of validity.
    pub fn null_count(&self) -> u32
        ensures { result ≡ null_count self.now.slots }
    {
        self.array.null_count()
    }

    /// What stands at a row, with nothing after the last.
    #[tactic(auto, using(crate::proofs::Taking::nothing_past))]
    pub(crate) fn get_or_null(&self, row: u32) -> Option<ValueRef<'_>>
        ensures value { slot_of_ref result ≡ slot_at self.now.slots row }
        ensures fits { slot_fits self.now.kind (slot_of_ref result) ≡ true }
    {
        if row < self.len() {
            self.get(row)
        } else {
            None
        }
    }

    /// The value at a row beside a longer column: a single row stands for each.
    pub(crate) fn row_beside(&self, row: u32) -> Option<ValueRef<'_>>
        ensures value { (n : ℕ) → row < n → slot_of_ref result ≡ slot_at (rows_to n self.now.slots) row }
        ensures fits { slot_fits self.now.kind (slot_of_ref result) ≡ true }
    {
        self.get_or_null(if self.len() == 1 { 0 } else { row })
    }
}
