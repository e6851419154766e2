//! The rows of a column that are kept: by a mask, or where there is a value.
ghost use Rattle.std.specs.Prelude.{◌≡◌, Ok, length, replicate};
ghost use Rattle.px_value.specs.Answer.{Answers};
ghost use Rattle.px_value.specs.LentView.{slot_of_ref};
ghost use Rattle.px_column.specs.Rows.{kept_column, is_true, kept_rows, with_rows, without_nulls};

use crate::column::Column;
use px_operation::is_boolean;
use px_value::{Px, PxError, ValueRef};
use std::alloc::Global;

/// Whether a place holds true; a null does not.
fn is_true(slot: Option<ValueRef<'_>>) -> bool
    ensures { result ≡ is_true (slot_of_ref slot.entry) }
{
    match slot {
        Some(ValueRef::Boolean(b)) => b,
        _ => false,
    }
}

impl Column {
    /// The rows whose mask is true, where there are as many of both.
    fn keep_beside(&self, alloc: Global, mask: &Column) -> Px<Column>
        requires { length mask.now.slots ≡ length self.now.slots }
        ensures { Answers result (Ok (with_rows self.now (kept_rows mask.now.slots self.now.slots))) }
    {
        let mut rows = self.builder(alloc, 0)?;
        for (keep, row) in mask.rows().zip(self.rows()) {
            if is_true(keep) {
                rows.push_ref(row)?;
            }
        }
        rows.finish()
    }

    /// All rows where this holds true, and else none.
    #[tactic(auto, using(crate::proofs::Keeping::kept_all, crate::proofs::Keeping::kept_nothing))]
    fn keep_by_one(&self, alloc: Global, keep: Option<ValueRef<'_>>) -> Px<Column>
        ensures { Answers result (Ok (with_rows self.now (kept_rows (replicate (length self.now.slots) (slot_of_ref keep.entry)) self.now.slots))) }
    {
        if is_true(keep) {
            self.try_clone(alloc)
        } else {
            self.builder(alloc, 0)?.finish()
        }
    }

    /// The rows whose mask is true; a null in the mask keeps no row, and a mask of one row stands for
    /// every row (polars `filter`). `SchemaMismatch` where the mask has no truths, then
    /// `ShapeMismatch` where it has another length.
    #[tactic(auto, using(crate::proofs::Keeping::kept_column_beside, crate::proofs::Keeping::kept_column_by_one))]
    pub fn filter(&self, alloc: Global, mask: &Column) -> Px<Column>
        ensures { Answers result (kept_column self.now mask.now) }
    {
        if !is_boolean(mask.dtype()) {
            return Err(PxError::SchemaMismatch);
        }
        if mask.len() == self.len() {
            self.keep_beside(alloc, mask)
        } else if mask.len() == 1 {
            self.keep_by_one(alloc, mask.get(0))
        } else {
            Err(PxError::ShapeMismatch)
        }
    }

    /// The rows that hold a value (polars `drop_nulls`).
    pub fn drop_nulls(&self, alloc: Global) -> Px<Column>
        ensures { Answers result (Ok (without_nulls self.now)) }
    {
        let mut rows = self.builder(alloc, self.len() - self.null_count())?;
        for row in self.rows() {
            if row.is_some() {
                rows.push_ref(row)?;
            }
        }
        rows.finish()
    }
}
