//! Rows of one column or another, as a mask says.
ghost use Rattle.std.specs.Prelude.{◌≡◌, ◌+◌, Ok, length};
ghost use Rattle.px_value.specs.Answer.{Answers};
ghost use Rattle.px_value.specs.LentView.{slot_of_ref};
ghost use Rattle.px_column.specs.Beside.{rows_to, zipped_three};
ghost use Rattle.px_column.specs.Chosen.{chosen, chosen_column};
ghost use Rattle.px_column.specs.Rows.{with_rows};

use crate::column::Column;
use crate::row_by_row::len_of_three;
use px_operation::{is_boolean, same_type};
use px_value::{InvalidWhy, Px, PxError, Steps, ValueRef};
use std::alloc::Global;
use std::sync::ledger::Ledger;

/// The first where the mask is true, else the second.
fn choose<'a>(
    mask: Option<ValueRef<'_>>,
    first: Option<ValueRef<'a>>,
    second: Option<ValueRef<'a>>,
) -> Option<ValueRef<'a>>
    ensures { slot_of_ref result ≡ chosen (slot_of_ref mask.entry) (slot_of_ref first.entry) (slot_of_ref second.entry) }
{
    match mask {
        Some(ValueRef::Boolean(true)) => first,
        _ => second,
    }
}

impl Column {
    /// Row by row a value of this column or of another one of its type, at a common length.
    fn chosen_rows(&self, alloc: Global, mask: &Column, other: &Column, len: u32) -> Px<Column>
        requires kind { self.now.kind ≡ other.now.kind }
        requires mask_len { length (rows_to len mask.now.slots) ≡ len }
        requires self_len { length (rows_to len self.now.slots) ≡ len }
        requires other_len { length (rows_to len other.now.slots) ≡ len }
        ensures { Answers result (Ok (with_rows self.now (zipped_three chosen (rows_to len mask.now.slots) (rows_to len self.now.slots) (rows_to len other.now.slots)))) }
    {
        let mut rows = self.builder(alloc, len)?;
        for row in 0..len {
            let keep = mask.row_beside(row);
            let (x, y) = (self.row_beside(row), other.row_beside(row));
            rows.push_ref(choose(keep, x, y))?;
        }
        rows.finish()
    }

    /// Row by row the value of one column or the other.
    fn chosen_column(&self, alloc: Global, mask: &Column, other: &Column) -> Px<Column>
        ensures { Answers result (chosen_column mask.now self.now other.now) }
    {
        if !is_boolean(mask.dtype()) {
            return Err(PxError::SchemaMismatch);
        }
        if !same_type(self.dtype(), other.dtype()) {
            return Err(PxError::InvalidOperation(InvalidWhy::Types));
        }
        let len = len_of_three(mask, self, other)?;
        self.chosen_rows(alloc, mask, other, len)
    }

    /// Row by row the value of this column where the mask is true, else the other column's (polars
    /// `zip_with`); a column of a single row is repeated to the others' length. One step of the
    /// counter, whatever is answered. `SchemaMismatch` where the mask has no truths, `Types` where
    /// the types differ, then `ShapeMismatch` where the lengths do not agree.
    pub fn zip_with<L: Ledger>(
        &self,
        alloc: Global,
        mask: &Column,
        other: &Column,
        kernels: &mut Steps<L>,
    ) -> Px<Column>
        ensures answer { Answers result (chosen_column mask.now self.now other.now) }
        ensures ticks { kernels.new ≡ kernels.old + 1 }
    {
        kernels.tick();
        self.chosen_column(alloc, mask, other)
    }
}
