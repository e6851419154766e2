//! The rows that a mask keeps.
ghost use Rattle.std.specs.Prelude.{◌≡◌, ◌+◌, ◌≤◌};
ghost use Rattle.px_column.specs.Prelude.{AnswersBy};
ghost use Rattle.px_frame.specs.CellView.{named_cell};
ghost use Rattle.px_nodes.specs.Named.{filter_named};

use crate::answer::into_cell;
use crate::beside::stands_at;
use px_column::{Px, PxError, Steps, is_boolean};
use px_frame::Cell;
use std::alloc::Global;
use std::sync::ledger::Ledger;

/// The rows whose mask is true, as a list; a unit mask stands for every row. `SchemaMismatch` where
/// the mask has no truths, then `ShapeMismatch` where it is a list of another length.
pub fn filter_cells<L: Ledger>(
    alloc: Global,
    input: Cell,
    by: Cell,
    kernels: &mut Steps<L>,
) -> Px<Cell>
    ensures answer { AnswersBy named_cell result (filter_named (named_cell input) (named_cell by)) }
    ensures most { kernels.new ≤ kernels.old + 1 }
    ensures rises { kernels.old ≤ kernels.new }
{
    let (column, mask) = (input.as_column(), by.as_column());
    if !is_boolean(mask.dtype()) {
        return Err(PxError::SchemaMismatch);
    }
    if !stands_at(column.len(), &by) {
        return Err(PxError::ShapeMismatch);
    }
    kernels.tick();
    into_cell(column.filter(alloc, mask), false)
}
