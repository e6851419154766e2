//! One cell's values or another's, as a predicate says.
ghost use Rattle.std.specs.Prelude.{◌≡◌, ◌+◌, ◌≤◌, OnOk};
ghost use Rattle.px_column.specs.Prelude.{AnswersBy};
ghost use Rattle.px_frame.specs.CellView.{named_cell};
ghost use Rattle.px_nodes.specs.Named.{ternary_named};

use crate::answer::into_cell;
use crate::beside::{are_three_beside, are_three_units};
use px_column::{InvalidWhy, Px, PxError, Steps, is_boolean, same_type};
use px_frame::Cell;
use std::alloc::Global;
use std::sync::ledger::Ledger;

/// Row by row the first branch's value where the predicate is true, else the second one's, under the
/// first branch's name; a unit stands beside each row of a list. `SchemaMismatch` where the predicate
/// has no truths, `Types` where the branches' types differ, then `ShapeMismatch` where two lists
/// differ in length. One step of the counter where there is an answer.
pub fn ternary_cells<L: Ledger>(
    alloc: Global,
    predicate: Cell,
    truthy: Cell,
    falsy: Cell,
    kernels: &mut Steps<L>,
) -> Px<Cell>
    ensures answer { AnswersBy named_cell result (ternary_named (named_cell predicate) (named_cell truthy) (named_cell falsy)) }
    ensures most { kernels.new ≤ kernels.old + 1 }
    ensures rises { kernels.old ≤ kernels.new }
    ensures ticks { OnOk result (kernels.new ≡ kernels.old + 1) }
{
    let is_unit = are_three_units(&predicate, &truthy, &falsy);
    let (mask, x, y) = (predicate.as_column(), truthy.as_column(), falsy.as_column());
    if !is_boolean(mask.dtype()) {
        return Err(PxError::SchemaMismatch);
    }
    if !same_type(x.dtype(), y.dtype()) {
        return Err(PxError::InvalidOperation(InvalidWhy::Types));
    }
    if !are_three_beside(&predicate, &truthy, &falsy) {
        return Err(PxError::ShapeMismatch);
    }
    into_cell(x.zip_with(alloc, mask, y, kernels), is_unit)
}
