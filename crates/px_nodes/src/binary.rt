//! An operator on two cells.
ghost use Rattle.std.specs.Prelude.{◌≡◌, ◌+◌, ◌≤◌, OnOk};
ghost use Rattle.px_column.specs.Prelude.{AnswersBy};
ghost use Rattle.px_frame.specs.CellView.{named_cell};
ghost use Rattle.px_nodes.specs.Named.{binary_named};

use crate::answer::{into_cell, length_refusal};
use crate::beside::{are_two_beside, are_two_units};
use px_column::{Column, Operator, Px, Steps, operator_type};
use px_frame::Cell;
use std::alloc::Global;
use std::sync::ledger::Ledger;

/// What an operator makes of two cells row by row, under the left one's name; a unit stands beside
/// each row of a list. `ListKey` where a comparison has a list, `Types` where the types differ or the
/// operator does not take them, then `ShapeMismatch` where two lists differ in length. One step of
/// the counter where there is an answer.
pub fn binary_cells<L: Ledger>(
    alloc: Global,
    left: Cell,
    right: Cell,
    op: Operator,
    kernels: &mut Steps<L>,
) -> Px<Cell>
    ensures answer { AnswersBy named_cell result (binary_named op (named_cell left) (named_cell right)) }
    ensures most { kernels.new ≤ kernels.old + 1 }
    ensures rises { kernels.old ≤ kernels.new }
    ensures ticks { OnOk result (kernels.new ≡ kernels.old + 1) }
{
    let is_unit = are_two_units(&left, &right);
    let (x, y) = (left.as_column(), right.as_column());
    if are_two_beside(&left, &right) {
        into_cell(Column::apply_operator(alloc, x, y, op, kernels), is_unit)
    } else {
        let dtype = x.dtype().try_clone(alloc)?;
        Err(length_refusal(operator_type(op, dtype, y.dtype())))
    }
}
