//! The rows that indices name.
ghost use Rattle.std.specs.Prelude.{◌≡◌, ◌+◌, ◌≤◌, true};
ghost use Rattle.px_column.specs.Operator.{is_integer_kind};
ghost use Rattle.px_column.specs.Prelude.{Answers, AnswersBy};
ghost use Rattle.px_frame.specs.CellView.{named_cell};
ghost use Rattle.px_tree.specs.Node.{is_null_unit};
ghost use Rattle.px_nodes.specs.Named.{gather_named, gathered_column};

use crate::answer::into_cell;
use px_column::{Column, ComputeWhy, InvalidWhy, Px, PxError, Steps, is_integer};
use px_frame::{Cell, convert_to_unsigned_index};
use std::alloc::Global;
use std::sync::ledger::Ledger;

/// Whether it is a unit that is a null.
fn is_null_unit(cell: &Cell) -> bool
    ensures { result ≡ is_null_unit (named_cell cell.now).cell }
{
    match cell {
        Cell::Unit(unit) => unit.as_column().get(0).is_none(),
        Cell::Rows(_) => false,
    }
}

/// The rows that integers name, a null for a null; `OutOfBounds` where one of them names none.
fn rows_named(alloc: Global, column: &Column, index: &Column) -> Px<Column>
    requires { is_integer_kind index.now.kind ≡ true }
    ensures { Answers result (gathered_column column.now index.now) }
{
    // Each index fits the type.
    let _ = index.rows();
    let places = convert_to_unsigned_index(alloc, index, column.len())?;
    column.take(alloc, &places)
}

/// The rows that indices name, in their order, a null for a null: a unit where one row is asked for,
/// else a list. Indices count from the end where they are negative. `Types` where they are not
/// integers, then `SingleIndex` where one row is asked for by a list, `NullIndex` where one null that
/// is made of literals is the index, and `OutOfBounds` where an index names no row.
pub fn gather_cells<L: Ledger>(
    alloc: Global,
    input: Cell,
    idx: Cell,
    returns_scalar: bool,
    idx_is_lit: bool,
    kernels: &mut Steps<L>,
) -> Px<Cell>
    ensures answer { AnswersBy named_cell result (gather_named returns_scalar idx_is_lit (named_cell input) (named_cell idx)) }
    ensures most { kernels.new ≤ kernels.old + 1 }
    ensures rises { kernels.old ≤ kernels.new }
{
    let index = idx.as_column();
    if !is_integer(index.dtype()) {
        return Err(PxError::InvalidOperation(InvalidWhy::Types));
    }
    if returns_scalar && !idx.is_unit() {
        return Err(PxError::ComputeError(ComputeWhy::SingleIndex));
    }
    if idx_is_lit && is_null_unit(&idx) {
        return Err(PxError::ComputeError(ComputeWhy::NullIndex));
    }
    kernels.tick();
    into_cell(rows_named(alloc, input.as_column(), index), returns_scalar)
}
