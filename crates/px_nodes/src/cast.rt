//! Casts.
ghost use Rattle.std.specs.Prelude.{◌≡◌, ◌+◌, ◌≤◌, OnOk};
ghost use Rattle.px_column.specs.Prelude.{AnswersBy, kind_of};
ghost use Rattle.px_frame.specs.CellView.{named_cell};
ghost use Rattle.px_nodes.specs.Named.{cast_named};

use crate::answer::into_cell;
use px_column::{CastOptions, DataType, Px, Steps};
use px_frame::Cell;
use std::alloc::Global;
use std::sync::ledger::Ledger;

/// The values in another type; a unit stays one. `Types` where there is no such cast, then `CastLost`
/// where a strict one loses a value. One step of the counter where there is an answer.
pub fn cast_cells<L: Ledger>(
    alloc: Global,
    input: Cell,
    dtype: &DataType,
    options: CastOptions,
    kernels: &mut Steps<L>,
) -> Px<Cell>
    ensures answer { AnswersBy named_cell result (cast_named (kind_of dtype.now) options (named_cell input)) }
    ensures most { kernels.new ≤ kernels.old + 1 }
    ensures rises { kernels.old ≤ kernels.new }
    ensures ticks { OnOk result (kernels.new ≡ kernels.old + 1) }
{
    let column = input.as_column();
    into_cell(
        column.cast_with_options(alloc, dtype, options, kernels),
        input.is_unit(),
    )
}
