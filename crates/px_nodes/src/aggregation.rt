//! Reductions.
ghost use Rattle.std.specs.Prelude.{◌≡◌, ◌+◌, ◌≤◌, OnOk, not};
ghost use Rattle.px_column.specs.Prelude.{AnswersBy};
ghost use Rattle.px_frame.specs.CellView.{named_cell};
ghost use Rattle.px_tree.specs.Shape.{is_implode};
ghost use Rattle.px_nodes.specs.Named.{aggregation_named};

use crate::answer::into_cell;
use px_column::{GroupByMethod, Px, Steps};
use px_frame::Cell;
use std::alloc::Global;
use std::sync::ledger::Ledger;

/// Whether a reduction gives a unit: all do but an Implode.
fn is_unit(method: GroupByMethod) -> bool
    ensures { result ≡ not (is_implode method) }
{
    !matches!(method, GroupByMethod::Implode)
}

/// The reduction of all values: a unit, or for an Implode one row. `ListKey` where lists would be
/// compared, `Types` where the values cannot be summed. One step of the counter where there is an
/// answer.
pub fn aggregation_cells<L: Ledger>(
    alloc: Global,
    input: Cell,
    method: GroupByMethod,
    kernels: &mut Steps<L>,
) -> Px<Cell>
    ensures answer { AnswersBy named_cell result (aggregation_named method (named_cell input)) }
    ensures most { kernels.new ≤ kernels.old + 1 }
    ensures rises { kernels.old ≤ kernels.new }
    ensures ticks { OnOk result (kernels.new ≡ kernels.old + 1) }
{
    into_cell(
        input.as_column().reduce(alloc, method, kernels),
        is_unit(method),
    )
}
