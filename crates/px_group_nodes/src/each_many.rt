//! Nodes of a list of inputs, group by group.
ghost use Rattle.std.specs.Prelude.{◌≡◌, ◌+◌, ◌<◌, ◌≤◌, All, IfErr, IfOk, List, Ok, Result, Some, length, map, slice_get};
ghost use Rattle.px_column.specs.Prelude.{AnswersBy};
ghost use Rattle.px_value.specs.declared.error.PxError.{PxError as Refusal};
ghost use Rattle.px_value.specs.declared.error.PxError.TheVariants.{OutOfMemory};
ghost use Rattle.px_frame.specs.CellView.{named_cell};
ghost use Rattle.px_frame.specs.Spread.{NamedCell};
ghost use Rattle.px_lanes.specs.Made.{IsFault, named_cells};
ghost use Rattle.px_group_nodes.specs.Many.{AreAt, answers_of_many};

use px_column::{Px, Steps};
use px_context::AggregationContext;
use px_frame::Cell;
use px_lanes::each::copy_cell;
use std::alloc::Global;
use std::sync::ledger::Ledger;

/// A node of a list of inputs.
pub(crate) trait Many {
    ghost node: { Self → List NamedCell → Result NamedCell Refusal };

    /// What the node makes of some cells.
    fn make<L: Ledger>(&self, alloc: Global, inputs: Vec<Cell>, kernels: &mut Steps<L>) -> Px<Cell>
        ensures answer { AnswersBy named_cell result (node self.now (map named_cell inputs.items)) }
        ensures most { kernels.new ≤ kernels.old + 1 }
        ensures rises { kernels.old ≤ kernels.new };
}

/// A copy of the cell that a context has at a group.
fn cell_at(alloc: Global, input: &AggregationContext<'_>, group: u32) -> Px<Cell>
    requires { group < length input.now.groups.groups }
    ensures cell { IfOk result (λ c. slice_get (named_cells input.now) group ≡ Some (named_cell c)) }
    ensures memory { IfErr result (λ e. e ≡ OutOfMemory) }
{
    let name = input.get_values().name();
    copy_cell(alloc, name, &input.piece(group))
}

/// A copy of the cell that each input has at a group.
fn cells_at(alloc: Global, inputs: &[AggregationContext<'_>], group: u32) -> Px<Vec<Cell>>
    requires { All (λ c. group < length c.groups.groups) inputs.now }
    ensures cells { IfOk result (λ v. AreAt group (map named_cells inputs.now) (map named_cell v.items)) }
    ensures memory { IfErr result (λ e. e ≡ OutOfMemory) }
{
    let mut cells = Vec::with_capacity(alloc, inputs.len())?;
    for input in inputs {
        cells.push(cell_at(alloc, input, group)?)?;
    }
    Ok(cells)
}

/// What a node makes of the cells of some contexts of `count` groups, group by group.
pub(crate) fn each_many<N: Many, L: Ledger>(
    alloc: Global,
    node: &N,
    inputs: &[AggregationContext<'_>],
    count: u32,
    kernels: &mut Steps<L>,
) -> Px<Vec<Cell>>
    requires { All (λ c. length c.groups.groups ≡ count) inputs.now }
    ensures cells { IfOk result (λ v. answers_of_many (N.node node.now) count inputs.now ≡ map Ok (map named_cell v.items)) }
    ensures count { IfOk result (λ v. length v.items ≡ count) }
    ensures faults { IfErr result (λ e. IsFault e (answers_of_many (N.node node.now) count inputs.now)) }
    ensures most { kernels.new ≤ kernels.old + count }
    ensures rises { kernels.old ≤ kernels.new }
{
    let mut cells = Vec::with_capacity(alloc, count as usize)?;
    for group in 0..count {
        let row = cells_at(alloc, inputs, group)?;
        let made = node.make(alloc, row, kernels)?;
        cells.push(made)?;
    }
    Ok(cells)
}
