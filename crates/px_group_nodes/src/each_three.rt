//! Nodes of three inputs, group by group.
ghost use Rattle.std.specs.Prelude.{◌≡◌, ◌+◌, ◌<◌, ◌≤◌, Ok, Some, IfOk, IfErr, Result, length, map, slice_get};
ghost use Rattle.px_column.specs.Prelude.{AnswersBy};
ghost use Rattle.px_value.specs.declared.error.PxError.{PxError as Refusal};
ghost use Rattle.px_value.specs.declared.error.PxError.TheVariants.{OutOfMemory};
ghost use Rattle.px_frame.specs.CellView.{named_cell};
ghost use Rattle.px_frame.specs.Spread.{NamedCell};
ghost use Rattle.px_lanes.specs.Made.{IsFault, named_cells};
ghost use Rattle.px_group_nodes.specs.Three.{answers_of_three};

use px_column::{Px, Steps};
use px_context::AggregationContext;
use px_frame::Cell;
use px_lanes::each::copy_cell;
use std::alloc::Global;
use std::sync::ledger::Ledger;

/// A node of three inputs.
pub(crate) trait Three {
    ghost node: { Self → NamedCell → NamedCell → NamedCell → Result NamedCell Refusal };

    /// What the node makes of three cells.
    fn make<L: Ledger>(
        &self,
        alloc: Global,
        first: Cell,
        second: Cell,
        third: Cell,
        kernels: &mut Steps<L>,
    ) -> Px<Cell>
        ensures answer { AnswersBy named_cell result (node self.now (named_cell first) (named_cell second) (named_cell third)) }
        ensures most { kernels.new ≤ kernels.old + 1 }
        ensures rises { kernels.old ≤ kernels.new };
}

/// A copy of the cell of a group, under the name of its context.
fn copy_cell_at(alloc: Global, context: &AggregationContext<'_>, group: u32) -> Px<Cell>
    requires { group < length context.now.groups.groups }
    ensures cell { IfOk result (λ c. slice_get (named_cells context.now) group ≡ Some (named_cell c)) }
    ensures refused { IfErr result (λ e. e ≡ OutOfMemory) }
{
    copy_cell(alloc, context.get_values().name(), &context.piece(group))
}

/// What a node makes of the cells of three contexts, group by group.
pub(crate) fn each_three<N: Three, L: Ledger>(
    alloc: Global,
    node: &N,
    first: &AggregationContext<'_>,
    second: &AggregationContext<'_>,
    third: &AggregationContext<'_>,
    kernels: &mut Steps<L>,
) -> Px<Vec<Cell>>
    requires second { length first.now.groups.groups ≡ length second.now.groups.groups }
    requires third { length first.now.groups.groups ≡ length third.now.groups.groups }
    ensures cells { IfOk result (λ v. answers_of_three (N.node node.now) (named_cells first.now) (named_cells second.now) (named_cells third.now) ≡ map Ok (map named_cell v.items)) }
    ensures count { IfOk result (λ v. length v.items ≡ length first.now.groups.groups) }
    ensures faults { IfErr result (λ e. IsFault e (answers_of_three (N.node node.now) (named_cells first.now) (named_cells second.now) (named_cells third.now))) }
    ensures most { kernels.new ≤ kernels.old + length first.now.groups.groups }
    ensures rises { kernels.old ≤ kernels.new }
{
    let _ = first.is_untouched();
    let count = first.kept_groups().len();
    let mut cells = Vec::with_capacity(alloc, count as usize)?;
    for group in 0..count {
        let a = copy_cell_at(alloc, first, group)?;
        let b = copy_cell_at(alloc, second, group)?;
        let c = copy_cell_at(alloc, third, group)?;
        let made = node.make(alloc, a, b, c, kernels)?;
        cells.push(made)?;
    }
    Ok(cells)
}
