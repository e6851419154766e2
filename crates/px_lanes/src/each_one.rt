//! Nodes of one input, group by group.
ghost use Rattle.std.specs.Prelude.{◌≡◌, ◌+◌, ◌≤◌, List, Ok, IfOk, IfErr, Result, false, length, map};
ghost use Rattle.px_column.specs.Prelude.{AnswersBy, kind_of};
ghost use Rattle.px_value.specs.declared.error.PxError.{PxError as Refusal};
ghost use Rattle.px_frame.specs.CellView.{named_cell};
ghost use Rattle.px_frame.specs.Spread.{NamedCell};
ghost use Rattle.px_lanes.specs.Alike.{AreLike};
ghost use Rattle.px_lanes.specs.Made.{IsFault, IsMade, IsRefusal, counts_in, named_cells};
ghost use Rattle.px_lanes.specs.One.{answers_of_one};

use crate::each::copy_cell;
use crate::laying::from_cells;
use px_column::{DataType, Px, Steps};
use px_context::AggregationContext;
use px_frame::Cell;
use std::alloc::Global;
use std::sync::ledger::Ledger;

/// A node of one input.
pub trait One {
    ghost node: { Self → NamedCell → Result NamedCell Refusal };

    /// What the node makes of a cell, or why it refuses it.
    fn make<L: Ledger>(&self, alloc: Global, input: Cell, kernels: &mut Steps<L>) -> Px<Cell>
        ensures answer { AnswersBy named_cell result (node self.now (named_cell input)) }
        ensures most { kernels.new ≤ kernels.old + 1 }
        ensures rises { kernels.old ≤ kernels.new };
}

/// What a node makes of the cells of a context, group by group.
fn each_one<N: One, L: Ledger>(
    alloc: Global,
    node: &N,
    input: &AggregationContext<'_>,
    kernels: &mut Steps<L>,
) -> Px<Vec<Cell>>
    ensures cells { IfOk result (λ v. answers_of_one (N.node node.now) (named_cells input.now) ≡ map Ok (map named_cell v.items)) }
    ensures count { IfOk result (λ v. length v.items ≡ length input.now.groups.groups) }
    ensures faults { IfErr result (λ e. IsFault e (answers_of_one (N.node node.now) (named_cells input.now))) }
    ensures most { kernels.new ≤ kernels.old + length input.now.groups.groups }
    ensures rises { kernels.old ≤ kernels.new }
{
    let name = input.get_values().name();
    let mut cells = Vec::with_capacity(alloc, input.kept_groups().len() as usize)?;
    for piece in input.pieces() {
        let cell = copy_cell(alloc, name, &piece)?;
        let made = node.make(alloc, cell, kernels)?;
        cells.push(made)?;
    }
    Ok(cells)
}

/// The context of what a node makes of the cells of another, whose name it has, group by group. The cells
/// that are made are all of this type, and units or none. Refused where the node refuses a cell, and with
/// `TooLong` where all cells that are made have 2^32 values together.
pub fn make_each<'a, N: One, L: Ledger>(
    alloc: Global,
    node: &N,
    input: AggregationContext<'a>,
    dtype: DataType,
    is_unit: bool,
    kernels: &mut Steps<L>,
) -> Px<AggregationContext<'a>>
    requires { (cs : List NamedCell) → answers_of_one (N.node node.now) (named_cells input) ≡ map Ok cs → AreLike input.values.name (kind_of dtype) is_unit cs }
    ensures made { IfOk result (IsMade (answers_of_one (N.node node.now) (named_cells input.entry)) input.entry.values.name (Ok (kind_of dtype)) is_unit (length input.entry.groups.groups)) }
    ensures touched { IfOk result (λ c. c.untouched ≡ false) }
    ensures refused { IfErr result (λ e. IsRefusal e (answers_of_one (N.node node.now) (named_cells input.entry)) (counts_in (answers_of_one (N.node node.now) (named_cells input.entry)))) }
    ensures most { kernels.new ≤ kernels.old + length input.entry.groups.groups }
    ensures rises { kernels.old ≤ kernels.new }
{
    let name = input.get_values().name().try_clone(alloc)?;
    let cells = each_one(alloc, node, &input, kernels)?;
    from_cells(alloc, &cells, name, dtype, is_unit, input)
}
