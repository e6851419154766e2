//! Nodes group by group.
ghost use Rattle.std.specs.Prelude.{◌≡◌, ◌+◌, ◌≤◌, Ok, IfOk, IfErr, Result, length, map};
ghost use Rattle.px_column.specs.Prelude.{AnswersBy};
ghost use Rattle.px_value.specs.declared.error.PxError.{PxError as Refusal};
ghost use Rattle.px_frame.specs.CellView.{named_cell};
ghost use Rattle.px_frame.specs.Spread.{NamedCell};
ghost use Rattle.px_lanes.specs.Made.{IsFault, answers_of_two, named_cells, named_part};

use px_column::{Name, Px, Steps};
use px_context::{AggregationContext, GroupPiece};
use px_frame::Cell;
use std::alloc::Global;
use std::sync::ledger::Ledger;

/// A node of two inputs.
pub trait Two {
    ghost node: { Self → NamedCell → NamedCell → Result NamedCell Refusal };

    /// What the node makes of two cells, or why it refuses them.
    fn make<L: Ledger>(
        &self,
        alloc: Global,
        left: Cell,
        right: Cell,
        kernels: &mut Steps<L>,
    ) -> Px<Cell>
        ensures answer { AnswersBy named_cell result (node self.now (named_cell left) (named_cell right)) }
        ensures most { kernels.new ≤ kernels.old + 1 }
        ensures rises { kernels.old ≤ kernels.new };
}

/// A copy of a cell that is lent, under a name.
#[tactic(auto, using(crate::proofs::Stepping::cell_again))]
pub fn copy_cell(alloc: Global, name: &Name, piece: &GroupPiece<'_>) -> Px<Cell>
    ensures { AnswersBy named_cell result (Ok (named_part name.now piece.now)) }
{
    let column = piece.to_column(alloc, name.try_clone(alloc)?)?;
    Ok(Cell::new(column, piece.is_unit()))
}

/// What a node makes of the cells of two contexts with as many groups, group by group. Refused where the
/// node refuses the cells of a group.
pub fn each_two<N: Two, L: Ledger>(
    alloc: Global,
    node: &N,
    left: &AggregationContext<'_>,
    right: &AggregationContext<'_>,
    kernels: &mut Steps<L>,
) -> Px<Vec<Cell>>
    requires { length left.now.groups.groups ≡ length right.now.groups.groups }
    ensures cells { IfOk result (λ v. answers_of_two (N.node node.now) (named_cells left.now) (named_cells right.now) ≡ map Ok (map named_cell v.items)) }
    ensures count { IfOk result (λ v. length v.items ≡ length left.now.groups.groups) }
    ensures faults { IfErr result (λ e. IsFault e (answers_of_two (N.node node.now) (named_cells left.now) (named_cells right.now))) }
    ensures most { kernels.new ≤ kernels.old + length left.now.groups.groups }
    ensures rises { kernels.old ≤ kernels.new }
{
    let (first, second) = (left.get_values().name(), right.get_values().name());
    let mut cells = Vec::with_capacity(alloc, left.kept_groups().len() as usize)?;
    for (x, y) in left.pieces().zip(right.pieces()) {
        let a = copy_cell(alloc, first, &x)?;
        let b = copy_cell(alloc, second, &y)?;
        let made = node.make(alloc, a, b, kernels)?;
        cells.push(made)?;
    }
    Ok(cells)
}
