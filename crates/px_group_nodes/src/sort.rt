//! The rows of a context's cells in the order of their values.
ghost use Rattle.std.specs.Prelude.{◌≡◌, ◌⊎◌, ◌+◌, ◌≤◌, [], ◌∷◌, Err, IfOk, IfErr, length};
ghost use Rattle.px_column.specs.Prelude.{AnswersBy, kind_of};
ghost use Rattle.px_context.specs.Context.{cell_kind};
ghost use Rattle.px_lanes.specs.Made.{IsRefusal, KeepsGroups, counts_in};
ghost use Rattle.px_group_nodes.specs.Sorting.{IsSorted, sort_answers, sorted_kind};

use px_column::{DataType, InvalidWhy, Px, PxError, SortOptions, Steps};
use px_context::AggregationContext;
use px_frame::Cell;
use px_lanes::each_one::{One, make_each};
use px_nodes::sort_cells;
use std::alloc::Global;
use std::sync::ledger::Ledger;

/// A sort as a node of one input.
#[derive(Clone, Copy)]
struct Sorting {
    options: SortOptions,
}

impl One for Sorting {
    ghost use Rattle.px_nodes.specs.Named.{sort_named};

    ghost node = { λ n. sort_named n.options };

    fn make<L: Ledger>(&self, alloc: Global, input: Cell, kernels: &mut Steps<L>) -> Px<Cell> {
        sort_cells(alloc, input, self.options, kernels)
    }
}

/// The type of sorted values, or `ListKey` where they are lists.
fn sorted_type(alloc: Global, dtype: &DataType) -> Px<DataType>
    ensures { AnswersBy kind_of result (sorted_kind (kind_of dtype.now)) }
{
    if dtype.is_list() {
        return Err(PxError::InvalidOperation(InvalidWhy::ListKey));
    }
    dtype.try_clone(alloc)
}

/// The rows of each cell of a context in the order of their values, equal ones as they stand, as lists
/// under its name and of its type. Refused with `ListKey` where the values are lists, and with `TooLong`
/// where all cells have 2^32 values together.
pub fn sort_groups_cells<'a, L: Ledger>(
    alloc: Global,
    input: AggregationContext<'a>,
    options: SortOptions,
    kernels: &mut Steps<L>,
) -> Px<AggregationContext<'a>>
    ensures made { IfOk result (IsSorted options input.entry) }
    ensures groups { IfOk result (KeepsGroups (input.entry ∷ [])) }
    ensures refused { IfErr result (λ e. (sorted_kind (cell_kind input.entry) ≡ Err e) ⊎ IsRefusal e (sort_answers options input.entry) (counts_in (sort_answers options input.entry))) }
    ensures most { kernels.new ≤ kernels.old + (length input.entry.groups.groups + 1) }
    ensures rises { kernels.old ≤ kernels.new }
{
    let dtype = sorted_type(alloc, input.cell_type())?;
    make_each(alloc, &Sorting { options }, input, dtype, false, kernels)
}
