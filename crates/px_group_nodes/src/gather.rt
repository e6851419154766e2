//! The rows of a context that indices name.
ghost use Rattle.std.specs.Prelude.{◌≡◌, ◌⊎◌, ◌+◌, ◌≤◌, [], ◌∷◌, Ok, Err, IfOk, IfErr, length};
ghost use Rattle.px_column.specs.Prelude.{AnswersBy, kind_of};
ghost use Rattle.px_lanes.specs.Made.{ArePaired, IsRefusal, KeepsGroups, counts_in};
ghost use Rattle.px_group_nodes.specs.Gather.{IsGathered, gather_answers, gathered_kind};

use crate::pairs::make_each;
use px_column::{ComputeWhy, DataType, InvalidWhy, Px, PxError, Steps, is_integer};
use px_context::AggregationContext;
use px_frame::Cell;
use px_lanes::each::Two;
use px_nodes::gather_cells;
use std::alloc::Global;
use std::sync::ledger::Ledger;

/// A gather as a node of two inputs.
#[derive(Clone, Copy)]
struct Gathering {
    returns_scalar: bool,
    idx_is_lit: bool,
}

impl Two for Gathering {
    ghost use Rattle.px_nodes.specs.Named.{gather_named};

    ghost node = { λ n. gather_named n.returns_scalar n.idx_is_lit };

    fn make<L: Ledger>(
        &self,
        alloc: Global,
        left: Cell,
        right: Cell,
        kernels: &mut Steps<L>,
    ) -> Px<Cell> {
        gather_cells(
            alloc,
            left,
            right,
            self.returns_scalar,
            self.idx_is_lit,
            kernels,
        )
    }
}

/// The type of the rows that are named.
fn gathered_type(
    alloc: Global,
    input: &AggregationContext<'_>,
    idx: &AggregationContext<'_>,
    returns_scalar: bool,
) -> Px<DataType>
    ensures { AnswersBy kind_of result (gathered_kind returns_scalar input.now idx.now) }
{
    if !is_integer(idx.cell_type()) {
        return Err(PxError::InvalidOperation(InvalidWhy::Types));
    }
    if returns_scalar && !idx.has_units() {
        return Err(PxError::ComputeError(ComputeWhy::SingleIndex));
    }
    input.cell_type().try_clone(alloc)
}

/// The rows of each cell that its indices name, in their order, a null for a null, under the input's name:
/// a unit where one row is asked for, else a list (polars `GatherExpr`). Indices count from the end where
/// they are negative. Refused with `Types` where they are not integers, with `SingleIndex` where one row is
/// asked for by lists, with `NullIndex` where a null that is made of literals is the index of a group, with
/// `OutOfBounds` where an index names no row of its group, and with `TooLong` where all rows that are named
/// are 2^32 or more.
pub fn gather_groups<'a, L: Ledger>(
    alloc: Global,
    input: AggregationContext<'a>,
    idx: AggregationContext<'a>,
    returns_scalar: bool,
    idx_is_lit: bool,
    kernels: &mut Steps<L>,
) -> Px<AggregationContext<'a>>
    requires { ArePaired input idx }
    ensures made { IfOk result (IsGathered returns_scalar idx_is_lit input.entry idx.entry) }
    ensures groups { IfOk result (KeepsGroups (input.entry ∷ idx.entry ∷ [])) }
    ensures refused { IfErr result (λ e. (gathered_kind returns_scalar input.entry idx.entry ≡ Err e) ⊎ IsRefusal e (gather_answers returns_scalar idx_is_lit input.entry idx.entry) (counts_in (gather_answers returns_scalar idx_is_lit input.entry idx.entry))) }
    ensures most { kernels.new ≤ kernels.old + (length input.entry.groups.groups + 1) }
    ensures rises { kernels.old ≤ kernels.new }
{
    let dtype = gathered_type(alloc, &input, &idx, returns_scalar)?;
    let node = Gathering {
        returns_scalar,
        idx_is_lit,
    };
    make_each(alloc, &node, input, &idx, dtype, returns_scalar, kernels)
}
