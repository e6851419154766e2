//! What nodes of two inputs make of contexts, group by group.
ghost use Rattle.std.specs.Prelude.{◌≡◌, ◌+◌, ◌≤◌, Ok, IfOk, IfErr, false, length};
ghost use Rattle.px_column.specs.Prelude.{kind_of};
ghost use Rattle.px_lanes.specs.Made.{IsMade, IsRefusal, answers_of_two, counts_in, named_cells};
ghost use Rattle.px_group_nodes.specs.Pairs.{AnswersAlike};

use px_column::{DataType, Px, Steps};
use px_context::AggregationContext;
use px_lanes::each::{Two, each_two};
use px_lanes::laying::from_cells;
use std::alloc::Global;
use std::sync::ledger::Ledger;

/// The context of what a node makes of the cells of two contexts, group by group, under the left one's
/// name, and with the type and the shape that its answers have. Refused where the node refuses the cells
/// of a group, and with `TooLong` where all answers have 2^32 values together.
pub(crate) fn make_each<'a, N: Two, L: Ledger>(
    alloc: Global,
    node: &N,
    left: AggregationContext<'a>,
    right: &AggregationContext<'_>,
    dtype: DataType,
    is_unit: bool,
    kernels: &mut Steps<L>,
) -> Px<AggregationContext<'a>>
    requires count { length left.groups.groups ≡ length right.now.groups.groups }
    requires like { AnswersAlike (answers_of_two (N.node node.now) (named_cells left) (named_cells right.now)) left.values.name (kind_of dtype) is_unit }
    ensures made { IfOk result (IsMade (answers_of_two (N.node node.now) (named_cells left.entry) (named_cells right.now)) left.entry.values.name (Ok (kind_of dtype)) is_unit (length left.entry.groups.groups)) }
    ensures touched { IfOk result (λ c. c.untouched ≡ false) }
    ensures refused { IfErr result (λ e. IsRefusal e (answers_of_two (N.node node.now) (named_cells left.entry) (named_cells right.now)) (counts_in (answers_of_two (N.node node.now) (named_cells left.entry) (named_cells right.now)))) }
    ensures most { kernels.new ≤ kernels.old + length left.entry.groups.groups }
    ensures rises { kernels.old ≤ kernels.new }
{
    let name = left.get_values().name().try_clone(alloc)?;
    let cells = each_two(alloc, node, &left, right, kernels)?;
    from_cells(alloc, &cells, name, dtype, is_unit, left)
}
