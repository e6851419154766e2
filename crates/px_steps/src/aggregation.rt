//! An aggregation's value for each group of rows.
ghost use Rattle.std.specs.Prelude.{◌≡◌, length, OnOk};
ghost use Rattle.px_answers.specs.Counted.{RunExactly};
ghost use Rattle.px_expr.specs.NodeView.{plan_of};
ghost use Rattle.px_frame.specs.Frame.{height_of};
ghost use Rattle.px_frame.specs.Groups.{rows_of};
ghost use Rattle.px_group_answers.specs.Counted.{RunOnGroups};
ghost use Rattle.px_tree.specs.Size.{size_on};
ghost use Rattle.px_tree.specs.declared.context.Context.TheVariants.{Aggregation};
ghost use Rattle.px_steps.specs.Finds.{Finds, IsAccepted, agg_faults, node_tree, part_frames};
ghost use Rattle.px_tree.specs.Grouped.{aggregated_on};
ghost use Rattle.px_window.specs.State.{beside};

use px_column::{Column, Px, Steps};
use px_expr::{PhysExpr, PhysicalExpr};
use px_frame::{DataFrame, GroupPositions};
use px_window::ExecutionState;
use std::alloc::Global;
use std::sync::ledger::Ledger;

/// An aggregation's value for each group as a column, of an expression that is not refused on groups. It
/// is evaluated on all groups at once.
#[tactic(auto, using(crate::proofs::Aggregated::group_lacks))]
pub(crate) fn aggregate<L: Ledger, M: Ledger>(
    alloc: Global,
    frame: &DataFrame,
    groups: &GroupPositions,
    node: &PhysExpr,
    state: &mut ExecutionState,
    kernels: &mut Steps<L>,
    groupings: &mut Steps<M>,
) -> Px<Column>
    requires accepted { IsAccepted (plan_of node.now) (beside frame.now state.old) Aggregation }
    requires height { groups.now.height ≡ height_of frame.now }
    ensures answer { Finds result (aggregated_on (beside frame.now state.old) (rows_of groups.now) (node_tree node.now))
        (agg_faults (beside frame.now state.old) (rows_of groups.now) (node_tree node.now)) (size_on (node_tree node.now) (part_frames (beside frame.now state.old) (rows_of groups.now))) }
    ensures state { state.new ≡ state.old }
    ensures grouped { groupings.new ≡ groupings.old }
    ensures ticks { OnOk result (RunExactly (node_tree node.now) kernels.old kernels.new) }
    ensures cost { RunOnGroups (node_tree node.now) (length groups.now.groups) kernels.old kernels.new }
{
    let mut context = node.evaluate_on_groups(alloc, frame, groups, state, kernels, groupings)?;
    context.finalize(alloc)
}
