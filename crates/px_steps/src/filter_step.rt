//! A filter step: the rows of a frame whose mask is true.
ghost use Rattle.std.specs.Prelude.{◌≡◌, ◌+◌, ◌≤◌, Some, OnOk};
ghost use Rattle.px_expr.specs.NodeView.{plan_of};
ghost use Rattle.px_expr.specs.Plan.{planned_over};
ghost use Rattle.px_tree.specs.Step.{filter};
ghost use Rattle.px_tree.specs.View.{tree};
ghost use Rattle.px_steps.specs.Causes.{StepAnswers};
ghost use Rattle.px_steps.specs.Finds.{mask_refusals};
ghost use Rattle.px_steps.specs.Meets.{MeetsBy};
ghost use Rattle.px_answers.specs.Counted.{RisesAtMost};
ghost use Rattle.px_steps.specs.Plain.{groupings_in, kernels_in, most_kernels_in};
ghost use Rattle.px_window.specs.State.{beside};

use crate::planning::{plan_typed, spread_value, step_schema};
use px_column::{Px, PxError, Steps, is_boolean};
use px_expr::PhysExpr;
use px_frame::{DataFrame, SchemaRef};
use px_plan::{Context, Expr};
use px_window::ExecutionState;
use std::alloc::Global;
use std::sync::ledger::Ledger;

/// The node of a mask over a schema, unless it is refused or has no truths.
fn plan_mask(alloc: Global, mask: &Expr, schema: &SchemaRef) -> Px<PhysExpr>
    ensures { MeetsBy plan_of result (mask_refusals schema.now.value (tree mask.now)) (Some (planned_over schema.now.value (tree mask.now))) }
{
    let (node, dtype) = plan_typed(alloc, mask, schema, Context::Default)?;
    if is_boolean(&dtype) {
        Ok(node)
    } else {
        Err(PxError::SchemaMismatch)
    }
}

/// The rows whose mask is true, of which a null keeps none and a unit stands for every row. The mask is
/// typed before it is evaluated: its first refusal, then `SchemaMismatch` where it is not Boolean,
/// then the faults of its value, and `ShapeMismatch` where it has not the frame's height.
pub(crate) fn filter_step<L: Ledger, M: Ledger>(
    alloc: Global,
    frame: &DataFrame,
    mask: &Expr,
    state: &mut ExecutionState,
    kernels: &mut Steps<L>,
    groupings: &mut Steps<M>,
) -> Px<DataFrame>
    ensures answer { StepAnswers result (filter (tree mask.now)) (beside frame.now state.old) }
    ensures state { state.new ≡ state.old }
    ensures grouped { OnOk result (groupings.new ≡ groupings.old + groupings_in (filter (tree mask.now))) }
    ensures risen { groupings.old ≤ groupings.new }
    ensures within { groupings.new ≤ groupings.old + groupings_in (filter (tree mask.now)) }
    ensures ticks { OnOk result (kernels.old + kernels_in (filter (tree mask.now)) ≤ kernels.new) }
    ensures most { OnOk result (RisesAtMost (most_kernels_in (filter (tree mask.now)) (beside frame.now state.old)) kernels.old kernels.new) }
{
    let schema = step_schema(alloc, frame, state)?;
    let node = plan_mask(alloc, mask, &schema)?;
    let truths = spread_value(alloc, frame, &node, state, kernels, groupings)?;
    frame.filter(alloc, &truths)
}
