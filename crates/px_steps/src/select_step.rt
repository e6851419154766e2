//! A select step: the columns of some expressions, side by side.
ghost use Rattle.std.specs.Prelude.{◌≡◌, ◌+◌, ◌≤◌, Some, OnOk, map};
ghost use Rattle.px_answers.specs.Counted.{RisesAtMost};
ghost use Rattle.px_tree.specs.Step.{select};
ghost use Rattle.px_tree.specs.View.{tree};
ghost use Rattle.px_steps.specs.Causes.{StepAnswers};
ghost use Rattle.px_steps.specs.Meets.{Meets};
ghost use Rattle.px_steps.specs.Plain.{groupings_in, kernels_in, most_kernels_in, repeat_refusal};
ghost use Rattle.px_window.specs.State.{beside};

use crate::planning::{add_names, plan_all, step_schema};
use indexmap::IndexSet;
use px_column::{Px, Steps};
use px_expr::evaluate_cells;
use px_frame::{DataFrame, assemble};
use px_plan::{Context, Expr};
use px_window::ExecutionState;
use std::alloc::Global;
use std::sync::ledger::Ledger;

/// Nothing, unless a name stands twice.
fn distinct_names(alloc: Global, exprs: &[Expr]) -> Px<()>
    ensures { Meets result (repeat_refusal (map tree exprs.now)) (Some tt) }
{
    add_names(alloc, &mut IndexSet::new(alloc), exprs)
}

/// The columns of these expressions side by side. All expressions are typed before the first is
/// evaluated: the first refusal from the left, then `Duplicate` with the first name that stands
/// twice, then the faults of values, and `ShapeMismatch` where lists differ in length.
pub(crate) fn select_step<L: Ledger, M: Ledger>(
    alloc: Global,
    frame: &DataFrame,
    exprs: &[Expr],
    state: &mut ExecutionState,
    kernels: &mut Steps<L>,
    groupings: &mut Steps<M>,
) -> Px<DataFrame>
    ensures answer { StepAnswers result (select (map tree exprs.now)) (beside frame.now state.old) }
    ensures state { state.new ≡ state.old }
    ensures grouped { OnOk result (groupings.new ≡ groupings.old + groupings_in (select (map tree exprs.now))) }
    ensures risen { groupings.old ≤ groupings.new }
    ensures within { groupings.new ≤ groupings.old + groupings_in (select (map tree exprs.now)) }
    ensures ticks { OnOk result (kernels.old + kernels_in (select (map tree exprs.now)) ≤ kernels.new) }
    ensures most { OnOk result (RisesAtMost (most_kernels_in (select (map tree exprs.now)) (beside frame.now state.old)) kernels.old kernels.new) }
{
    let schema = step_schema(alloc, frame, state)?;
    let nodes = plan_all(alloc, exprs, &schema, Context::Default)?;
    distinct_names(alloc, exprs)?;
    let cells = evaluate_cells(alloc, &nodes, frame, state, kernels, groupings)?;
    assemble(alloc, cells)
}
