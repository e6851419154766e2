//! Steps run one after another.
ghost use Rattle.std.specs.Prelude.{◌≡◌, ◌+◌, ◌≤◌, Some, IfOk, IfErr, OnOk, map, true};
ghost use Rattle.std.specs.List.{list_all};
ghost use Rattle.px_value.specs.declared.error.PxError.TheVariants.{OutOfMemory};
ghost use Rattle.px_tree.specs.Chunks.{is_unchunked};
ghost use Rattle.px_steps.specs.Causes.{AreRun, IsCauseIn, StepAnswers, StepsAnswer};
ghost use Rattle.px_answers.specs.Counted.{RisesAtMost};
ghost use Rattle.px_steps.specs.Plain.{AreValid, groupings_in, groupings_of, kernels_in, kernels_of, most_kernels_in, most_kernels_of, plain_on};
ghost use Rattle.px_tree.specs.Step.{step_view};
ghost use Rattle.px_window.specs.State.{beside};

use crate::filter_step::filter_step;
use crate::group_step::group_step;
use crate::select_step::select_step;
use px_column::{Px, Steps};
use px_frame::DataFrame;
use px_tree::Step;
use px_window::ExecutionState;
use std::alloc::Global;
use std::sync::ledger::Ledger;

/// The frame that a step makes, or why there is none.
fn run_step<L: Ledger, M: Ledger>(
    alloc: Global,
    frame: &DataFrame,
    step: &Step,
    state: &mut ExecutionState,
    kernels: &mut Steps<L>,
    groupings: &mut Steps<M>,
) -> Px<DataFrame>
    requires { is_unchunked (step_view step.now) ≡ true }
    ensures answer { StepAnswers result (step_view step.now) (beside frame.now state.old) }
    ensures state { state.new ≡ state.old }
    ensures grouped { OnOk result (groupings.new ≡ groupings.old + groupings_in (step_view step.now)) }
    ensures risen { groupings.old ≤ groupings.new }
    ensures within { groupings.new ≤ groupings.old + groupings_in (step_view step.now) }
    ensures ticks { OnOk result (kernels.old + kernels_in (step_view step.now) ≤ kernels.new) }
    ensures most { OnOk result (RisesAtMost (most_kernels_in (step_view step.now) (beside frame.now state.old)) kernels.old kernels.new) }
{
    match step {
        Step::Select(exprs) => select_step(alloc, frame, exprs, state, kernels, groupings),
        Step::Filter(mask) => filter_step(alloc, frame, mask, state, kernels, groupings),
        Step::GroupAgg { keys, aggs, .. } => {
            group_step(alloc, frame, keys, aggs, state, kernels, groupings)
        }
    }
}

/// The frame that the steps make of this one, or why there is none.
fn run_each<L: Ledger, M: Ledger>(
    alloc: Global,
    frame: DataFrame,
    steps: &[Step],
    state: &mut ExecutionState,
    kernels: &mut Steps<L>,
    groupings: &mut Steps<M>,
) -> Px<DataFrame>
    requires { list_all is_unchunked (map step_view steps.now) ≡ true }
    ensures answer { StepsAnswer result (map step_view steps.now) (beside frame state.old) }
    ensures state { state.new ≡ state.old }
    ensures grouped { OnOk result (groupings.new ≡ groupings.old + groupings_of (map step_view steps.now)) }
    ensures risen { groupings.old ≤ groupings.new }
    ensures within { groupings.new ≤ groupings.old + groupings_of (map step_view steps.now) }
    ensures ticks { OnOk result (kernels.old + kernels_of (map step_view steps.now) ≤ kernels.new) }
    ensures most { OnOk result (RisesAtMost (most_kernels_of (map step_view steps.now) (beside frame state.old)) kernels.old kernels.new) }
{
    let mut frame = frame;
    for step in steps {
        frame = run_step(alloc, &frame, step, state, kernels, groupings)?;
    }
    Ok(frame)
}

/// The frame that the steps make, each from the frame of those before it; with no step an equal frame.
/// The first step that is refused, has a fault or has 2^32 values or more decides, and no step after
/// it is run; what is told of it is its first refusal, or else one of its faults, or `TooLong`. The
/// columns of the state's external frames stand beside the frame, and beside each that a step makes. No
/// step is a group step with chunks, which `are_unchunked` tests.
pub fn run_steps<L: Ledger, M: Ledger>(
    alloc: Global,
    frame: &DataFrame,
    steps: &[Step],
    state: &mut ExecutionState,
    kernels: &mut Steps<L>,
    groupings: &mut Steps<M>,
) -> Px<DataFrame>
    requires unchunked { list_all is_unchunked (map step_view steps.now) ≡ true }
    // The frame is the one that the steps mean; none of them is refused, has a fault or makes 2^32
    // rows.
    ensures plain { IfOk result (λ f. plain_on (map step_view steps.now) (beside frame.now state.old) ≡ Some (beside f state.old)) }
    ensures run { IfOk result (λ f. AreRun (map step_view steps.now) (beside frame.now state.old) (beside f state.old)) }
    // What is told stands at a step that is reached, or memory was wanting.
    ensures causes { IfErr result (λ e. IsCauseIn e (map step_view steps.now) (beside frame.now state.old)) }
    // Valid steps make their frame, where memory is not wanting.
    ensures complete { AreValid (map step_view steps.now) (beside frame.now state.old) → IfErr result (λ e. e ≡ OutOfMemory) }
    ensures state { state.new ≡ state.old }
    // Rows are grouped once for each window and once for each group step; never more often, whatever is
    // answered.
    ensures grouped { OnOk result (groupings.new ≡ groupings.old + groupings_of (map step_view steps.now)) }
    ensures risen { groupings.old ≤ groupings.new }
    ensures within { groupings.new ≤ groupings.old + groupings_of (map step_view steps.now) }
    // Kernels run at least once for each node that has one in a flat expression.
    ensures ticks { OnOk result (kernels.old + kernels_of (map step_view steps.now) ≤ kernels.new) }
    // And at most as often as the costs of the expressions say, where each has one.
    ensures most { OnOk result (RisesAtMost (most_kernels_of (map step_view steps.now) (beside frame.now state.old)) kernels.old kernels.new) }
{
    match steps {
        [] => frame.try_clone(alloc),
        [first, rest @ ..] => {
            let made = run_step(alloc, frame, first, state, kernels, groupings)?;
            run_each(alloc, made, rest, state, kernels, groupings)
        }
    }
}
