//! Laws of what steps mean. A function here does nothing: its clauses are laws.
#![tactic(auto)]

ghost use Rattle.px_step_laws.specs.Faults.{StepFailsByValue};
ghost use Rattle.px_step_laws.specs.OnGroups.{IsAlikeOnGroups};
ghost use Rattle.px_tree.specs.Step.{step_view};
ghost use Rattle.px_tree.specs.View.{tree};

use px_tree::{Expr, Step};

/// Where the columns of a frame and a step's literals fit their types, a step that is not refused fails
/// by its values alone: each of its faults is one of values, or of how many there are, and none tells of
/// a name, a type or a form.
#[tactic(auto, using(crate::proofs::StepFaults::step_value_faults))]
pub fn accepted_steps_fail_by_value(step: &Step)
    ensures { StepFailsByValue (step_view step.now) }
{
    let _ = step;
}

/// An expression that is not refused on groups is not refused on the frame, and has the same type there.
/// Its value on a group is the value of a select of it on the frame of that group's rows alone.
pub fn groups_are_selected_alone(expr: &Expr)
    ensures { IsAlikeOnGroups (tree expr.now) }
{
    let _ = expr;
}
