//! Steps without chunks.
ghost use Rattle.std.specs.Prelude.{◌≡◌, map};
ghost use Rattle.std.specs.List.{list_all};
ghost use Rattle.px_tree.specs.Chunks.{is_unchunked};
ghost use Rattle.px_tree.specs.Step.{step_view};

use crate::step::Step;

/// Whether a step is no group step with chunks.
fn is_unchunked(step: &Step) -> bool
    ensures { result ≡ is_unchunked (step_view step.now) }
{
    match step {
        Step::Select(_) | Step::Filter(_) => true,
        Step::GroupAgg { chunks, .. } => chunks.is_none(),
    }
}

/// Whether no step is a group step with chunks.
pub fn are_unchunked(steps: &[Step]) -> bool
    ensures { result ≡ list_all is_unchunked (map step_view steps.now) }
{
    for step in steps {
        if !is_unchunked(step) {
            return false;
        }
    }
    true
}
