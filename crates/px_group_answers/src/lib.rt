//! What evaluating a node on groups answers: the definitions that contracts of nodes speak of, and the laws
//! by which a node's context comes from those of its inputs. Nothing runs here.
#![tactic(auto)]

ghost use Rattle.px_frame.specs.External.{Frame};
ghost use Rattle.px_frame.specs.Groups.{Groups};
ghost use Rattle.px_context.specs.Context.{Context};
ghost use Rattle.px_lanes.specs.Made.{named_cells};
ghost use Rattle.px_answers.specs.Planned.{Planned};
ghost use Rattle.px_group_answers.specs.OnGroups.{AreValuesOn, IsContextOf, group_frames};

/// Each cell of what an expression has on groups is the column that a select of it has on the frame of that
/// group's rows alone.
#[tactic(auto, using(crate::proofs::Values::cells_are_values))]
pub fn cells_are_values_of_group_rows()
    ensures { (p : Planned) (frame : Frame) (g : Groups) (c : Context) → IsContextOf p frame g c → AreValuesOn p (group_frames frame g) (named_cells c) }
{}
