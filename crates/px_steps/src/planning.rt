//! Expressions as nodes, and what these give on a frame.
ghost use Rattle.std.specs.Prelude.{◌≡◌, ◌+◌, ◌≤◌, ◌++◌, ◌∷◌, [], Some, Ok, IfOk, OnOk, map};
ghost use Rattle.std.specs.List.{flat_map};
ghost use Rattle.px_answers.specs.Counted.{RisesAtMost, flat_kernels};
ghost use Rattle.px_expr.specs.NodeView.{plan_of};
ghost use Rattle.px_expr.specs.Plan.{planned_over};
ghost use Rattle.px_column.specs.Prelude.{AnswersBy, kind_of};
ghost use Rattle.px_frame.specs.External.{scope_of};
ghost use Rattle.px_tree.specs.Cost.{cost_on, windows_in};
ghost use Rattle.px_tree.specs.Shape.{name_of};
ghost use Rattle.px_tree.specs.Size.{size_on};
ghost use Rattle.px_tree.specs.Typing.{kind_in, refusals_of};
ghost use Rattle.px_tree.specs.View.{tree};
ghost use Rattle.px_tree.specs.declared.context.Context.TheVariants.{Default};
ghost use Rattle.px_steps.specs.Finds.{Finds, IsAccepted, key_faults, node_tree, repeat_beside};
ghost use Rattle.px_steps.specs.Meets.{Meets, MeetsBy};
ghost use Rattle.px_tree.specs.Grouped.{key_on};
ghost use Rattle.px_window.specs.State.{beside};

use indexmap::IndexSet;
use px_column::{Column, DataType, Name, Px, PxError, Steps};
use px_expr::{ExpressionConversionState, PhysExpr, create_typed_expr, evaluate_cell};
use px_frame::{DataFrame, SchemaRef, add_name, spread};
use px_plan::{Arena, Context, Expr, ExprIR, fits_arena, output_name, to_arena};
use px_scope::scope_beside;
use px_window::ExecutionState;
use std::alloc::Global;
use std::rc::Rc;
use std::sync::ledger::Ledger;

/// The names and types of a frame's columns, and then of those beside it that are not named yet.
pub(crate) fn step_schema(alloc: Global, frame: &DataFrame, state: &ExecutionState) -> Px<SchemaRef>
    ensures { AnswersBy (λ s. s.value) result (Ok (scope_of (beside frame.now state.now))) }
{
    Ok(Rc::new(alloc, scope_beside(alloc, frame, state)?)?)
}

/// The node of an expression over a schema and the type of its values, or its first refusal in its place.
#[tactic(auto, using(crate::proofs::Selected::planned_meets, crate::proofs::Nodes::kind_typed))]
pub(crate) fn plan_typed(
    alloc: Global,
    expr: &Expr,
    schema: &SchemaRef,
    context: Context,
) -> Px<(PhysExpr, DataType)>
    ensures node { MeetsBy (λ p. plan_of p.0) result (refusals_of (tree expr.now) schema.now.value context) (Some (planned_over schema.now.value (tree expr.now))) }
    ensures dtype { IfOk result (λ p. kind_in (tree expr.now) schema.now.value ≡ Some (kind_of p.1)) }
{
    let mut arena = Arena::new(alloc)?;
    if !fits_arena(expr, &arena) {
        return Err(PxError::OutOfMemory);
    }
    let node = to_arena(alloc, expr, &mut arena)?;
    let expr_ir = ExprIR::new(node, None);
    let mut noted = ExpressionConversionState::new(0);
    create_typed_expr(alloc, &expr_ir, context, &arena, schema, &mut noted)
}

/// The node alone.
fn plan_expr(alloc: Global, expr: &Expr, schema: &SchemaRef, context: Context) -> Px<PhysExpr>
    ensures { MeetsBy plan_of result (refusals_of (tree expr.now) schema.now.value context) (Some (planned_over schema.now.value (tree expr.now))) }
{
    let (node, _) = plan_typed(alloc, expr, schema, context)?;
    Ok(node)
}

/// The nodes of some expressions over a schema, in their order, or the first refusal from the left.
#[tactic(auto, using(crate::proofs::Named::IsFirst_append))]
pub(crate) fn plan_all(
    alloc: Global,
    exprs: &[Expr],
    schema: &SchemaRef,
    context: Context,
) -> Px<Vec<PhysExpr>>
    ensures { MeetsBy (λ v. map plan_of v.items) result (flat_map (λ t. refusals_of t schema.now.value context) (map tree exprs.now))
        (Some (map (planned_over schema.now.value) (map tree exprs.now))) }
{
    let mut nodes = Vec::with_capacity(alloc, exprs.len())?;
    for expr in exprs {
        nodes.push(plan_expr(alloc, expr, schema, context)?)?;
    }
    Ok(nodes)
}

/// Adds the expressions' names to some names; `Duplicate` with the first that stands there already.
pub(crate) fn add_names(alloc: Global, names: &mut IndexSet<Name>, exprs: &[Expr]) -> Px<()>
    ensures answer { Meets result (repeat_beside names.old.keys (map tree exprs.now)) (Some tt) }
    ensures added { OnOk result (names.new.keys ≡ names.old.keys ++ map name_of (map tree exprs.now)) }
{
    for expr in exprs {
        add_name(alloc, names, &output_name(alloc, expr)?)?;
    }
    Ok(())
}

/// A node's value, brought to the frame's height. Rows are grouped once for each of its windows.
pub(crate) fn spread_value<L: Ledger, M: Ledger>(
    alloc: Global,
    frame: &DataFrame,
    node: &PhysExpr,
    state: &mut ExecutionState,
    kernels: &mut Steps<L>,
    groupings: &mut Steps<M>,
) -> Px<Column>
    requires { IsAccepted (plan_of node.now) (beside frame.now state.old) Default }
    ensures answer { Finds result (key_on (beside frame.now state.old) (node_tree node.now)) (key_faults (beside frame.now state.old) (node_tree node.now)) (size_on (node_tree node.now) (beside frame.now state.old ∷ [])) }
    ensures state { state.new ≡ state.old }
    ensures grouped { OnOk result (groupings.new ≡ groupings.old + windows_in (node_tree node.now)) }
    ensures risen { groupings.old ≤ groupings.new }
    ensures within { groupings.new ≤ groupings.old + windows_in (node_tree node.now) }
    ensures ticks { OnOk result (kernels.old + flat_kernels (node_tree node.now) ≤ kernels.new) }
    ensures most { OnOk result (RisesAtMost (cost_on (node_tree node.now) (beside frame.now state.old)) kernels.old kernels.new) }
{
    let cell = evaluate_cell(alloc, node, frame, state, kernels, groupings)?;
    spread(alloc, cell, frame.height())
}
