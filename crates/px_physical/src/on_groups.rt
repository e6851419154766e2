//! What nodes on groups are tested for, and the contexts of some nodes.
ghost use Rattle.std.specs.Prelude.{◌≡◌, ◌||◌, ◌++◌, ◌<◌, IfOk, IfErr, OnOk, length, map};
ghost use Rattle.px_frame.specs.Frame.{height_of};
ghost use Rattle.px_tree.specs.Shape.{has_implode, have_implode};
ghost use Rattle.px_tree.specs.Typing.{first_scalar_refusal, grouped_function_refusals, grouped_reduction_refusals, implode_refusal, is_one_input_missing, scalar_refusal};
ghost use Rattle.px_answers.specs.Counted.{RunAllExactly};
ghost use Rattle.px_answers.specs.Parts.{plan_trees};
ghost use Rattle.px_group_answers.specs.Accepts.{Accepts, input_refusals, takes_one};
ghost use Rattle.px_group_answers.specs.Counted.{RunAllOnGroups};
ghost use Rattle.px_group_answers.specs.OnGroups.{AreContextsOf, IsGroupCauseOfAny};
ghost use Rattle.px_physical.specs.NodeView.{plan_of};
ghost use Rattle.px_window.specs.State.{beside};

use crate::phys_expr::{PhysExpr, has_literals_alone};
use crate::physical::PhysicalExpr;
use px_column::{ComputeWhy, GroupByMethod, InvalidWhy, Px, PxError, Steps};
use px_context::AggregationContext;
use px_frame::{DataFrame, GroupPositions};
use px_plan::FunctionExpr;
use px_window::ExecutionState;
use std::alloc::Global;
use std::sync::ledger::Ledger;

/// The contexts of some nodes on groups, in their order, or why one of them has none.
#[tactic(auto, using(px_group_answers::proofs::ContextsInOrder::contexts_none))]
#[cycle(groups)]
pub(crate) fn contexts_on_groups<'a, L: Ledger, M: Ledger>(
    alloc: Global,
    nodes: &[PhysExpr],
    df: &'a DataFrame,
    groups: &'a GroupPositions,
    state: &mut ExecutionState,
    kernels: &mut Steps<L>,
    groupings: &mut Steps<M>,
) -> Px<Vec<AggregationContext<'a>>>
    requires { groups.now.height ≡ height_of df.now }
    ensures contexts { IfOk result (λ v. AreContextsOf (map plan_of nodes.now) (beside df.now state.old) groups.now v.items) }
    ensures causes { IfErr result (λ e. IsGroupCauseOfAny e (map plan_of nodes.now) (beside df.now state.old) groups.now) }
    ensures frame { state.new ≡ state.old }
    ensures grouped { groupings.new ≡ groupings.old }
    ensures ticks { OnOk result (RunAllExactly (plan_trees (map plan_of nodes.now)) kernels.old kernels.new) }
    ensures cost { RunAllOnGroups (plan_trees (map plan_of nodes.now)) (length groups.now.groups) kernels.old kernels.new }
{
    let mut contexts = Vec::with_capacity(alloc, nodes.len())?;
    for node in nodes {
        contexts.push(node.evaluate_on_groups(alloc, df, groups, state, kernels, groupings)?)?;
    }
    Ok(contexts)
}

/// Whether an Implode stands in a node's expression.
#[cycle(implode)]
pub(crate) fn has_implode(node: &PhysExpr) -> bool
    ensures { result ≡ has_implode (plan_of node.now).tree }
{
    match node {
        PhysExpr::Column(node) => node.has_implode(),
        PhysExpr::Literal(node) => node.has_implode(),
        PhysExpr::Alias(node) => has_implode(node.physical_expr()),
        PhysExpr::Binary(node) => has_implode(node.left()) || has_implode(node.right()),
        PhysExpr::Ternary(node) => {
            has_implode(node.predicate()) || has_implode(node.truthy()) || has_implode(node.falsy())
        }
        PhysExpr::Cast(node) => has_implode(node.input()),
        PhysExpr::Apply(node) => node.has_implode(),
        PhysExpr::Filter(node) => has_implode(node.input()) || has_implode(node.by()),
        PhysExpr::Slice(node) => {
            has_implode(node.input()) || has_implode(node.offset()) || has_implode(node.length())
        }
        PhysExpr::Gather(node) => has_implode(node.phys_expr()) || has_implode(node.idx()),
        PhysExpr::Sort(node) => has_implode(node.physical_expr()),
        PhysExpr::SortBy(node) => node.has_implode(),
        PhysExpr::Aggregation(node) => {
            matches!(node.agg_type().groupby, GroupByMethod::Implode) || has_implode(node.expr())
        }
        PhysExpr::Count(node) => node.has_implode(),
        PhysExpr::Window(node) => node.has_implode(),
    }
}

/// Whether an Implode stands in one of some nodes' expressions.
#[cycle(implode)]
pub(crate) fn have_implode(nodes: &[PhysExpr]) -> bool
    ensures { result ≡ have_implode (plan_trees (map plan_of nodes.now)) }
{
    for node in nodes {
        if has_implode(node) {
            return true;
        }
    }
    false
}

/// Nothing, unless a node has one value in each group, out of which no rows are chosen; one that is made
/// of literals alone is a list of one row.
pub(crate) fn accept_rows(node: &PhysExpr) -> Px<()>
    ensures { Accepts result (scalar_refusal (plan_of node.now).tree) }
{
    if node.is_scalar() && !has_literals_alone(node) {
        Err(PxError::InvalidOperation(InvalidWhy::ScalarOnGroups))
    } else {
        Ok(())
    }
}

/// Nothing, unless a slice stands above an Implode, or its input has one value in each group.
pub(crate) fn accept_slice(input: &PhysExpr, offset: &PhysExpr, length: &PhysExpr) -> Px<()>
    ensures { Accepts result (implode_refusal (has_implode (plan_of input.now).tree || (has_implode (plan_of offset.now).tree || has_implode (plan_of length.now).tree)) ++ scalar_refusal (plan_of input.now).tree) }
{
    if has_implode(input) || has_implode(offset) || has_implode(length) {
        return Err(PxError::InvalidOperation(InvalidWhy::AggAboveImplode));
    }
    accept_rows(input)
}

/// Nothing, unless a reduction stands above an Implode, of literals alone, or, where it is no Implode, of
/// one value in each group.
pub(crate) fn accept_reduction(input: &PhysExpr, method: GroupByMethod) -> Px<()>
    ensures { Accepts result (grouped_reduction_refusals method (plan_of input.now).tree) }
{
    if has_implode(input) {
        return Err(PxError::InvalidOperation(InvalidWhy::AggAboveImplode));
    }
    if has_literals_alone(input) {
        return Err(PxError::ComputeError(ComputeWhy::AggLiteral));
    }
    if input.is_scalar() && !matches!(method, GroupByMethod::Implode) {
        return Err(PxError::ComputeError(ComputeWhy::AggScalar));
    }
    Ok(())
}

/// Nothing, unless the first of some nodes has one value in each group.
fn accept_first(inputs: &[PhysExpr]) -> Px<()>
    ensures { Accepts result (first_scalar_refusal (plan_trees (map plan_of inputs.now))) }
{
    match inputs {
        [first, ..] => accept_rows(first),
        [] => Ok(()),
    }
}

/// Nothing, unless a function of rows stands above an Implode that it may not see, or its first input has
/// one value in each group.
fn accept_function(function: &FunctionExpr, inputs: &[PhysExpr]) -> Px<()>
    ensures { Accepts result (grouped_function_refusals function.now (plan_trees (map plan_of inputs.now))) }
{
    match function {
        FunctionExpr::Reverse
        | FunctionExpr::Shift(_)
        | FunctionExpr::DropNulls
        | FunctionExpr::Explode => accept_first(inputs),
        FunctionExpr::NullCount => {
            if have_implode(inputs) {
                return Err(PxError::InvalidOperation(InvalidWhy::AggAboveImplode));
            }
            accept_first(inputs)
        }
        _ => Ok(()),
    }
}

/// Whether a function of rows takes exactly one input.
fn takes_one(function: &FunctionExpr) -> bool
    ensures { result ≡ takes_one function.now }
{
    !matches!(
        function,
        FunctionExpr::IsBetween { .. } | FunctionExpr::IsIn
    )
}

/// Whether a function of rows that takes exactly one input has another number of them.
fn is_one_input_missing(function: &FunctionExpr, inputs: &[PhysExpr]) -> bool
    ensures { result ≡ is_one_input_missing function.now (plan_trees (map plan_of inputs.now)) }
{
    if inputs.len() == 1 {
        false
    } else {
        takes_one(function)
    }
}

/// Nothing, unless a function has another number of inputs than it takes, none among these, or is refused
/// on groups.
pub(crate) fn accept_inputs(function: &FunctionExpr, inputs: &[PhysExpr]) -> Px<()>
    ensures accepted { Accepts result (input_refusals function.now (plan_trees (map plan_of inputs.now))) }
    ensures some { IfOk result (λ _. 0 < length inputs.now) }
{
    if inputs.is_empty() || is_one_input_missing(function, inputs) {
        return Err(PxError::InvalidOperation(InvalidWhy::Types));
    }
    accept_function(function, inputs)
}
