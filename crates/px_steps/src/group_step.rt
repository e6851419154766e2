//! A group step: one row for each part of a frame by keys.
ghost use Rattle.std.specs.Prelude.{◌≡◌, ◌+◌, ◌<◌, ◌≤◌, ◌^◌, ◌++◌, ◌∷◌, [], None, Ok, Some, IfOk, OnOk, length, map, true};
ghost use Rattle.std.specs.List.{flat_map, list_all, sum_by};
ghost use Rattle.px_column.specs.Prelude.{Answers};
ghost use Rattle.px_column.specs.Option.{each};
ghost use Rattle.px_answers.specs.Counted.{RisesAtMost, costs_on, flat_kernels};
ghost use Rattle.px_frame.specs.Aggregate.{has_row};
ghost use Rattle.px_frame.specs.Frame.{first_repeat, height_of, names_of};
ghost use Rattle.px_frame.specs.Groups.{groups_by, rows_of};
ghost use Rattle.px_frame.specs.Parts.{parts_of};
ghost use Rattle.px_tree.specs.Shape.{name_of};
ghost use Rattle.px_tree.specs.Size.{size_on};
ghost use Rattle.px_tree.specs.View.{tree};
ghost use Rattle.px_tree.specs.declared.context.Context.TheVariants.{Aggregation, Default};
ghost use Rattle.px_expr.specs.NodeView.{plan_of};
ghost use Rattle.px_expr.specs.Plan.{planned_over};
ghost use Rattle.px_steps.specs.Finds.{is_key};
ghost use Rattle.px_steps.specs.Causes.{StepAnswers};
ghost use Rattle.px_steps.specs.Finds.{AreAccepted, Finds, FindsBy, agg_faults, group_plans, key_faults, node_tree, part_frames, plans_over, typed_group_refusals, typed_key_refusals};
ghost use Rattle.px_document.specs.Form.{with_front};
ghost use Rattle.px_steps.specs.Meets.{Meets, MeetsBy};
ghost use Rattle.px_steps.specs.Plain.{columns_on, greatest, group_costs, groupings_in, kernels_in, most_kernels_in, repeat_refusal};
ghost use Rattle.px_tree.specs.Grouped.{aggregated_on, key_on};
ghost use Rattle.px_tree.specs.Cost.{windows_in};
ghost use Rattle.px_tree.specs.Step.{group};
ghost use Rattle.px_window.specs.State.{beside};

use crate::aggregation::aggregate;
use crate::planning::{add_names, plan_all, plan_typed, spread_value, step_schema};
use indexmap::IndexSet;
use px_column::{Column, ComputeWhy, InvalidWhy, Px, PxError, Steps};
use px_expr::PhysExpr;
use px_frame::{DataFrame, GroupPositions, SchemaRef, group_by, key_rows};
use px_plan::{Context, Expr};
use px_window::ExecutionState;
use std::alloc::Global;
use std::sync::ledger::Ledger;

/// The nodes of a group step's expressions.
#[derive(Drop)]
struct GroupNodes {
    keys: Vec<PhysExpr>,
    aggs: Vec<PhysExpr>,
}

/// The node of a key over a schema, unless it is refused or is a list.
fn plan_key(alloc: Global, key: &Expr, schema: &SchemaRef) -> Px<PhysExpr>
    ensures { MeetsBy plan_of result (typed_key_refusals schema.now.value (tree key.now)) (Some (planned_over schema.now.value (tree key.now))) }
{
    let (node, dtype) = plan_typed(alloc, key, schema, Context::Default)?;
    if dtype.is_list() {
        Err(PxError::InvalidOperation(InvalidWhy::ListKey))
    } else {
        Ok(node)
    }
}

/// The nodes of the keys over a schema, in their order, or the first refusal from the left.
#[tactic(auto, using(crate::proofs::Named::IsFirst_append))]
fn plan_keys(alloc: Global, keys: &[Expr], schema: &SchemaRef) -> Px<Vec<PhysExpr>>
    ensures { MeetsBy (λ v. map plan_of v.items) result (flat_map (typed_key_refusals schema.now.value) (map tree keys.now))
        (Some (map (planned_over schema.now.value) (map tree keys.now))) }
{
    let mut nodes = Vec::with_capacity(alloc, keys.len())?;
    for key in keys {
        nodes.push(plan_key(alloc, key, schema)?)?;
    }
    Ok(nodes)
}

/// Nothing, unless a name stands twice among the keys and then the aggregations.
fn distinct_names(alloc: Global, keys: &[Expr], aggs: &[Expr]) -> Px<()>
    ensures { Meets result (repeat_refusal (map tree keys.now ++ map tree aggs.now)) (Some tt) }
{
    let mut names = IndexSet::new(alloc);
    add_names(alloc, &mut names, keys)?;
    add_names(alloc, &mut names, aggs)
}

/// The nodes of a step over a schema, or the first refusal of the step.
fn plan_step(alloc: Global, schema: &SchemaRef, keys: &[Expr], aggs: &[Expr]) -> Px<GroupNodes>
    ensures { MeetsBy group_plans result (typed_group_refusals schema.now.value (map tree keys.now) (map tree aggs.now))
        (Some (plans_over schema.now.value (map tree keys.now) (map tree aggs.now))) }
{
    if keys.is_empty() {
        return Err(PxError::ComputeError(ComputeWhy::NoKey));
    }
    let key_nodes = plan_keys(alloc, keys, schema)?;
    let agg_nodes = plan_all(alloc, aggs, schema, Context::Aggregation)?;
    distinct_names(alloc, keys, aggs)?;
    Ok(GroupNodes {
        keys: key_nodes,
        aggs: agg_nodes,
    })
}

/// The keys' values, each brought to the frame's height.
fn key_columns<L: Ledger, M: Ledger>(
    alloc: Global,
    frame: &DataFrame,
    keys: &[PhysExpr],
    state: &mut ExecutionState,
    kernels: &mut Steps<L>,
    groupings: &mut Steps<M>,
) -> Px<Vec<Column>>
    requires { AreAccepted (map plan_of keys.now) (beside frame.now state.old) Default }
    ensures answer { FindsBy (λ v. v.items) result (each (key_on (beside frame.now state.old)) (map node_tree keys.now))
        (flat_map (key_faults (beside frame.now state.old)) (map node_tree keys.now)) (greatest (map (λ t. size_on t (beside frame.now state.old ∷ [])) (map node_tree keys.now))) }
    ensures state { state.new ≡ state.old }
    ensures grouped { OnOk result (groupings.new ≡ groupings.old + sum_by windows_in (map node_tree keys.now)) }
    ensures risen { groupings.old ≤ groupings.new }
    ensures within { groupings.new ≤ groupings.old + sum_by windows_in (map node_tree keys.now) }
    ensures ticks { OnOk result (kernels.old + sum_by flat_kernels (map node_tree keys.now) ≤ kernels.new) }
    ensures most { OnOk result (RisesAtMost (costs_on (map node_tree keys.now) (beside frame.now state.old)) kernels.old kernels.new) }
{
    let mut columns = Vec::with_capacity(alloc, keys.len())?;
    for key in keys {
        columns.push(spread_value(alloc, frame, key, state, kernels, groupings)?)?;
    }
    Ok(columns)
}

/// Adds each aggregation's column.
fn push_aggregations<L: Ledger, M: Ledger>(
    alloc: Global,
    columns: &mut Vec<Column>,
    frame: &DataFrame,
    groups: &GroupPositions,
    aggs: &[PhysExpr],
    state: &mut ExecutionState,
    kernels: &mut Steps<L>,
    groupings: &mut Steps<M>,
) -> Px<()>
    requires accepted { AreAccepted (map plan_of aggs.now) (beside frame.now state.old) Aggregation }
    requires height { groups.now.height ≡ height_of frame.now }
    ensures answer { FindsBy (λ _. columns.new.items) result (with_front columns.old.items (each (aggregated_on (beside frame.now state.old) (rows_of groups.now)) (map node_tree aggs.now)))
        (flat_map (agg_faults (beside frame.now state.old) (rows_of groups.now)) (map node_tree aggs.now)) (greatest (map (λ t. size_on t (part_frames (beside frame.now state.old) (rows_of groups.now))) (map node_tree aggs.now))) }
    ensures state { state.new ≡ state.old }
    ensures grouped { groupings.new ≡ groupings.old }
    ensures ticks { OnOk result (kernels.old + sum_by flat_kernels (map node_tree aggs.now) ≤ kernels.new) }
    ensures most { OnOk result (kernels.new ≤ kernels.old + group_costs (map node_tree aggs.now) (length groups.now.groups)) }
{
    for node in aggs {
        let column = aggregate(alloc, frame, groups, node, state, kernels, groupings)?;
        columns.push(column)?;
    }
    Ok(())
}

/// The groups by these columns, of which there is one at least; each has the frame's height and is no
/// list.
fn grouping<M: Ledger>(
    alloc: Global,
    frame: &DataFrame,
    by: &[Column],
    groupings: &mut Steps<M>,
) -> Px<GroupPositions>
    requires some { 0 < length by.now }
    requires keys { list_all (is_key frame.now) by.now ≡ true }
    ensures groups { Answers result (Ok (groups_by by.now (height_of frame.now))) }
    ensures rows { IfOk result (λ g. list_all has_row g.groups ≡ true) }
    ensures grouped { groupings.new ≡ groupings.old + 1 }
{
    group_by(alloc, frame.height(), by, groupings)
}

/// The frame of the groups by these columns, of which there is one at least; each has the frame's
/// height and is no list, and all names of the result are distinct.
fn grouped_frame<L: Ledger, M: Ledger>(
    alloc: Global,
    frame: &DataFrame,
    by: &[Column],
    aggs: &[PhysExpr],
    state: &mut ExecutionState,
    kernels: &mut Steps<L>,
    groupings: &mut Steps<M>,
) -> Px<DataFrame>
    requires some { 0 < length by.now }
    requires keys { list_all (is_key frame.now) by.now ≡ true }
    requires names { first_repeat [] (names_of by.now ++ map name_of (map node_tree aggs.now)) ≡ None }
    requires accepted { AreAccepted (map plan_of aggs.now) (beside frame.now state.old) Aggregation }
    ensures answer { Finds result (columns_on (beside frame.now state.old) (map node_tree aggs.now) by.now)
        (flat_map (agg_faults (beside frame.now state.old) (parts_of by.now (height_of frame.now))) (map node_tree aggs.now))
        (greatest (map (λ t. size_on t (part_frames (beside frame.now state.old) (parts_of by.now (height_of frame.now)))) (map node_tree aggs.now))) }
    ensures short { IfOk result (λ f. height_of f < 2 ^ 32) }
    ensures state { state.new ≡ state.old }
    ensures grouped { groupings.new ≡ groupings.old + 1 }
    ensures ticks { OnOk result (kernels.old + sum_by flat_kernels (map node_tree aggs.now) ≤ kernels.new) }
    ensures most { OnOk result (kernels.new ≤ kernels.old + group_costs (map node_tree aggs.now) (length (parts_of by.now (height_of frame.now)))) }
{
    let groups = grouping(alloc, frame, by, groupings)?;
    let mut columns = key_rows(alloc, by, &groups)?;
    push_aggregations(
        alloc,
        &mut columns,
        frame,
        &groups,
        aggs,
        state,
        kernels,
        groupings,
    )?;
    DataFrame::new(alloc, columns)
}

/// The frame of the groups by these keys. All expressions are planned before the first is evaluated:
/// `NoKey` without a key, then the first refusal of a key or an aggregation from the left, then
/// `Duplicate` with the first name that stands twice; then the faults of values.
pub(crate) fn group_step<L: Ledger, M: Ledger>(
    alloc: Global,
    frame: &DataFrame,
    keys: &[Expr],
    aggs: &[Expr],
    state: &mut ExecutionState,
    kernels: &mut Steps<L>,
    groupings: &mut Steps<M>,
) -> Px<DataFrame>
    ensures answer { StepAnswers result (group (map tree keys.now) (map tree aggs.now) None) (beside frame.now state.old) }
    ensures state { state.new ≡ state.old }
    ensures grouped { OnOk result (groupings.new ≡ groupings.old + groupings_in (group (map tree keys.now) (map tree aggs.now) None)) }
    ensures risen { groupings.old ≤ groupings.new }
    ensures within { groupings.new ≤ groupings.old + groupings_in (group (map tree keys.now) (map tree aggs.now) None) }
    ensures ticks { OnOk result (kernels.old + kernels_in (group (map tree keys.now) (map tree aggs.now) None) ≤ kernels.new) }
    ensures most { OnOk result (RisesAtMost (most_kernels_in (group (map tree keys.now) (map tree aggs.now) None) (beside frame.now state.old)) kernels.old kernels.new) }
{
    let schema = step_schema(alloc, frame, state)?;
    let nodes = plan_step(alloc, &schema, keys, aggs)?;
    let by = key_columns(alloc, frame, &nodes.keys, state, kernels, groupings)?;
    grouped_frame(alloc, frame, &by, &nodes.aggs, state, kernels, groupings)
}
