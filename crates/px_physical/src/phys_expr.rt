//! Nodes of any kind.
ghost use Rattle.std.specs.Prelude.{◌≡◌, ◌+◌, map, Ok, IfOk, IfErr, OnOk, OnErr};
ghost use Rattle.px_column.specs.Prelude.{Answers};
ghost use Rattle.px_frame.specs.CellView.{named_cell};
ghost use Rattle.px_tree.specs.Cost.{all_windows_in, windows_in};
ghost use Rattle.px_tree.specs.Shape.{is_literal_tree, are_literal_trees};
ghost use Rattle.px_window.specs.State.{beside};
ghost use Rattle.px_answers.specs.Counted.{GroupedAllAtMost, GroupedAtMost, RisesAtMost, RunAllAtLeast, RunAllAtMost, RunAllExactly, RunAtMost, RunExactly, costs_on};
ghost use Rattle.px_answers.specs.Live.{all_live_names, added, AddsFront};
ghost use Rattle.px_physical.specs.NodeView.{plan_of};
ghost use Rattle.px_answers.specs.Parts.{plan_trees};
ghost use Rattle.px_answers.specs.Value.{AreCellsOf, IsCause, IsCauseOfAny, IsCellOf};

use crate::aggregation::AggregationExpr;
use crate::alias::AliasExpr;
use crate::apply::ApplyExpr;
use crate::binary::BinaryExpr;
use crate::cast::CastExpr;
use crate::column::ColumnExpr;
use crate::count::CountExpr;
use crate::filter::FilterExpr;
use crate::gather::GatherExpr;
use crate::literal::LiteralExpr;
use crate::physical::PhysicalExpr;
use crate::slice::SliceExpr;
use crate::sort::SortExpr;
use crate::sort_by::SortByExpr;
use crate::ternary::TernaryExpr;
use crate::window::WindowExpr;
use indexmap::IndexSet;
use px_column::{Column, Name, Px, Steps};
use px_context::AggregationContext;
use px_frame::{Cell, DataFrame, Field, GroupPositions, Schema};
use px_plan::Expr;
use px_window::ExecutionState;
use std::alloc::Global;
use std::sync::ledger::Ledger;

/// A node of any kind.
#[cycle(node)]
pub enum PhysExpr {
    /// A column of the frame.
    Column(ColumnExpr),
    /// A value, a range or a column of its own.
    Literal(LiteralExpr),
    /// A node under another name.
    Alias(AliasExpr),
    /// Two nodes combined row by row.
    Binary(BinaryExpr),
    /// One node or another, as a third says.
    Ternary(TernaryExpr),
    /// A node in another type.
    Cast(CastExpr),
    /// A function of nodes.
    Apply(ApplyExpr),
    /// The rows of a node that a mask keeps.
    Filter(FilterExpr),
    /// A window of a node's rows.
    Slice(SliceExpr),
    /// The rows of a node that indices name.
    Gather(GatherExpr),
    /// A node's rows in sorted order.
    Sort(SortExpr),
    /// A node's rows in the order of others.
    SortBy(SortByExpr),
    /// A reduction of a node.
    Aggregation(AggregationExpr),
    /// The number of rows.
    Count(CountExpr),
    /// A node's values on the parts of the rows.
    Window(WindowExpr),
}

/// One call where a node is let go, so that proofs see no case of it.
impl Drop for PhysExpr {
    #[cycle(drop_node)]
    fn drop(self) {
        match self {
            PhysExpr::Column(_node) => {}
            PhysExpr::Literal(_node) => {}
            PhysExpr::Alias(_node) => {}
            PhysExpr::Binary(_node) => {}
            PhysExpr::Ternary(_node) => {}
            PhysExpr::Cast(_node) => {}
            PhysExpr::Apply(_node) => {}
            PhysExpr::Filter(_node) => {}
            PhysExpr::Slice(_node) => {}
            PhysExpr::Gather(_node) => {}
            PhysExpr::Sort(_node) => {}
            PhysExpr::SortBy(_node) => {}
            PhysExpr::Aggregation(_node) => {}
            PhysExpr::Count(_node) => {}
            PhysExpr::Window(_node) => {}
        }
    }
}

impl PhysicalExpr for PhysExpr {
    ghost use Rattle.px_physical.specs.NodeView.{plan_of};

    ghost planned = { plan_of };

    fn as_expression(&self) -> Option<&Expr> {
        match self {
            PhysExpr::Column(node) => node.as_expression(),
            PhysExpr::Literal(node) => node.as_expression(),
            PhysExpr::Alias(node) => node.as_expression(),
            PhysExpr::Binary(node) => node.as_expression(),
            PhysExpr::Ternary(node) => node.as_expression(),
            PhysExpr::Cast(node) => node.as_expression(),
            PhysExpr::Apply(node) => node.as_expression(),
            PhysExpr::Filter(node) => node.as_expression(),
            PhysExpr::Slice(node) => node.as_expression(),
            PhysExpr::Gather(node) => node.as_expression(),
            PhysExpr::Sort(node) => node.as_expression(),
            PhysExpr::SortBy(node) => node.as_expression(),
            PhysExpr::Aggregation(node) => node.as_expression(),
            PhysExpr::Count(node) => node.as_expression(),
            PhysExpr::Window(node) => node.as_expression(),
        }
    }

    #[cycle(evaluate)]
    fn evaluate<L: Ledger, M: Ledger>(
        &self,
        alloc: Global,
        df: &DataFrame,
        state: &mut ExecutionState,
        kernels: &mut Steps<L>,
        groupings: &mut Steps<M>,
    ) -> Px<Column> {
        match self {
            PhysExpr::Column(node) => node.evaluate(alloc, df, state, kernels, groupings),
            PhysExpr::Literal(node) => node.evaluate(alloc, df, state, kernels, groupings),
            PhysExpr::Alias(node) => node.evaluate(alloc, df, state, kernels, groupings),
            PhysExpr::Binary(node) => node.evaluate(alloc, df, state, kernels, groupings),
            PhysExpr::Ternary(node) => node.evaluate(alloc, df, state, kernels, groupings),
            PhysExpr::Cast(node) => node.evaluate(alloc, df, state, kernels, groupings),
            PhysExpr::Apply(node) => node.evaluate(alloc, df, state, kernels, groupings),
            PhysExpr::Filter(node) => node.evaluate(alloc, df, state, kernels, groupings),
            PhysExpr::Slice(node) => node.evaluate(alloc, df, state, kernels, groupings),
            PhysExpr::Gather(node) => node.evaluate(alloc, df, state, kernels, groupings),
            PhysExpr::Sort(node) => node.evaluate(alloc, df, state, kernels, groupings),
            PhysExpr::SortBy(node) => node.evaluate(alloc, df, state, kernels, groupings),
            PhysExpr::Aggregation(node) => node.evaluate(alloc, df, state, kernels, groupings),
            PhysExpr::Count(node) => node.evaluate(alloc, df, state, kernels, groupings),
            PhysExpr::Window(node) => node.evaluate(alloc, df, state, kernels, groupings),
        }
    }

    #[cycle(groups)]
    fn evaluate_on_groups<'a, L: Ledger, M: Ledger>(
        &self,
        alloc: Global,
        df: &'a DataFrame,
        groups: &'a GroupPositions,
        state: &mut ExecutionState,
        kernels: &mut Steps<L>,
        groupings: &mut Steps<M>,
    ) -> Px<AggregationContext<'a>> {
        match self {
            PhysExpr::Column(node) => {
                node.evaluate_on_groups(alloc, df, groups, state, kernels, groupings)
            }
            PhysExpr::Literal(node) => {
                node.evaluate_on_groups(alloc, df, groups, state, kernels, groupings)
            }
            PhysExpr::Alias(node) => {
                node.evaluate_on_groups(alloc, df, groups, state, kernels, groupings)
            }
            PhysExpr::Binary(node) => {
                node.evaluate_on_groups(alloc, df, groups, state, kernels, groupings)
            }
            PhysExpr::Ternary(node) => {
                node.evaluate_on_groups(alloc, df, groups, state, kernels, groupings)
            }
            PhysExpr::Cast(node) => {
                node.evaluate_on_groups(alloc, df, groups, state, kernels, groupings)
            }
            PhysExpr::Apply(node) => {
                node.evaluate_on_groups(alloc, df, groups, state, kernels, groupings)
            }
            PhysExpr::Filter(node) => {
                node.evaluate_on_groups(alloc, df, groups, state, kernels, groupings)
            }
            PhysExpr::Slice(node) => {
                node.evaluate_on_groups(alloc, df, groups, state, kernels, groupings)
            }
            PhysExpr::Gather(node) => {
                node.evaluate_on_groups(alloc, df, groups, state, kernels, groupings)
            }
            PhysExpr::Sort(node) => {
                node.evaluate_on_groups(alloc, df, groups, state, kernels, groupings)
            }
            PhysExpr::SortBy(node) => {
                node.evaluate_on_groups(alloc, df, groups, state, kernels, groupings)
            }
            PhysExpr::Aggregation(node) => {
                node.evaluate_on_groups(alloc, df, groups, state, kernels, groupings)
            }
            PhysExpr::Count(node) => {
                node.evaluate_on_groups(alloc, df, groups, state, kernels, groupings)
            }
            PhysExpr::Window(node) => {
                node.evaluate_on_groups(alloc, df, groups, state, kernels, groupings)
            }
        }
    }

    #[cycle(inline)]
    fn evaluate_inline_impl(&self, alloc: Global, depth_limit: u8) -> Px<Option<Column>> {
        match self {
            PhysExpr::Column(node) => node.evaluate_inline_impl(alloc, depth_limit),
            PhysExpr::Literal(node) => node.evaluate_inline_impl(alloc, depth_limit),
            PhysExpr::Alias(node) => node.evaluate_inline_impl(alloc, depth_limit),
            PhysExpr::Binary(node) => node.evaluate_inline_impl(alloc, depth_limit),
            PhysExpr::Ternary(node) => node.evaluate_inline_impl(alloc, depth_limit),
            PhysExpr::Cast(node) => node.evaluate_inline_impl(alloc, depth_limit),
            PhysExpr::Apply(node) => node.evaluate_inline_impl(alloc, depth_limit),
            PhysExpr::Filter(node) => node.evaluate_inline_impl(alloc, depth_limit),
            PhysExpr::Slice(node) => node.evaluate_inline_impl(alloc, depth_limit),
            PhysExpr::Gather(node) => node.evaluate_inline_impl(alloc, depth_limit),
            PhysExpr::Sort(node) => node.evaluate_inline_impl(alloc, depth_limit),
            PhysExpr::SortBy(node) => node.evaluate_inline_impl(alloc, depth_limit),
            PhysExpr::Aggregation(node) => node.evaluate_inline_impl(alloc, depth_limit),
            PhysExpr::Count(node) => node.evaluate_inline_impl(alloc, depth_limit),
            PhysExpr::Window(node) => node.evaluate_inline_impl(alloc, depth_limit),
        }
    }

    #[cycle(field)]
    fn to_field(&self, alloc: Global, input_schema: &Schema) -> Px<Field> {
        match self {
            PhysExpr::Column(node) => node.to_field(alloc, input_schema),
            PhysExpr::Literal(node) => node.to_field(alloc, input_schema),
            PhysExpr::Alias(node) => node.to_field(alloc, input_schema),
            PhysExpr::Binary(node) => node.to_field(alloc, input_schema),
            PhysExpr::Ternary(node) => node.to_field(alloc, input_schema),
            PhysExpr::Cast(node) => node.to_field(alloc, input_schema),
            PhysExpr::Apply(node) => node.to_field(alloc, input_schema),
            PhysExpr::Filter(node) => node.to_field(alloc, input_schema),
            PhysExpr::Slice(node) => node.to_field(alloc, input_schema),
            PhysExpr::Gather(node) => node.to_field(alloc, input_schema),
            PhysExpr::Sort(node) => node.to_field(alloc, input_schema),
            PhysExpr::SortBy(node) => node.to_field(alloc, input_schema),
            PhysExpr::Aggregation(node) => node.to_field(alloc, input_schema),
            PhysExpr::Count(node) => node.to_field(alloc, input_schema),
            PhysExpr::Window(node) => node.to_field(alloc, input_schema),
        }
    }

    #[cycle(live)]
    fn collect_live_columns(&self, alloc: Global, lv: &mut IndexSet<Name>) -> Px<()> {
        match self {
            PhysExpr::Column(node) => node.collect_live_columns(alloc, lv),
            PhysExpr::Literal(node) => node.collect_live_columns(alloc, lv),
            PhysExpr::Alias(node) => node.collect_live_columns(alloc, lv),
            PhysExpr::Binary(node) => node.collect_live_columns(alloc, lv),
            PhysExpr::Ternary(node) => node.collect_live_columns(alloc, lv),
            PhysExpr::Cast(node) => node.collect_live_columns(alloc, lv),
            PhysExpr::Apply(node) => node.collect_live_columns(alloc, lv),
            PhysExpr::Filter(node) => node.collect_live_columns(alloc, lv),
            PhysExpr::Slice(node) => node.collect_live_columns(alloc, lv),
            PhysExpr::Gather(node) => node.collect_live_columns(alloc, lv),
            PhysExpr::Sort(node) => node.collect_live_columns(alloc, lv),
            PhysExpr::SortBy(node) => node.collect_live_columns(alloc, lv),
            PhysExpr::Aggregation(node) => node.collect_live_columns(alloc, lv),
            PhysExpr::Count(node) => node.collect_live_columns(alloc, lv),
            PhysExpr::Window(node) => node.collect_live_columns(alloc, lv),
        }
    }

    #[cycle(literal)]
    fn is_literal(&self) -> bool {
        match self {
            PhysExpr::Column(node) => node.is_literal(),
            PhysExpr::Literal(node) => node.is_literal(),
            PhysExpr::Alias(node) => node.is_literal(),
            PhysExpr::Binary(node) => node.is_literal(),
            PhysExpr::Ternary(node) => node.is_literal(),
            PhysExpr::Cast(node) => node.is_literal(),
            PhysExpr::Apply(node) => node.is_literal(),
            PhysExpr::Filter(node) => node.is_literal(),
            PhysExpr::Slice(node) => node.is_literal(),
            PhysExpr::Gather(node) => node.is_literal(),
            PhysExpr::Sort(node) => node.is_literal(),
            PhysExpr::SortBy(node) => node.is_literal(),
            PhysExpr::Aggregation(node) => node.is_literal(),
            PhysExpr::Count(node) => node.is_literal(),
            PhysExpr::Window(node) => node.is_literal(),
        }
    }

    #[cycle(scalar)]
    fn is_scalar(&self) -> bool {
        match self {
            PhysExpr::Column(node) => node.is_scalar(),
            PhysExpr::Literal(node) => node.is_scalar(),
            PhysExpr::Alias(node) => node.is_scalar(),
            PhysExpr::Binary(node) => node.is_scalar(),
            PhysExpr::Ternary(node) => node.is_scalar(),
            PhysExpr::Cast(node) => node.is_scalar(),
            PhysExpr::Apply(node) => node.is_scalar(),
            PhysExpr::Filter(node) => node.is_scalar(),
            PhysExpr::Slice(node) => node.is_scalar(),
            PhysExpr::Gather(node) => node.is_scalar(),
            PhysExpr::Sort(node) => node.is_scalar(),
            PhysExpr::SortBy(node) => node.is_scalar(),
            PhysExpr::Aggregation(node) => node.is_scalar(),
            PhysExpr::Count(node) => node.is_scalar(),
            PhysExpr::Window(node) => node.is_scalar(),
        }
    }

    fn is_partitioned_aggregator(&self) -> bool {
        match self {
            PhysExpr::Column(node) => node.is_partitioned_aggregator(),
            PhysExpr::Literal(node) => node.is_partitioned_aggregator(),
            PhysExpr::Alias(node) => node.is_partitioned_aggregator(),
            PhysExpr::Binary(node) => node.is_partitioned_aggregator(),
            PhysExpr::Ternary(node) => node.is_partitioned_aggregator(),
            PhysExpr::Cast(node) => node.is_partitioned_aggregator(),
            PhysExpr::Apply(node) => node.is_partitioned_aggregator(),
            PhysExpr::Filter(node) => node.is_partitioned_aggregator(),
            PhysExpr::Slice(node) => node.is_partitioned_aggregator(),
            PhysExpr::Gather(node) => node.is_partitioned_aggregator(),
            PhysExpr::Sort(node) => node.is_partitioned_aggregator(),
            PhysExpr::SortBy(node) => node.is_partitioned_aggregator(),
            PhysExpr::Aggregation(node) => node.is_partitioned_aggregator(),
            PhysExpr::Count(node) => node.is_partitioned_aggregator(),
            PhysExpr::Window(node) => node.is_partitioned_aggregator(),
        }
    }
}

/// A node's value on a frame as a cell: a unit where the node has one value, and else its rows.
/// Errors and counters are those of `evaluate`.
#[tactic(auto, using(px_answers::proofs::Cells::value_is_cell))]
#[cycle(evaluate)]
pub fn evaluate_cell<L: Ledger, M: Ledger>(
    alloc: Global,
    node: &PhysExpr,
    df: &DataFrame,
    state: &mut ExecutionState,
    kernels: &mut Steps<L>,
    groupings: &mut Steps<M>,
) -> Px<Cell>
    ensures value { IfOk result (λ c. IsCellOf (plan_of node.now) (beside df.now state.old) (named_cell c)) }
    ensures causes { IfErr result (λ e. IsCause e (plan_of node.now) (beside df.now state.old)) }
    ensures frame { state.new ≡ state.old }
    ensures grouped { OnOk result (groupings.new ≡ groupings.old + windows_in (plan_of node.now).tree) }
    ensures grouped_most { GroupedAtMost (plan_of node.now).tree groupings.old groupings.new }
    ensures ticks { OnOk result (RunExactly (plan_of node.now).tree kernels.old kernels.new) }
    ensures cost { RunAtMost (plan_of node.now).tree (beside df.now state.old) kernels.old kernels.new }
{
    let column = node.evaluate(alloc, df, state, kernels, groupings)?;
    Ok(Cell::new(column, node.is_scalar()))
}

/// The values of some nodes on a frame as cells, in their order, or why one of them has none.
/// `kernels` rises at least by the kernels of the flat ones, and at most by the costs of all.
#[cycle(evaluate)]
#[tactic(auto, using(crate::proofs::CellsInOrder::front_none, crate::proofs::CellsInOrder::none_ran))]
pub fn evaluate_cells<L: Ledger, M: Ledger>(
    alloc: Global,
    nodes: &[PhysExpr],
    df: &DataFrame,
    state: &mut ExecutionState,
    kernels: &mut Steps<L>,
    groupings: &mut Steps<M>,
) -> Px<Vec<Cell>>
    ensures value { IfOk result (λ v. AreCellsOf (map plan_of nodes.now) (beside df.now state.old) (map named_cell v.items)) }
    ensures causes { IfErr result (λ e. IsCauseOfAny e (map plan_of nodes.now) (beside df.now state.old)) }
    ensures frame { state.new ≡ state.old }
    ensures grouped { OnOk result (groupings.new ≡ groupings.old + all_windows_in (plan_trees (map plan_of nodes.now))) }
    ensures grouped_most { GroupedAllAtMost (plan_trees (map plan_of nodes.now)) groupings.old groupings.new }
    ensures ticks { OnOk result (RunAllExactly (plan_trees (map plan_of nodes.now)) kernels.old kernels.new) }
    ensures least { OnOk result (RunAllAtLeast (map plan_of nodes.now) kernels.old kernels.new) }
    ensures most { RisesAtMost (costs_on (map (λ n. (plan_of n).tree) nodes.now) (beside df.now state.old)) kernels.old kernels.new }
    ensures cost { RunAllAtMost (plan_trees (map plan_of nodes.now)) kernels.old kernels.new }
{
    let mut cells = Vec::with_capacity(alloc, nodes.len())?;
    for node in nodes {
        cells.push(evaluate_cell(alloc, node, df, state, kernels, groupings)?)?;
    }
    Ok(cells)
}

/// Adds the names of the columns that some nodes read and those that their aliases give, in the order
/// of visit. Out of memory, the names that were added so far stay.
#[cycle(live)]
pub(crate) fn collect_all(alloc: Global, nodes: &[PhysExpr], lv: &mut IndexSet<Name>) -> Px<()>
    ensures answer { Answers result (Ok tt) }
    ensures live { OnOk result (lv.new.keys ≡ added lv.old.keys (all_live_names (plan_trees (map plan_of nodes.now)))) }
    ensures part { OnErr result (AddsFront lv.old.keys (all_live_names (plan_trees (map plan_of nodes.now))) lv.new.keys) }
{
    for node in nodes {
        node.collect_live_columns(alloc, lv)?;
    }
    Ok(())
}

/// Whether each leaf of a node's expression is a literal.
#[cycle(lit)]
pub fn has_literals_alone(node: &PhysExpr) -> bool
    ensures { result ≡ is_literal_tree (plan_of node.now).tree }
{
    match node {
        PhysExpr::Column(node) => node.has_literals_alone(),
        PhysExpr::Literal(node) => node.has_literals_alone(),
        PhysExpr::Alias(node) => has_literals_alone(node.physical_expr()),
        PhysExpr::Binary(node) => {
            has_literals_alone(node.left()) && has_literals_alone(node.right())
        }
        PhysExpr::Ternary(node) => {
            has_literals_alone(node.predicate())
                && has_literals_alone(node.truthy())
                && has_literals_alone(node.falsy())
        }
        PhysExpr::Cast(node) => has_literals_alone(node.input()),
        PhysExpr::Apply(node) => node.has_literals_alone(),
        PhysExpr::Filter(node) => has_literals_alone(node.input()) && has_literals_alone(node.by()),
        PhysExpr::Slice(node) => {
            has_literals_alone(node.input())
                && has_literals_alone(node.offset())
                && has_literals_alone(node.length())
        }
        PhysExpr::Gather(node) => {
            has_literals_alone(node.phys_expr()) && has_literals_alone(node.idx())
        }
        PhysExpr::Sort(node) => has_literals_alone(node.physical_expr()),
        PhysExpr::SortBy(node) => node.has_literals_alone(),
        PhysExpr::Aggregation(node) => has_literals_alone(node.expr()),
        PhysExpr::Count(node) => node.has_literals_alone(),
        PhysExpr::Window(node) => node.has_literals_alone(),
    }
}

/// The same of each of some nodes.
#[cycle(lit)]
pub(crate) fn have_literals_alone(nodes: &[PhysExpr]) -> bool
    ensures { result ≡ are_literal_trees (plan_trees (map plan_of nodes.now)) }
{
    for node in nodes {
        if !has_literals_alone(node) {
            return false;
        }
    }
    true
}
