//! Functions of the parts of the rows.
ghost use Rattle.std.specs.Prelude.{◌≡◌, ◌+◌, [], IfErr, IfOk, Ok, OnErr, OnOk, map, option_map, option_to_list};
ghost use Rattle.px_column.specs.Prelude.{Answers};
ghost use Rattle.px_tree.specs.Cost.{order_windows_in};
ghost use Rattle.px_tree.specs.Shape.{has_implode, has_implode_order, is_literal_order, is_literal_tree};
ghost use Rattle.px_tree.specs.Tree.{window};
ghost use Rattle.px_tree.specs.View.{tree};
ghost use Rattle.px_answers.specs.Live.{AddsFront, added, order_live_names};
ghost use Rattle.px_answers.specs.Parts.{plan_order, plan_trees, under, window_plan};
ghost use Rattle.px_window.specs.State.{beside};
ghost use Rattle.px_window_node.specs.Grouped.{order_cell};
ghost use Rattle.px_window_node.specs.Inputs.{GroupedOrderAtMost, IsOrderOf, RunOrderAtMost, named_out};
ghost use Rattle.px_physical.specs.NodeView.{order_of, plan_of};
ghost use Rattle.px_physical.specs.Ordered.{IsOrderCause};

use crate::child::Child;
use crate::on_groups::{has_implode, have_implode};
use crate::phys_expr::{
    PhysExpr, collect_all, evaluate_cell, evaluate_cells, has_literals_alone, have_literals_alone,
};
use crate::physical::{PhysicalExpr, expression_field};
use indexmap::IndexSet;
use px_column::{Column, InvalidWhy, Name, Px, PxError, SortOptions, Steps};
use px_context::AggregationContext;
use px_frame::{Cell, DataFrame, Field, GroupPositions, GroupsType, Schema};
use px_plan::{Context, Expr, WindowMapping, type_of};
use px_scope::scope_beside;
use px_window::ExecutionState;
use px_window_node::{place_window, window_parts};
use std::alloc::Global;
use std::marker::Model;
use std::rc::Rc;
use std::sync::ledger::Ledger;

/// A node's values on the parts of the rows by other nodes (polars `WindowExpr`).
#[cycle(node)]
#[derive(Drop)]
pub struct WindowExpr {
    group_by: Vec<PhysExpr>,
    order_by: Option<(Box<PhysExpr>, SortOptions)>,
    out_name: Option<Name>,
    function: Rc<Expr>,
    phys_function: Child,
    mapping: WindowMapping,
    expr: Rc<Expr>,
}

impl Model for WindowExpr {
    ghost use Rattle.px_answers.specs.Parts.{PlannedWindow, coded_window};

    ghost Value = { PlannedWindow };

    ghost coded = { coded_window };

    ghost use Rattle.std.specs.Prelude.{◌≡◌, map};
    ghost use Rattle.px_tree.specs.Tree.{window};
    ghost use Rattle.px_tree.specs.View.{tree};
    ghost use Rattle.px_physical.specs.NodeView.{order_of, plan_of};
    ghost use Rattle.px_answers.specs.Parts.{plan_order, plan_trees, under};
    ghost use Rattle.px_physical.specs.Size.{window_size};

    ghost view = { λ a. record { group_by = map plan_of a.group_by.items; order_by = order_of a.order_by; out_name = a.out_name; phys_function = plan_of a.phys_function.node.value; mapping = a.mapping } };

    ghost invariant = { λ a. (tree a.expr.value ≡ window (under a.out_name (plan_of a.phys_function.node.value).tree) (plan_trees (map plan_of a.group_by.items)) (plan_order (order_of a.order_by)) a.mapping) × (tree a.function.value ≡ (plan_of a.phys_function.node.value).tree) };

    ghost size = { window_size };

    ghost use Rattle.px_physical.specs.Deep.{falls_window};

    ghost size_decreases = { falls_window };
}

impl WindowExpr {
    /// A node's values on the parts of the rows by these nodes, each part in the order of another, put in
    /// their places by `mapping`, under a name if one is given; `function` is the node's expression, and
    /// `expr` that of the window.
    pub fn new(
        group_by: Vec<PhysExpr>,
        order_by: Option<(Box<PhysExpr>, SortOptions)>,
        out_name: Option<Name>,
        function: Rc<Expr>,
        phys_function: Box<PhysExpr>,
        mapping: WindowMapping,
        expr: Rc<Expr>,
    ) -> WindowExpr
        requires tree { tree expr.value ≡ window (under out_name (plan_of phys_function.value).tree) (plan_trees (map plan_of group_by.items)) (plan_order (order_of order_by)) mapping }
        requires function { tree function.value ≡ (plan_of phys_function.value).tree }
        ensures { result ≡ record { group_by = map plan_of group_by.items; order_by = order_of order_by; out_name = out_name; phys_function = plan_of phys_function.value; mapping = mapping } }
    {
        WindowExpr {
            group_by,
            order_by,
            out_name,
            function,
            phys_function: Child {
                node: phys_function,
            },
            mapping,
            expr,
        }
    }

    /// The keys of the parts.
    pub fn group_by(&self) -> &[PhysExpr]
        ensures { map plan_of result.now ≡ self.now.group_by }
    {
        &self.group_by
    }

    /// What the rows of a part are ordered by, and how.
    pub fn order_by(&self) -> Option<(&PhysExpr, &SortOptions)>
        ensures { option_map (λ o. (plan_of o.0.now, o.1.now)) result ≡ self.now.order_by }
    {
        match &self.order_by {
            None => None,
            Some((key, options)) => Some((key, options)),
        }
    }

    /// The result's name, where it is another than the function's.
    pub fn out_name(&self) -> Option<&Name>
        ensures { option_map (λ n. n.now) result ≡ self.now.out_name }
    {
        self.out_name.as_ref()
    }

    /// The expression of the function.
    pub fn function(&self) -> &Expr
        ensures { tree result.now ≡ self.now.phys_function.tree }
    {
        &self.function
    }

    /// The function.
    pub fn phys_function(&self) -> &PhysExpr
        ensures { plan_of result.now ≡ self.now.phys_function }
    {
        &self.phys_function.node
    }

    /// Where what the function has for each part stands.
    pub fn mapping(&self) -> WindowMapping
        ensures { result ≡ self.now.mapping }
    {
        self.mapping
    }

    /// The expression.
    pub fn expr(&self) -> &Expr
        ensures { tree result.now ≡ (window_plan self.now).tree }
    {
        &self.expr
    }

    /// Whether each leaf of its inputs is a literal.
    #[cycle(lit)]
    pub(crate) fn has_literals_alone(&self) -> bool
        ensures { result ≡ is_literal_tree (window_plan self.now).tree }
    {
        let keys = have_literals_alone(&self.group_by);
        has_literals_alone(&self.phys_function.node) && keys && is_literal_order(&self.order_by)
    }

    /// Whether an Implode stands in its inputs.
    #[cycle(implode)]
    pub(crate) fn has_implode(&self) -> bool
        ensures { result ≡ has_implode (window_plan self.now).tree }
    {
        let keys = have_implode(&self.group_by);
        has_implode(&self.phys_function.node) || keys || has_implode_order(&self.order_by)
    }
}

/// Whether each leaf of what rows are ordered by is a literal, as it is without an order.
#[cycle(lit)]
fn is_literal_order(order: &Option<(Box<PhysExpr>, SortOptions)>) -> bool
    ensures { result ≡ is_literal_order (plan_order (order_of order.now)) }
{
    match order {
        None => true,
        Some((key, _)) => has_literals_alone(key),
    }
}

/// Whether an Implode stands in what rows are ordered by.
#[cycle(implode)]
fn has_implode_order(order: &Option<(Box<PhysExpr>, SortOptions)>) -> bool
    ensures { result ≡ has_implode_order (plan_order (order_of order.now)) }
{
    match order {
        None => false,
        Some((key, _)) => has_implode(key),
    }
}

/// The value of what rows are ordered by as a cell, beside how; none where nothing orders them.
#[cycle(evaluate)]
fn evaluate_order<L: Ledger, M: Ledger>(
    alloc: Global,
    order: &Option<(Box<PhysExpr>, SortOptions)>,
    df: &DataFrame,
    state: &mut ExecutionState,
    kernels: &mut Steps<L>,
    groupings: &mut Steps<M>,
) -> Px<Option<(Cell, SortOptions)>>
    ensures value { IfOk result (λ o. IsOrderOf (order_of order.now) (beside df.now state.old) (order_cell o)) }
    ensures causes { IfErr result (λ e. IsOrderCause e (order_of order.now) (beside df.now state.old)) }
    ensures frame { state.new ≡ state.old }
    ensures grouped { OnOk result (groupings.new ≡ groupings.old + order_windows_in (plan_order (order_of order.now))) }
    ensures grouped_most { GroupedOrderAtMost (order_of order.now) groupings.old groupings.new }
    ensures cost { RunOrderAtMost (order_of order.now) (beside df.now state.old) kernels.old kernels.new }
{
    match order {
        None => Ok(None),
        Some((key, options)) => {
            let cell = evaluate_cell(alloc, key, df, state, kernels, groupings)?;
            Ok(Some((cell, *options)))
        }
    }
}

/// Adds the names of what rows are ordered by.
#[cycle(live)]
fn collect_order(
    alloc: Global,
    order: &Option<(Box<PhysExpr>, SortOptions)>,
    lv: &mut IndexSet<Name>,
) -> Px<()>
    ensures answer { Answers result (Ok tt) }
    ensures live { OnOk result (lv.new.keys ≡ added lv.old.keys (order_live_names (plan_order (order_of order.now)))) }
    ensures part { OnErr result (AddsFront lv.old.keys (order_live_names (plan_order (order_of order.now))) lv.new.keys) }
{
    match order {
        None => Ok(()),
        Some((key, _)) => key.collect_live_columns(alloc, lv),
    }
}

/// Adds the name that a window's result is given, if any.
fn add_out_name(alloc: Global, name: &Option<Name>, lv: &mut IndexSet<Name>) -> Px<()>
    ensures answer { Answers result (Ok tt) }
    ensures live { OnOk result (lv.new.keys ≡ added lv.old.keys (option_to_list name.now)) }
    ensures part { OnErr result (lv.new.keys ≡ lv.old.keys) }
{
    if let Some(name) = name {
        lv.insert_full(name.try_clone(alloc)?)?;
    }
    Ok(())
}

/// A column under the name that it is given, if any.
fn under_name(alloc: Global, column: Column, name: &Option<Name>) -> Px<Column>
    ensures { Answers result (Ok (named_out name.now column)) }
{
    match name {
        None => Ok(column),
        Some(name) => Ok(column.with_name(name.try_clone(alloc)?)),
    }
}

/// No groups of so many rows.
fn no_groups(alloc: Global, height: u32) -> Px<GroupPositions>
    ensures { Answers result (Ok (record { height = height; groups = [] })) }
{
    GroupPositions::new(GroupsType::Idx(Vec::new(alloc)), height)
}

impl PhysicalExpr for WindowExpr {
    ghost use Rattle.px_answers.specs.Parts.{window_plan};

    ghost planned = { window_plan };

    fn as_expression(&self) -> Option<&Expr> {
        Some(&self.expr)
    }

    #[tactic(auto, using(px_window_node::proofs::Apart::window_key_cause, crate::proofs::Windowed::order_cause, px_window_node::proofs::Counted::window_ticks))]
    #[cycle(evaluate)]
    fn evaluate<L: Ledger, M: Ledger>(
        &self,
        alloc: Global,
        df: &DataFrame,
        state: &mut ExecutionState,
        kernels: &mut Steps<L>,
        groupings: &mut Steps<M>,
    ) -> Px<Column> {
        let keys = evaluate_cells(alloc, &self.group_by, df, state, kernels, groupings)?;
        let order = evaluate_order(alloc, &self.order_by, df, state, kernels, groupings)?;
        let branch = state.branch_idx;
        let height = df.height();
        let parts = match window_parts(alloc, height, branch, keys, order, kernels, groupings) {
            Ok(parts) => parts,
            Err(refusal) => {
                // The function's own refusals come first: it has them on no groups too.
                let none = no_groups(alloc, height)?;
                self.phys_function
                    .node
                    .evaluate_on_groups(alloc, df, &none, state, kernels, groupings)?;
                return Err(refusal);
            }
        };
        let mut context = self
            .phys_function
            .node
            .evaluate_on_groups(alloc, df, &parts, state, kernels, groupings)?;
        let column = place_window(alloc, &mut context, &parts, self.mapping)?;
        under_name(alloc, column, &self.out_name)
    }

    fn evaluate_on_groups<'a, L: Ledger, M: Ledger>(
        &self,
        alloc: Global,
        df: &'a DataFrame,
        groups: &'a GroupPositions,
        state: &mut ExecutionState,
        kernels: &mut Steps<L>,
        groupings: &mut Steps<M>,
    ) -> Px<AggregationContext<'a>> {
        // No window stands on groups: typing tells the first refusal.
        let scope = scope_beside(alloc, df, state)?;
        type_of(alloc, &self.expr, &scope, Context::Aggregation)?;
        Err(PxError::InvalidOperation(InvalidWhy::WindowOnGroups))
    }

    fn evaluate_inline_impl(&self, alloc: Global, depth_limit: u8) -> Px<Option<Column>> {
        let _ = &self.expr;
        Ok(None)
    }

    fn to_field(&self, alloc: Global, input_schema: &Schema) -> Px<Field> {
        expression_field(alloc, &self.expr, input_schema)
    }

    #[cycle(live)]
    fn collect_live_columns(&self, alloc: Global, lv: &mut IndexSet<Name>) -> Px<()> {
        collect_all(alloc, &self.group_by, lv)?;
        collect_order(alloc, &self.order_by, lv)?;
        self.phys_function.node.collect_live_columns(alloc, lv)?;
        add_out_name(alloc, &self.out_name, lv)
    }

    fn is_literal(&self) -> bool {
        let _ = &self.expr;
        false
    }

    fn is_scalar(&self) -> bool {
        let _ = &self.expr;
        false
    }

    fn is_partitioned_aggregator(&self) -> bool {
        let _ = &self.expr;
        false
    }
}
