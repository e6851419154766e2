//! Rows in the order of others.
ghost use Rattle.std.specs.Prelude.{◌≡◌, map};
ghost use Rattle.px_tree.specs.Shape.{has_implode, is_literal_tree};
ghost use Rattle.px_tree.specs.Tree.{sort_by};
ghost use Rattle.px_tree.specs.View.{tree};
ghost use Rattle.px_physical.specs.NodeView.{plan_of};
ghost use Rattle.px_answers.specs.Parts.{sort_by_plan, plan_trees};

use crate::child::Child;
use crate::on_groups::{accept_rows, contexts_on_groups, has_implode, have_implode};
use crate::phys_expr::{
    PhysExpr, collect_all, evaluate_cell, evaluate_cells, has_literals_alone, have_literals_alone,
};
use crate::physical::{PhysicalExpr, expression_field};
use indexmap::IndexSet;
use px_column::{Column, Name, Px, SortMultipleOptions, Steps};
use px_context::AggregationContext;
use px_frame::{DataFrame, Field, GroupPositions, Schema};
use px_group_nodes::sort_by_groups;
use px_nodes::sort_by_cells;
use px_plan::Expr;
use px_window::ExecutionState;
use std::alloc::Global;
use std::marker::Model;
use std::rc::Rc;
use std::sync::ledger::Ledger;

/// The rows of a node in the order of others (polars `SortByExpr`).
#[cycle(node)]
#[derive(Drop)]
pub struct SortByExpr {
    input: Child,
    by: Vec<PhysExpr>,
    expr: Rc<Expr>,
    sort_options: SortMultipleOptions,
}

impl Model for SortByExpr {
    ghost use Rattle.px_answers.specs.Parts.{PlannedSortBy, coded_sort_by};

    ghost Value = { PlannedSortBy };

    ghost coded = { coded_sort_by };

    ghost use Rattle.std.specs.Prelude.{◌≡◌, map};
    ghost use Rattle.px_tree.specs.Tree.{sort_by};
    ghost use Rattle.px_tree.specs.View.{tree};
    ghost use Rattle.px_physical.specs.NodeView.{plan_of};
    ghost use Rattle.px_answers.specs.Parts.{plan_trees};
    ghost use Rattle.px_physical.specs.Size.{sort_by_size};

    ghost view = { λ a. record { input = plan_of a.input.node.value; by = map plan_of a.by.items; sort_options = a.sort_options } };

    ghost invariant = { λ a. tree a.expr.value ≡ sort_by (plan_of a.input.node.value).tree (plan_trees (map plan_of a.by.items)) a.sort_options };

    ghost size = { sort_by_size };

    ghost use Rattle.px_physical.specs.Deep.{falls_sort_by};

    ghost size_decreases = { falls_sort_by };
}

impl SortByExpr {
    /// A node's rows in the order of other nodes; the expression is that sort. Flags that are missing are
    /// those of the first key.
    pub fn new(
        input: Box<PhysExpr>,
        by: Vec<PhysExpr>,
        expr: Rc<Expr>,
        sort_options: SortMultipleOptions,
    ) -> SortByExpr
        requires tree { tree expr.value ≡ sort_by (plan_of input.value).tree (plan_trees (map plan_of by.items)) sort_options }
        ensures { result ≡ record { input = plan_of input.value; by = map plan_of by.items; sort_options = sort_options } }
    {
        SortByExpr {
            input: Child { node: input },
            by,
            expr,
            sort_options,
        }
    }

    /// The node whose rows are sorted.
    pub fn input(&self) -> &PhysExpr
        ensures { plan_of result.now ≡ self.now.input }
    {
        &self.input.node
    }

    /// The keys.
    pub fn by(&self) -> &[PhysExpr]
        ensures { map plan_of result.now ≡ self.now.by }
    {
        &self.by
    }

    /// How they are sorted.
    pub fn sort_options(&self) -> &SortMultipleOptions
        ensures { result.now ≡ self.now.sort_options }
    {
        &self.sort_options
    }

    /// The expression.
    pub fn expr(&self) -> &Expr
        ensures { tree result.now ≡ (sort_by_plan self.now).tree }
    {
        &self.expr
    }

    /// Whether each leaf of its inputs is a literal.
    #[cycle(lit)]
    pub(crate) fn has_literals_alone(&self) -> bool
        ensures { result ≡ is_literal_tree (sort_by_plan self.now).tree }
    {
        has_literals_alone(&self.input.node) && have_literals_alone(&self.by)
    }

    /// Whether an Implode stands in its inputs.
    #[cycle(implode)]
    pub(crate) fn has_implode(&self) -> bool
        ensures { result ≡ has_implode (sort_by_plan self.now).tree }
    {
        has_implode(&self.input.node) || have_implode(&self.by)
    }
}

impl PhysicalExpr for SortByExpr {
    ghost use Rattle.px_answers.specs.Parts.{sort_by_plan};

    ghost planned = { sort_by_plan };

    fn as_expression(&self) -> Option<&Expr> {
        Some(&self.expr)
    }

    #[cycle(evaluate)]
    #[tactic(auto, using(px_answers::proofs::SortedBy::sort_by_value, px_answers::proofs::SortedBy::sort_by_refusal, px_answers::proofs::SortedBy::sort_by_input_cause, px_answers::proofs::SortedBy::sort_by_key_cause, crate::proofs::CellsInOrder::sort_by_ticks, crate::proofs::CellsInOrder::sort_by_cost))]
    fn evaluate<L: Ledger, M: Ledger>(
        &self,
        alloc: Global,
        df: &DataFrame,
        state: &mut ExecutionState,
        kernels: &mut Steps<L>,
        groupings: &mut Steps<M>,
    ) -> Px<Column> {
        let by = evaluate_cells(alloc, &self.by, df, state, kernels, groupings)?;
        let input = evaluate_cell(alloc, &self.input.node, df, state, kernels, groupings)?;
        Ok(sort_by_cells(alloc, input, by, &self.sort_options, kernels)?.into_column())
    }

    #[cycle(groups)]
    fn evaluate_on_groups<'a, L: Ledger, M: Ledger>(
        &self,
        alloc: Global,
        df: &'a DataFrame,
        groups: &'a GroupPositions,
        state: &mut ExecutionState,
        kernels: &mut Steps<L>,
        groupings: &mut Steps<M>,
    ) -> Px<AggregationContext<'a>> {
        let by = contexts_on_groups(alloc, &self.by, df, groups, state, kernels, groupings)?;
        let input = self
            .input
            .node
            .evaluate_on_groups(alloc, df, groups, state, kernels, groupings)?;
        accept_rows(&self.input.node)?;
        sort_by_groups(alloc, input, by, &self.sort_options, kernels)
    }

    fn evaluate_inline_impl(&self, alloc: Global, depth_limit: u8) -> Px<Option<Column>> {
        let _ = &self.expr;
        Ok(None)
    }

    fn to_field(&self, alloc: Global, input_schema: &Schema) -> Px<Field> {
        expression_field(alloc, &self.expr, input_schema)
    }

    #[cycle(live)]
    fn collect_live_columns(&self, alloc: Global, lv: &mut IndexSet<Name>) -> Px<()> {
        self.input.node.collect_live_columns(alloc, lv)?;
        collect_all(alloc, &self.by, lv)
    }

    fn is_literal(&self) -> bool {
        let _ = &self.expr;
        false
    }

    fn is_scalar(&self) -> bool {
        let _ = &self.expr;
        false
    }

    fn is_partitioned_aggregator(&self) -> bool {
        let _ = &self.expr;
        false
    }
}
