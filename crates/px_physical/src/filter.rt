//! Rows that a mask keeps.
ghost use Rattle.std.specs.Prelude.{◌≡◌};
ghost use Rattle.px_tree.specs.Tree.{filter};
ghost use Rattle.px_tree.specs.View.{tree};
ghost use Rattle.px_physical.specs.NodeView.{plan_of};
ghost use Rattle.px_answers.specs.Parts.{filter_plan};

use crate::child::Child;
use crate::on_groups::accept_rows;
use crate::phys_expr::{PhysExpr, evaluate_cell};
use crate::physical::{PhysicalExpr, expression_field};
use indexmap::IndexSet;
use px_column::{Column, Name, Px, Steps};
use px_context::AggregationContext;
use px_frame::{DataFrame, Field, GroupPositions, Schema};
use px_group_nodes::filter_groups;
use px_nodes::filter_cells;
use px_plan::Expr;
use px_window::ExecutionState;
use std::alloc::Global;
use std::marker::Model;
use std::rc::Rc;
use std::sync::ledger::Ledger;

/// The rows for which a mask is true (polars `FilterExpr`).
#[cycle(node)]
#[derive(Drop)]
pub struct FilterExpr {
    input: Child,
    by: Child,
    expr: Rc<Expr>,
}

impl Model for FilterExpr {
    ghost use Rattle.px_answers.specs.Parts.{PlannedFilter, coded_filter};

    ghost Value = { PlannedFilter };

    ghost coded = { coded_filter };

    ghost use Rattle.std.specs.Prelude.{◌≡◌};
    ghost use Rattle.px_tree.specs.Tree.{filter};
    ghost use Rattle.px_tree.specs.View.{tree};
    ghost use Rattle.px_physical.specs.NodeView.{plan_of};
    ghost use Rattle.px_physical.specs.Size.{filter_size};

    ghost view = { λ a. record { input = plan_of a.input.node.value; by = plan_of a.by.node.value } };

    ghost invariant = { λ a. tree a.expr.value ≡ filter (plan_of a.input.node.value).tree (plan_of a.by.node.value).tree };

    ghost size = { filter_size };

    ghost use Rattle.px_physical.specs.Deep.{falls_filter};

    ghost size_decreases = { falls_filter };
}

impl FilterExpr {
    /// The rows of a node for which another is true; the expression is that filter.
    pub fn new(input: Box<PhysExpr>, by: Box<PhysExpr>, expr: Rc<Expr>) -> FilterExpr
        requires tree { tree expr.value ≡ filter (plan_of input.value).tree (plan_of by.value).tree }
        ensures { result ≡ record { input = plan_of input.value; by = plan_of by.value } }
    {
        FilterExpr {
            input: Child { node: input },
            by: Child { node: by },
            expr,
        }
    }

    /// The node whose rows are kept or dropped.
    pub fn input(&self) -> &PhysExpr
        ensures { plan_of result.now ≡ self.now.input }
    {
        &self.input.node
    }

    /// The mask.
    pub fn by(&self) -> &PhysExpr
        ensures { plan_of result.now ≡ self.now.by }
    {
        &self.by.node
    }

    /// The expression.
    pub fn expr(&self) -> &Expr
        ensures { tree result.now ≡ (filter_plan self.now).tree }
    {
        &self.expr
    }
}

impl PhysicalExpr for FilterExpr {
    ghost use Rattle.px_answers.specs.Parts.{filter_plan};

    ghost planned = { filter_plan };

    fn as_expression(&self) -> Option<&Expr> {
        Some(&self.expr)
    }

    #[tactic(auto, using(px_answers::proofs::Selections::filter_value, px_answers::proofs::Selections::filter_cause, px_answers::proofs::Selections::filter_input_cause, px_answers::proofs::Selections::mask_cause))]
    #[cycle(evaluate)]
    fn evaluate<L: Ledger, M: Ledger>(
        &self,
        alloc: Global,
        df: &DataFrame,
        state: &mut ExecutionState,
        kernels: &mut Steps<L>,
        groupings: &mut Steps<M>,
    ) -> Px<Column> {
        let input = evaluate_cell(alloc, &self.input.node, df, state, kernels, groupings)?;
        let by = evaluate_cell(alloc, &self.by.node, df, state, kernels, groupings)?;
        Ok(filter_cells(alloc, input, by, kernels)?.into_column())
    }

    #[tactic(auto, using(px_group_answers::proofs::Selections::filter_input_group_cause, px_group_answers::proofs::Selections::mask_group_cause, px_group_answers::proofs::Paired::two_paired))]
    #[cycle(groups)]
    fn evaluate_on_groups<'a, L: Ledger, M: Ledger>(
        &self,
        alloc: Global,
        df: &'a DataFrame,
        groups: &'a GroupPositions,
        state: &mut ExecutionState,
        kernels: &mut Steps<L>,
        groupings: &mut Steps<M>,
    ) -> Px<AggregationContext<'a>> {
        let input = self
            .input
            .node
            .evaluate_on_groups(alloc, df, groups, state, kernels, groupings)?;
        let by = self
            .by
            .node
            .evaluate_on_groups(alloc, df, groups, state, kernels, groupings)?;
        accept_rows(&self.input.node)?;
        filter_groups(alloc, input, by, kernels)
    }

    fn evaluate_inline_impl(&self, alloc: Global, depth_limit: u8) -> Px<Option<Column>> {
        let _ = &self.expr;
        Ok(None)
    }

    fn to_field(&self, alloc: Global, input_schema: &Schema) -> Px<Field> {
        expression_field(alloc, &self.expr, input_schema)
    }

    #[cycle(live)]
    fn collect_live_columns(&self, alloc: Global, lv: &mut IndexSet<Name>) -> Px<()> {
        self.input.node.collect_live_columns(alloc, lv)?;
        self.by.node.collect_live_columns(alloc, lv)
    }

    fn is_literal(&self) -> bool {
        let _ = &self.expr;
        false
    }

    fn is_scalar(&self) -> bool {
        let _ = &self.expr;
        false
    }

    fn is_partitioned_aggregator(&self) -> bool {
        let _ = &self.expr;
        false
    }
}
