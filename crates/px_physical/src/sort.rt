//! Rows in sorted order.
ghost use Rattle.std.specs.Prelude.{◌≡◌};
ghost use Rattle.px_tree.specs.Tree.{sort};
ghost use Rattle.px_tree.specs.View.{tree};
ghost use Rattle.px_physical.specs.NodeView.{plan_of};
ghost use Rattle.px_answers.specs.Parts.{sort_plan};

use crate::child::Child;
use crate::on_groups::accept_rows;
use crate::phys_expr::{PhysExpr, evaluate_cell};
use crate::physical::{PhysicalExpr, expression_field};
use indexmap::IndexSet;
use px_column::{Column, Name, Px, SortOptions, Steps};
use px_context::AggregationContext;
use px_frame::{DataFrame, Field, GroupPositions, Schema};
use px_group_nodes::sort_groups_cells;
use px_nodes::sort_cells;
use px_plan::Expr;
use px_window::ExecutionState;
use std::alloc::Global;
use std::marker::Model;
use std::rc::Rc;
use std::sync::ledger::Ledger;

/// A node's rows in sorted order (polars `SortExpr`).
#[cycle(node)]
#[derive(Drop)]
pub struct SortExpr {
    physical_expr: Child,
    options: SortOptions,
    expr: Rc<Expr>,
}

impl Model for SortExpr {
    ghost use Rattle.px_answers.specs.Parts.{PlannedSort, coded_sort};

    ghost Value = { PlannedSort };

    ghost coded = { coded_sort };

    ghost use Rattle.std.specs.Prelude.{◌≡◌};
    ghost use Rattle.px_tree.specs.Tree.{sort};
    ghost use Rattle.px_tree.specs.View.{tree};
    ghost use Rattle.px_physical.specs.NodeView.{plan_of};
    ghost use Rattle.px_physical.specs.Size.{sort_size};

    ghost view = { λ a. record { physical_expr = plan_of a.physical_expr.node.value; options = a.options } };

    ghost invariant = { λ a. tree a.expr.value ≡ sort (plan_of a.physical_expr.node.value).tree a.options };

    ghost size = { sort_size };

    ghost use Rattle.px_physical.specs.Deep.{falls_sort};

    ghost size_decreases = { falls_sort };
}

impl SortExpr {
    /// A node's rows in sorted order; the expression is that sort.
    pub fn new(physical_expr: Box<PhysExpr>, options: SortOptions, expr: Rc<Expr>) -> SortExpr
        requires tree { tree expr.value ≡ sort (plan_of physical_expr.value).tree options }
        ensures { result ≡ record { physical_expr = plan_of physical_expr.value; options = options } }
    {
        SortExpr {
            physical_expr: Child {
                node: physical_expr,
            },
            options,
            expr,
        }
    }

    /// The node whose rows are sorted.
    pub fn physical_expr(&self) -> &PhysExpr
        ensures { plan_of result.now ≡ self.now.physical_expr }
    {
        &self.physical_expr.node
    }

    /// How they are sorted.
    pub fn options(&self) -> &SortOptions
        ensures { result.now ≡ self.now.options }
    {
        &self.options
    }

    /// The expression.
    pub fn expr(&self) -> &Expr
        ensures { tree result.now ≡ (sort_plan self.now).tree }
    {
        &self.expr
    }
}

impl PhysicalExpr for SortExpr {
    ghost use Rattle.px_answers.specs.Parts.{sort_plan};

    ghost planned = { sort_plan };

    fn as_expression(&self) -> Option<&Expr> {
        Some(&self.expr)
    }

    #[tactic(auto, using(px_answers::proofs::Selections::sort_value, px_answers::proofs::Selections::sort_cause, px_answers::proofs::Selections::sorted_cause))]
    #[cycle(evaluate)]
    fn evaluate<L: Ledger, M: Ledger>(
        &self,
        alloc: Global,
        df: &DataFrame,
        state: &mut ExecutionState,
        kernels: &mut Steps<L>,
        groupings: &mut Steps<M>,
    ) -> Px<Column> {
        let input = evaluate_cell(
            alloc,
            &self.physical_expr.node,
            df,
            state,
            kernels,
            groupings,
        )?;
        Ok(sort_cells(alloc, input, self.options, kernels)?.into_column())
    }

    #[tactic(auto, using(px_group_answers::proofs::Selections::sorted_group_cause))]
    #[cycle(groups)]
    fn evaluate_on_groups<'a, L: Ledger, M: Ledger>(
        &self,
        alloc: Global,
        df: &'a DataFrame,
        groups: &'a GroupPositions,
        state: &mut ExecutionState,
        kernels: &mut Steps<L>,
        groupings: &mut Steps<M>,
    ) -> Px<AggregationContext<'a>> {
        let input = self
            .physical_expr
            .node
            .evaluate_on_groups(alloc, df, groups, state, kernels, groupings)?;
        accept_rows(&self.physical_expr.node)?;
        sort_groups_cells(alloc, input, self.options, kernels)
    }

    fn evaluate_inline_impl(&self, alloc: Global, depth_limit: u8) -> Px<Option<Column>> {
        let _ = &self.expr;
        Ok(None)
    }

    fn to_field(&self, alloc: Global, input_schema: &Schema) -> Px<Field> {
        expression_field(alloc, &self.expr, input_schema)
    }

    #[cycle(live)]
    fn collect_live_columns(&self, alloc: Global, lv: &mut IndexSet<Name>) -> Px<()> {
        self.physical_expr.node.collect_live_columns(alloc, lv)
    }

    fn is_literal(&self) -> bool {
        let _ = &self.expr;
        false
    }

    fn is_scalar(&self) -> bool {
        let _ = &self.expr;
        false
    }

    fn is_partitioned_aggregator(&self) -> bool {
        let _ = &self.expr;
        false
    }
}
