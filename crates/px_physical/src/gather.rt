//! Rows that indices name.
ghost use Rattle.std.specs.Prelude.{◌≡◌};
ghost use Rattle.px_tree.specs.Shape.{is_unit};
ghost use Rattle.px_tree.specs.Tree.{gather};
ghost use Rattle.px_tree.specs.View.{tree};
ghost use Rattle.px_physical.specs.NodeView.{plan_of};
ghost use Rattle.px_answers.specs.Parts.{gather_plan};

use crate::child::Child;
use crate::on_groups::accept_rows;
use crate::phys_expr::{PhysExpr, evaluate_cell, has_literals_alone};
use crate::physical::{PhysicalExpr, expression_field};
use indexmap::IndexSet;
use px_column::{Column, Name, Px, Steps};
use px_context::AggregationContext;
use px_frame::{DataFrame, Field, GroupPositions, Schema};
use px_group_nodes::gather_groups;
use px_nodes::gather_cells;
use px_plan::Expr;
use px_window::ExecutionState;
use std::alloc::Global;
use std::marker::Model;
use std::rc::Rc;
use std::sync::ledger::Ledger;

/// The rows that indices name, or the one row (polars `GatherExpr`).
#[cycle(node)]
#[derive(Drop)]
pub struct GatherExpr {
    phys_expr: Child,
    idx: Child,
    expr: Rc<Expr>,
    returns_scalar: bool,
}

impl Model for GatherExpr {
    ghost use Rattle.px_answers.specs.Parts.{PlannedGather, coded_gather};

    ghost Value = { PlannedGather };

    ghost coded = { coded_gather };

    ghost use Rattle.std.specs.Prelude.{◌≡◌};
    ghost use Rattle.px_tree.specs.Tree.{gather};
    ghost use Rattle.px_tree.specs.View.{tree};
    ghost use Rattle.px_physical.specs.NodeView.{plan_of};
    ghost use Rattle.px_physical.specs.Size.{gather_size};

    ghost view = { λ a. record { phys_expr = plan_of a.phys_expr.node.value; idx = plan_of a.idx.node.value; returns_scalar = a.returns_scalar } };

    ghost invariant = { λ a. tree a.expr.value ≡ gather (plan_of a.phys_expr.node.value).tree (plan_of a.idx.node.value).tree a.returns_scalar };

    ghost size = { gather_size };

    ghost use Rattle.px_physical.specs.Deep.{falls_gather};

    ghost size_decreases = { falls_gather };
}

impl GatherExpr {
    /// The rows of a node that indices name; the expression is that gather. `returns_scalar` asks for the
    /// one row that a single index names.
    pub fn new(
        phys_expr: Box<PhysExpr>,
        idx: Box<PhysExpr>,
        expr: Rc<Expr>,
        returns_scalar: bool,
    ) -> GatherExpr
        requires tree { tree expr.value ≡ gather (plan_of phys_expr.value).tree (plan_of idx.value).tree returns_scalar }
        ensures { result ≡ record { phys_expr = plan_of phys_expr.value; idx = plan_of idx.value; returns_scalar = returns_scalar } }
    {
        GatherExpr {
            phys_expr: Child { node: phys_expr },
            idx: Child { node: idx },
            expr,
            returns_scalar,
        }
    }

    /// The node whose rows are taken.
    pub fn phys_expr(&self) -> &PhysExpr
        ensures { plan_of result.now ≡ self.now.phys_expr }
    {
        &self.phys_expr.node
    }

    /// The indices; negative ones count from the end.
    pub fn idx(&self) -> &PhysExpr
        ensures { plan_of result.now ≡ self.now.idx }
    {
        &self.idx.node
    }

    /// The expression.
    pub fn expr(&self) -> &Expr
        ensures { tree result.now ≡ (gather_plan self.now).tree }
    {
        &self.expr
    }

    /// Whether it has one value, whatever the frame.
    pub fn returns_scalar(&self) -> bool
        ensures { result ≡ is_unit (gather_plan self.now).tree }
    {
        self.returns_scalar
    }
}

impl PhysicalExpr for GatherExpr {
    ghost use Rattle.px_answers.specs.Parts.{gather_plan};

    ghost planned = { gather_plan };

    fn as_expression(&self) -> Option<&Expr> {
        Some(&self.expr)
    }

    #[tactic(auto, using(px_answers::proofs::Selections::gather_value, px_answers::proofs::Selections::gather_cause, px_answers::proofs::Selections::gathered_cause, px_answers::proofs::Selections::index_cause))]
    #[cycle(evaluate)]
    fn evaluate<L: Ledger, M: Ledger>(
        &self,
        alloc: Global,
        df: &DataFrame,
        state: &mut ExecutionState,
        kernels: &mut Steps<L>,
        groupings: &mut Steps<M>,
    ) -> Px<Column> {
        let input = evaluate_cell(alloc, &self.phys_expr.node, df, state, kernels, groupings)?;
        let idx = evaluate_cell(alloc, &self.idx.node, df, state, kernels, groupings)?;
        let is_literal = has_literals_alone(&self.idx.node);
        let rows = gather_cells(alloc, input, idx, self.returns_scalar, is_literal, kernels)?;
        Ok(rows.into_column())
    }

    #[tactic(auto, using(px_group_answers::proofs::Selections::gathered_group_cause, px_group_answers::proofs::Selections::index_group_cause, px_group_answers::proofs::Paired::two_paired))]
    #[cycle(groups)]
    fn evaluate_on_groups<'a, L: Ledger, M: Ledger>(
        &self,
        alloc: Global,
        df: &'a DataFrame,
        groups: &'a GroupPositions,
        state: &mut ExecutionState,
        kernels: &mut Steps<L>,
        groupings: &mut Steps<M>,
    ) -> Px<AggregationContext<'a>> {
        let input = self
            .phys_expr
            .node
            .evaluate_on_groups(alloc, df, groups, state, kernels, groupings)?;
        let idx = self
            .idx
            .node
            .evaluate_on_groups(alloc, df, groups, state, kernels, groupings)?;
        accept_rows(&self.phys_expr.node)?;
        let is_literal = has_literals_alone(&self.idx.node);
        gather_groups(alloc, input, idx, self.returns_scalar, is_literal, kernels)
    }

    fn evaluate_inline_impl(&self, alloc: Global, depth_limit: u8) -> Px<Option<Column>> {
        let _ = &self.expr;
        Ok(None)
    }

    fn to_field(&self, alloc: Global, input_schema: &Schema) -> Px<Field> {
        expression_field(alloc, &self.expr, input_schema)
    }

    #[cycle(live)]
    fn collect_live_columns(&self, alloc: Global, lv: &mut IndexSet<Name>) -> Px<()> {
        self.phys_expr.node.collect_live_columns(alloc, lv)?;
        self.idx.node.collect_live_columns(alloc, lv)
    }

    fn is_literal(&self) -> bool {
        let _ = &self.expr;
        false
    }

    fn is_scalar(&self) -> bool {
        self.returns_scalar
    }

    fn is_partitioned_aggregator(&self) -> bool {
        let _ = &self.expr;
        false
    }
}
