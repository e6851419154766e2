//! Windows of rows.
ghost use Rattle.std.specs.Prelude.{◌≡◌};
ghost use Rattle.px_tree.specs.Tree.{slice};
ghost use Rattle.px_tree.specs.View.{tree};
ghost use Rattle.px_physical.specs.NodeView.{plan_of};
ghost use Rattle.px_answers.specs.Parts.{slice_plan};

use crate::child::Child;
use crate::on_groups::accept_slice;
use crate::phys_expr::{PhysExpr, evaluate_cell};
use crate::physical::{PhysicalExpr, expression_field};
use indexmap::IndexSet;
use px_column::{Column, Name, Px, Steps};
use px_context::AggregationContext;
use px_frame::{DataFrame, Field, GroupPositions, Schema};
use px_group_nodes::slice_groups;
use px_nodes::slice_cells;
use px_plan::Expr;
use px_window::ExecutionState;
use std::alloc::Global;
use std::marker::Model;
use std::rc::Rc;
use std::sync::ledger::Ledger;

/// A window of rows (polars `SliceExpr`).
#[cycle(node)]
#[derive(Drop)]
pub struct SliceExpr {
    input: Child,
    offset: Child,
    length: Child,
    expr: Rc<Expr>,
}

impl Model for SliceExpr {
    ghost use Rattle.px_answers.specs.Parts.{PlannedSlice, coded_slice};

    ghost Value = { PlannedSlice };

    ghost coded = { coded_slice };

    ghost use Rattle.std.specs.Prelude.{◌≡◌};
    ghost use Rattle.px_tree.specs.Tree.{slice};
    ghost use Rattle.px_tree.specs.View.{tree};
    ghost use Rattle.px_physical.specs.NodeView.{plan_of};
    ghost use Rattle.px_physical.specs.Size.{slice_size};

    ghost view = { λ a. record { input = plan_of a.input.node.value; offset = plan_of a.offset.node.value; length = plan_of a.length.node.value } };

    ghost invariant = { λ a. tree a.expr.value ≡ slice (plan_of a.input.node.value).tree (plan_of a.offset.node.value).tree (plan_of a.length.node.value).tree };

    ghost size = { slice_size };

    ghost use Rattle.px_physical.specs.Deep.{falls_slice};

    ghost size_decreases = { falls_slice };
}

impl SliceExpr {
    /// A window of a node's rows; the expression is that slice.
    pub fn new(
        input: Box<PhysExpr>,
        offset: Box<PhysExpr>,
        length: Box<PhysExpr>,
        expr: Rc<Expr>,
    ) -> SliceExpr
        requires tree { tree expr.value ≡ slice (plan_of input.value).tree (plan_of offset.value).tree (plan_of length.value).tree }
        ensures { result ≡ record { input = plan_of input.value; offset = plan_of offset.value; length = plan_of length.value } }
    {
        SliceExpr {
            input: Child { node: input },
            offset: Child { node: offset },
            length: Child { node: length },
            expr,
        }
    }

    /// The node whose rows are taken.
    pub fn input(&self) -> &PhysExpr
        ensures { plan_of result.now ≡ self.now.input }
    {
        &self.input.node
    }

    /// The first row; a negative one counts from the end.
    pub fn offset(&self) -> &PhysExpr
        ensures { plan_of result.now ≡ self.now.offset }
    {
        &self.offset.node
    }

    /// The number of rows; a null is no limit.
    pub fn length(&self) -> &PhysExpr
        ensures { plan_of result.now ≡ self.now.length }
    {
        &self.length.node
    }

    /// The expression.
    pub fn expr(&self) -> &Expr
        ensures { tree result.now ≡ (slice_plan self.now).tree }
    {
        &self.expr
    }
}

impl PhysicalExpr for SliceExpr {
    ghost use Rattle.px_answers.specs.Parts.{slice_plan};

    ghost planned = { slice_plan };

    fn as_expression(&self) -> Option<&Expr> {
        Some(&self.expr)
    }

    #[tactic(auto, using(px_answers::proofs::Selections::slice_value, px_answers::proofs::Selections::slice_cause, px_answers::proofs::Selections::slice_input_cause, px_answers::proofs::Selections::offset_cause, px_answers::proofs::Selections::length_cause))]
    #[cycle(evaluate)]
    fn evaluate<L: Ledger, M: Ledger>(
        &self,
        alloc: Global,
        df: &DataFrame,
        state: &mut ExecutionState,
        kernels: &mut Steps<L>,
        groupings: &mut Steps<M>,
    ) -> Px<Column> {
        let input = evaluate_cell(alloc, &self.input.node, df, state, kernels, groupings)?;
        let offset = evaluate_cell(alloc, &self.offset.node, df, state, kernels, groupings)?;
        let length = evaluate_cell(alloc, &self.length.node, df, state, kernels, groupings)?;
        Ok(slice_cells(alloc, input, offset, length, kernels)?.into_column())
    }

    #[tactic(auto, using(px_group_answers::proofs::Selections::slice_input_group_cause, px_group_answers::proofs::Selections::offset_group_cause, px_group_answers::proofs::Selections::length_group_cause, px_group_answers::proofs::Paired::three_paired))]
    #[cycle(groups)]
    fn evaluate_on_groups<'a, L: Ledger, M: Ledger>(
        &self,
        alloc: Global,
        df: &'a DataFrame,
        groups: &'a GroupPositions,
        state: &mut ExecutionState,
        kernels: &mut Steps<L>,
        groupings: &mut Steps<M>,
    ) -> Px<AggregationContext<'a>> {
        let input = self
            .input
            .node
            .evaluate_on_groups(alloc, df, groups, state, kernels, groupings)?;
        let offset = self
            .offset
            .node
            .evaluate_on_groups(alloc, df, groups, state, kernels, groupings)?;
        let length = self
            .length
            .node
            .evaluate_on_groups(alloc, df, groups, state, kernels, groupings)?;
        accept_slice(&self.input.node, &self.offset.node, &self.length.node)?;
        slice_groups(alloc, input, offset, length, kernels)
    }

    fn evaluate_inline_impl(&self, alloc: Global, depth_limit: u8) -> Px<Option<Column>> {
        let _ = &self.expr;
        Ok(None)
    }

    fn to_field(&self, alloc: Global, input_schema: &Schema) -> Px<Field> {
        expression_field(alloc, &self.expr, input_schema)
    }

    #[cycle(live)]
    fn collect_live_columns(&self, alloc: Global, lv: &mut IndexSet<Name>) -> Px<()> {
        self.input.node.collect_live_columns(alloc, lv)?;
        self.offset.node.collect_live_columns(alloc, lv)?;
        self.length.node.collect_live_columns(alloc, lv)
    }

    fn is_literal(&self) -> bool {
        let _ = &self.expr;
        false
    }

    fn is_scalar(&self) -> bool {
        let _ = &self.expr;
        false
    }

    fn is_partitioned_aggregator(&self) -> bool {
        let _ = &self.expr;
        false
    }
}
