//! Operators on two nodes.
ghost use Rattle.std.specs.Prelude.{◌≡◌};
ghost use Rattle.px_tree.specs.Shape.{is_unit};
ghost use Rattle.px_tree.specs.Tree.{binary};
ghost use Rattle.px_tree.specs.View.{tree};
ghost use Rattle.px_physical.specs.NodeView.{plan_of};
ghost use Rattle.px_answers.specs.Parts.{binary_plan};

use crate::child::Child;
use crate::phys_expr::{PhysExpr, evaluate_cell};
use crate::physical::{PhysicalExpr, expression_field};
use indexmap::IndexSet;
use px_column::{Column, Name, Operator, Px, Steps};
use px_context::AggregationContext;
use px_frame::{DataFrame, Field, GroupPositions, Schema};
use px_group_nodes::binary_groups;
use px_nodes::binary_cells;
use px_plan::Expr;
use px_window::ExecutionState;
use std::alloc::Global;
use std::marker::Model;
use std::rc::Rc;
use std::sync::ledger::Ledger;

/// Two nodes combined row by row (polars `BinaryExpr`).
#[cycle(node)]
#[derive(Drop)]
pub struct BinaryExpr {
    left: Child,
    op: Operator,
    right: Child,
    expr: Rc<Expr>,
    has_literal: bool,
    is_scalar: bool,
}

impl Model for BinaryExpr {
    ghost use Rattle.px_answers.specs.Parts.{PlannedBinary, coded_binary};

    ghost Value = { PlannedBinary };

    ghost coded = { coded_binary };

    ghost use Rattle.std.specs.Prelude.{◌≡◌};
    ghost use Rattle.px_tree.specs.Shape.{is_unit};
    ghost use Rattle.px_tree.specs.Tree.{binary};
    ghost use Rattle.px_tree.specs.View.{tree};
    ghost use Rattle.px_physical.specs.NodeView.{plan_of};
    ghost use Rattle.px_physical.specs.Size.{binary_size};

    ghost view = { λ a. record { left = plan_of a.left.node.value; op = a.op; right = plan_of a.right.node.value; has_literal = a.has_literal } };

    ghost invariant = { λ a. (tree a.expr.value ≡ binary (plan_of a.left.node.value).tree a.op (plan_of a.right.node.value).tree) × (a.is_scalar ≡ is_unit (tree a.expr.value)) };

    ghost size = { binary_size };

    ghost use Rattle.px_physical.specs.Deep.{falls_binary};

    ghost size_decreases = { falls_binary };
}

impl BinaryExpr {
    /// An operator on two nodes; the expression is that of the two, and `is_scalar` tells whether both
    /// have one value. `has_literal` is a hint, which changes nothing.
    pub fn new(
        left: Box<PhysExpr>,
        op: Operator,
        right: Box<PhysExpr>,
        expr: Rc<Expr>,
        has_literal: bool,
        is_scalar: bool,
    ) -> BinaryExpr
        requires tree { tree expr.value ≡ binary (plan_of left.value).tree op (plan_of right.value).tree }
        requires unit { is_scalar ≡ is_unit (tree expr.value) }
        ensures { result ≡ record { left = plan_of left.value; op = op; right = plan_of right.value; has_literal = has_literal } }
    {
        BinaryExpr {
            left: Child { node: left },
            op,
            right: Child { node: right },
            expr,
            has_literal,
            is_scalar,
        }
    }

    /// The left operand.
    pub fn left(&self) -> &PhysExpr
        ensures { plan_of result.now ≡ self.now.left }
    {
        &self.left.node
    }

    /// The operator.
    pub fn op(&self) -> &Operator
        ensures { result.now ≡ self.now.op }
    {
        &self.op
    }

    /// The right operand.
    pub fn right(&self) -> &PhysExpr
        ensures { plan_of result.now ≡ self.now.right }
    {
        &self.right.node
    }

    /// Whether an operand is a literal, as the node was told.
    pub fn has_literal(&self) -> bool
        ensures { result ≡ self.now.has_literal }
    {
        self.has_literal
    }

    /// The expression.
    pub fn expr(&self) -> &Expr
        ensures { tree result.now ≡ (binary_plan self.now).tree }
    {
        &self.expr
    }
}

impl PhysicalExpr for BinaryExpr {
    ghost use Rattle.px_answers.specs.Parts.{binary_plan};

    ghost planned = { binary_plan };

    fn as_expression(&self) -> Option<&Expr> {
        Some(&self.expr)
    }

    #[tactic(auto, using(px_answers::proofs::Operands::binary_value, px_answers::proofs::Operands::binary_cause, px_answers::proofs::Operands::left_cause, px_answers::proofs::Operands::right_cause, px_answers::proofs::Counts::binary_ticks, px_answers::proofs::Counts::binary_cost, px_answers::proofs::Counts::binary_cost_left, px_answers::proofs::Counts::binary_cost_right))]
    #[cycle(evaluate)]
    fn evaluate<L: Ledger, M: Ledger>(
        &self,
        alloc: Global,
        df: &DataFrame,
        state: &mut ExecutionState,
        kernels: &mut Steps<L>,
        groupings: &mut Steps<M>,
    ) -> Px<Column> {
        let left = evaluate_cell(alloc, &self.left.node, df, state, kernels, groupings)?;
        let right = evaluate_cell(alloc, &self.right.node, df, state, kernels, groupings)?;
        Ok(binary_cells(alloc, left, right, self.op, kernels)?.into_column())
    }

    #[tactic(auto, using(px_group_answers::proofs::Operands::left_group_cause, px_group_answers::proofs::Operands::right_group_cause, px_group_answers::proofs::Paired::two_paired))]
    #[cycle(groups)]
    fn evaluate_on_groups<'a, L: Ledger, M: Ledger>(
        &self,
        alloc: Global,
        df: &'a DataFrame,
        groups: &'a GroupPositions,
        state: &mut ExecutionState,
        kernels: &mut Steps<L>,
        groupings: &mut Steps<M>,
    ) -> Px<AggregationContext<'a>> {
        let left = self
            .left
            .node
            .evaluate_on_groups(alloc, df, groups, state, kernels, groupings)?;
        let right = self
            .right
            .node
            .evaluate_on_groups(alloc, df, groups, state, kernels, groupings)?;
        binary_groups(alloc, left, right, self.op, kernels)
    }

    fn evaluate_inline_impl(&self, alloc: Global, depth_limit: u8) -> Px<Option<Column>> {
        let _ = &self.expr;
        Ok(None)
    }

    fn to_field(&self, alloc: Global, input_schema: &Schema) -> Px<Field> {
        expression_field(alloc, &self.expr, input_schema)
    }

    #[cycle(live)]
    fn collect_live_columns(&self, alloc: Global, lv: &mut IndexSet<Name>) -> Px<()> {
        self.left.node.collect_live_columns(alloc, lv)?;
        self.right.node.collect_live_columns(alloc, lv)
    }

    fn is_literal(&self) -> bool {
        let _ = &self.expr;
        false
    }

    fn is_scalar(&self) -> bool {
        self.is_scalar
    }

    fn is_partitioned_aggregator(&self) -> bool {
        let _ = &self.expr;
        true
    }
}
