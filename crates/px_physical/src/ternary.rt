//! One node or another, as a third says.
ghost use Rattle.std.specs.Prelude.{◌≡◌};
ghost use Rattle.px_tree.specs.Shape.{is_unit};
ghost use Rattle.px_tree.specs.Tree.{ternary};
ghost use Rattle.px_tree.specs.View.{tree};
ghost use Rattle.px_physical.specs.NodeView.{plan_of};
ghost use Rattle.px_answers.specs.Parts.{ternary_plan};

use crate::child::Child;
use crate::phys_expr::{PhysExpr, evaluate_cell};
use crate::physical::{PhysicalExpr, expression_field};
use indexmap::IndexSet;
use px_column::{Column, Name, Px, Steps};
use px_context::AggregationContext;
use px_frame::{DataFrame, Field, GroupPositions, Schema};
use px_group_nodes::ternary_groups;
use px_nodes::ternary_cells;
use px_plan::Expr;
use px_window::ExecutionState;
use std::alloc::Global;
use std::marker::Model;
use std::rc::Rc;
use std::sync::ledger::Ledger;

/// Row by row the one where the predicate is true, else the other (polars `TernaryExpr`).
#[cycle(node)]
#[derive(Drop)]
pub struct TernaryExpr {
    predicate: Child,
    truthy: Child,
    falsy: Child,
    expr: Rc<Expr>,
    returns_scalar: bool,
}

impl Model for TernaryExpr {
    ghost use Rattle.px_answers.specs.Parts.{PlannedTernary, coded_ternary};

    ghost Value = { PlannedTernary };

    ghost coded = { coded_ternary };

    ghost use Rattle.std.specs.Prelude.{◌≡◌};
    ghost use Rattle.px_tree.specs.Shape.{is_unit};
    ghost use Rattle.px_tree.specs.Tree.{ternary};
    ghost use Rattle.px_tree.specs.View.{tree};
    ghost use Rattle.px_physical.specs.NodeView.{plan_of};
    ghost use Rattle.px_physical.specs.Size.{ternary_size};

    ghost view = { λ a. record { predicate = plan_of a.predicate.node.value; truthy = plan_of a.truthy.node.value; falsy = plan_of a.falsy.node.value } };

    ghost invariant = { λ a. (tree a.expr.value ≡ ternary (plan_of a.predicate.node.value).tree (plan_of a.truthy.node.value).tree (plan_of a.falsy.node.value).tree) × (a.returns_scalar ≡ is_unit (tree a.expr.value)) };

    ghost size = { ternary_size };

    ghost use Rattle.px_physical.specs.Deep.{falls_ternary};

    ghost size_decreases = { falls_ternary };
}

impl TernaryExpr {
    /// One node or another, as a third says; the expression is that of the three, and `returns_scalar`
    /// tells whether all of them have one value.
    pub fn new(
        predicate: Box<PhysExpr>,
        truthy: Box<PhysExpr>,
        falsy: Box<PhysExpr>,
        expr: Rc<Expr>,
        returns_scalar: bool,
    ) -> TernaryExpr
        requires tree { tree expr.value ≡ ternary (plan_of predicate.value).tree (plan_of truthy.value).tree (plan_of falsy.value).tree }
        requires unit { returns_scalar ≡ is_unit (tree expr.value) }
        ensures { result ≡ record { predicate = plan_of predicate.value; truthy = plan_of truthy.value; falsy = plan_of falsy.value } }
    {
        TernaryExpr {
            predicate: Child { node: predicate },
            truthy: Child { node: truthy },
            falsy: Child { node: falsy },
            expr,
            returns_scalar,
        }
    }

    /// What says which one.
    pub fn predicate(&self) -> &PhysExpr
        ensures { plan_of result.now ≡ self.now.predicate }
    {
        &self.predicate.node
    }

    /// What stands where the predicate is true.
    pub fn truthy(&self) -> &PhysExpr
        ensures { plan_of result.now ≡ self.now.truthy }
    {
        &self.truthy.node
    }

    /// What stands elsewhere.
    pub fn falsy(&self) -> &PhysExpr
        ensures { plan_of result.now ≡ self.now.falsy }
    {
        &self.falsy.node
    }

    /// The expression.
    pub fn expr(&self) -> &Expr
        ensures { tree result.now ≡ (ternary_plan self.now).tree }
    {
        &self.expr
    }

    /// Whether it has one value, whatever the frame.
    pub fn returns_scalar(&self) -> bool
        ensures { result ≡ is_unit (ternary_plan self.now).tree }
    {
        self.returns_scalar
    }
}

impl PhysicalExpr for TernaryExpr {
    ghost use Rattle.px_answers.specs.Parts.{ternary_plan};

    ghost planned = { ternary_plan };

    fn as_expression(&self) -> Option<&Expr> {
        Some(&self.expr)
    }

    #[tactic(auto, using(px_answers::proofs::Operands::ternary_value, px_answers::proofs::Operands::ternary_cause, px_answers::proofs::Operands::predicate_cause, px_answers::proofs::Operands::truthy_cause, px_answers::proofs::Operands::falsy_cause, px_answers::proofs::Counts::ternary_ticks, px_answers::proofs::Counts::ternary_cost, px_answers::proofs::Counts::ternary_cost_one, px_answers::proofs::Counts::ternary_cost_two, px_answers::proofs::Counts::ternary_cost_three))]
    #[cycle(evaluate)]
    fn evaluate<L: Ledger, M: Ledger>(
        &self,
        alloc: Global,
        df: &DataFrame,
        state: &mut ExecutionState,
        kernels: &mut Steps<L>,
        groupings: &mut Steps<M>,
    ) -> Px<Column> {
        let predicate = evaluate_cell(alloc, &self.predicate.node, df, state, kernels, groupings)?;
        let truthy = evaluate_cell(alloc, &self.truthy.node, df, state, kernels, groupings)?;
        let falsy = evaluate_cell(alloc, &self.falsy.node, df, state, kernels, groupings)?;
        Ok(ternary_cells(alloc, predicate, truthy, falsy, kernels)?.into_column())
    }

    #[tactic(auto, using(px_group_answers::proofs::Operands::predicate_group_cause, px_group_answers::proofs::Operands::truthy_group_cause, px_group_answers::proofs::Operands::falsy_group_cause, px_group_answers::proofs::Paired::three_paired))]
    #[cycle(groups)]
    fn evaluate_on_groups<'a, L: Ledger, M: Ledger>(
        &self,
        alloc: Global,
        df: &'a DataFrame,
        groups: &'a GroupPositions,
        state: &mut ExecutionState,
        kernels: &mut Steps<L>,
        groupings: &mut Steps<M>,
    ) -> Px<AggregationContext<'a>> {
        let predicate = self
            .predicate
            .node
            .evaluate_on_groups(alloc, df, groups, state, kernels, groupings)?;
        let truthy = self
            .truthy
            .node
            .evaluate_on_groups(alloc, df, groups, state, kernels, groupings)?;
        let falsy = self
            .falsy
            .node
            .evaluate_on_groups(alloc, df, groups, state, kernels, groupings)?;
        ternary_groups(alloc, predicate, truthy, falsy, kernels)
    }

    fn evaluate_inline_impl(&self, alloc: Global, depth_limit: u8) -> Px<Option<Column>> {
        let _ = &self.expr;
        Ok(None)
    }

    fn to_field(&self, alloc: Global, input_schema: &Schema) -> Px<Field> {
        expression_field(alloc, &self.expr, input_schema)
    }

    #[cycle(live)]
    fn collect_live_columns(&self, alloc: Global, lv: &mut IndexSet<Name>) -> Px<()> {
        self.predicate.node.collect_live_columns(alloc, lv)?;
        self.truthy.node.collect_live_columns(alloc, lv)?;
        self.falsy.node.collect_live_columns(alloc, lv)
    }

    fn is_literal(&self) -> bool {
        let _ = &self.expr;
        false
    }

    fn is_scalar(&self) -> bool {
        self.returns_scalar
    }

    fn is_partitioned_aggregator(&self) -> bool {
        let _ = &self.expr;
        true
    }
}
