//! Casts.
ghost use Rattle.std.specs.Prelude.{◌≡◌};
ghost use Rattle.px_column.specs.Prelude.{kind_of};
ghost use Rattle.px_tree.specs.Tree.{cast};
ghost use Rattle.px_tree.specs.View.{tree};
ghost use Rattle.px_physical.specs.NodeView.{plan_of};
ghost use Rattle.px_answers.specs.Parts.{cast_plan};

use crate::child::Child;
use crate::inline::{inline_cast, inline_cell};
use crate::phys_expr::{PhysExpr, evaluate_cell};
use crate::physical::{PhysicalExpr, expression_field};
use indexmap::IndexSet;
use px_column::{CastOptions, Column, DataType, Name, Px, Steps};
use px_context::AggregationContext;
use px_frame::{DataFrame, Field, GroupPositions, Schema};
use px_group_nodes::cast_groups;
use px_nodes::cast_cells;
use px_plan::Expr;
use px_window::ExecutionState;
use std::alloc::Global;
use std::marker::Model;
use std::rc::Rc;
use std::sync::ledger::Ledger;

/// A node in another type (polars `CastExpr`).
#[cycle(node)]
#[derive(Drop)]
pub struct CastExpr {
    input: Child,
    dtype: DataType,
    options: CastOptions,
    expr: Rc<Expr>,
}

impl Model for CastExpr {
    ghost use Rattle.px_answers.specs.Parts.{PlannedCast, coded_cast};

    ghost Value = { PlannedCast };

    ghost coded = { coded_cast };

    ghost use Rattle.std.specs.Prelude.{◌≡◌};
    ghost use Rattle.px_column.specs.Prelude.{kind_of};
    ghost use Rattle.px_tree.specs.Tree.{cast};
    ghost use Rattle.px_tree.specs.View.{tree};
    ghost use Rattle.px_physical.specs.NodeView.{plan_of};
    ghost use Rattle.px_physical.specs.Size.{cast_size};

    ghost view = { λ a. record { input = plan_of a.input.node.value; dtype = kind_of a.dtype; options = a.options } };

    ghost invariant = { λ a. tree a.expr.value ≡ cast (plan_of a.input.node.value).tree (kind_of a.dtype) a.options };

    ghost size = { cast_size };

    ghost use Rattle.px_physical.specs.Deep.{falls_cast};

    ghost size_decreases = { falls_cast };
}

impl CastExpr {
    /// A node in another type; the expression is that cast.
    pub fn new(
        input: Box<PhysExpr>,
        dtype: DataType,
        options: CastOptions,
        expr: Rc<Expr>,
    ) -> CastExpr
        requires tree { tree expr.value ≡ cast (plan_of input.value).tree (kind_of dtype) options }
        ensures { result ≡ record { input = plan_of input.value; dtype = kind_of dtype; options = options } }
    {
        CastExpr {
            input: Child { node: input },
            dtype,
            options,
            expr,
        }
    }

    /// The node whose type is changed.
    pub fn input(&self) -> &PhysExpr
        ensures { plan_of result.now ≡ self.now.input }
    {
        &self.input.node
    }

    /// The new type.
    pub fn dtype(&self) -> &DataType
        ensures { kind_of result.now ≡ self.now.dtype }
    {
        &self.dtype
    }

    /// What becomes of values that the new type has not.
    pub fn options(&self) -> &CastOptions
        ensures { result.now ≡ self.now.options }
    {
        &self.options
    }

    /// The expression.
    pub fn expr(&self) -> &Expr
        ensures { tree result.now ≡ (cast_plan self.now).tree }
    {
        &self.expr
    }
}

impl PhysicalExpr for CastExpr {
    ghost use Rattle.px_answers.specs.Parts.{cast_plan};

    ghost planned = { cast_plan };

    fn as_expression(&self) -> Option<&Expr> {
        Some(&self.expr)
    }

    #[tactic(auto, using(px_answers::proofs::Operands::cast_value, px_answers::proofs::Operands::cast_cause, px_answers::proofs::Operands::cast_input_cause, px_answers::proofs::Counts::cast_ticks, px_answers::proofs::Counts::cast_cost, px_answers::proofs::Counts::cast_cost_input))]
    #[cycle(evaluate)]
    fn evaluate<L: Ledger, M: Ledger>(
        &self,
        alloc: Global,
        df: &DataFrame,
        state: &mut ExecutionState,
        kernels: &mut Steps<L>,
        groupings: &mut Steps<M>,
    ) -> Px<Column> {
        let input = evaluate_cell(alloc, &self.input.node, df, state, kernels, groupings)?;
        Ok(cast_cells(alloc, input, &self.dtype, self.options, kernels)?.into_column())
    }

    #[tactic(auto, using(px_group_answers::proofs::Operands::cast_group_cause))]
    #[cycle(groups)]
    fn evaluate_on_groups<'a, L: Ledger, M: Ledger>(
        &self,
        alloc: Global,
        df: &'a DataFrame,
        groups: &'a GroupPositions,
        state: &mut ExecutionState,
        kernels: &mut Steps<L>,
        groupings: &mut Steps<M>,
    ) -> Px<AggregationContext<'a>> {
        let input = self
            .input
            .node
            .evaluate_on_groups(alloc, df, groups, state, kernels, groupings)?;
        cast_groups(alloc, input, &self.dtype, self.options, kernels)
    }

    #[cycle(inline)]
    #[tactic(auto, using(crate::proofs::Inlined::cast_inline, crate::proofs::Inlined::cast_nothing, crate::proofs::Inlined::not_inline))]
    fn evaluate_inline_impl(&self, alloc: Global, depth_limit: u8) -> Px<Option<Column>> {
        let input = &self.input.node;
        if depth_limit == 0 {
            return Ok(None);
        }
        match inline_cell(alloc, input, depth_limit - 1)? {
            Some(cell) => inline_cast(alloc, cell, &self.dtype, self.options),
            None => Ok(None),
        }
    }

    fn to_field(&self, alloc: Global, input_schema: &Schema) -> Px<Field> {
        expression_field(alloc, &self.expr, input_schema)
    }

    #[cycle(live)]
    fn collect_live_columns(&self, alloc: Global, lv: &mut IndexSet<Name>) -> Px<()> {
        self.input.node.collect_live_columns(alloc, lv)
    }

    fn is_literal(&self) -> bool {
        let _ = &self.expr;
        false
    }

    #[cycle(scalar)]
    fn is_scalar(&self) -> bool {
        self.input.node.is_scalar()
    }

    fn is_partitioned_aggregator(&self) -> bool {
        let _ = &self.expr;
        true
    }
}
