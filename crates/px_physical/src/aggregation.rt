//! Reductions.
ghost use Rattle.std.specs.Prelude.{◌≡◌, option_map};
ghost use Rattle.px_frame.specs.SchemaView.{field_kind};
ghost use Rattle.px_physical.specs.NodeView.{plan_of};

use crate::child::Child;
use crate::on_groups::accept_reduction;
use crate::phys_expr::{PhysExpr, evaluate_cell};
use crate::physical::PhysicalExpr;
use indexmap::IndexSet;
use px_column::{Column, GroupByMethod, Name, Px, Steps, reduced_type};
use px_context::AggregationContext;
use px_frame::{DataFrame, Field, GroupPositions, Schema};
use px_group_nodes::aggregation_groups;
use px_nodes::aggregation_cells;
use px_plan::Expr;
use px_window::ExecutionState;
use std::alloc::Global;
use std::marker::Model;
use std::sync::ledger::Ledger;

/// How a reduction reduces (polars `AggregationType`).
#[derive(Clone, Copy, Debug, PartialEq, Eq)]
pub struct AggregationType {
    /// The reduction.
    pub groupby: GroupByMethod,
}

/// A reduction (polars `AggregationExpr`).
#[cycle(node)]
#[derive(Drop)]
pub struct AggregationExpr {
    expr: Child,
    agg_type: AggregationType,
    field: Option<Field>,
}

impl Model for AggregationExpr {
    ghost use Rattle.px_answers.specs.Parts.{PlannedReduction, coded_reduction};

    ghost Value = { PlannedReduction };

    ghost coded = { coded_reduction };

    ghost use Rattle.std.specs.Prelude.{option_map};
    ghost use Rattle.px_frame.specs.SchemaView.{field_kind};
    ghost use Rattle.px_physical.specs.NodeView.{plan_of};
    ghost use Rattle.px_physical.specs.Size.{reduction_size};

    ghost view = { λ a. record { input = plan_of a.expr.node.value; method = a.agg_type.groupby; field = option_map field_kind a.field } };

    ghost size = { reduction_size };

    ghost use Rattle.px_physical.specs.Deep.{falls_reduction};

    ghost size_decreases = { falls_reduction };
}

impl AggregationExpr {
    /// A reduction of a node; the field is a hint, which changes nothing.
    pub fn new(
        expr: Box<PhysExpr>,
        agg_type: AggregationType,
        field: Option<Field>,
    ) -> AggregationExpr
        ensures input { result.input ≡ plan_of expr.value }
        ensures method { result.method ≡ agg_type.groupby }
        ensures field { result.field ≡ option_map field_kind field }
    {
        AggregationExpr {
            expr: Child { node: expr },
            agg_type,
            field,
        }
    }

    /// The node that is reduced.
    pub fn expr(&self) -> &PhysExpr
        ensures { plan_of result.now ≡ self.now.input }
    {
        &self.expr.node
    }

    /// How it is reduced.
    pub fn agg_type(&self) -> &AggregationType
        ensures { result.now.groupby ≡ self.now.method }
    {
        &self.agg_type
    }

    /// The field that the node was told.
    pub fn field(&self) -> &Option<Field>
        ensures { option_map field_kind result.now ≡ self.now.field }
    {
        &self.field
    }
}

impl PhysicalExpr for AggregationExpr {
    ghost use Rattle.px_answers.specs.Parts.{reduction_plan};

    ghost planned = { reduction_plan };

    fn as_expression(&self) -> Option<&Expr> {
        None
    }

    #[tactic(auto, using(px_answers::proofs::Reductions::reduction_value, px_answers::proofs::Reductions::reduction_cause, px_answers::proofs::Reductions::reduced_cause, px_answers::proofs::Counts::reduction_ticks, px_answers::proofs::Counts::reduction_cost, px_answers::proofs::Counts::reduction_cost_input))]
    #[cycle(evaluate)]
    fn evaluate<L: Ledger, M: Ledger>(
        &self,
        alloc: Global,
        df: &DataFrame,
        state: &mut ExecutionState,
        kernels: &mut Steps<L>,
        groupings: &mut Steps<M>,
    ) -> Px<Column> {
        let input = evaluate_cell(alloc, &self.expr.node, df, state, kernels, groupings)?;
        Ok(aggregation_cells(alloc, input, self.agg_type.groupby, kernels)?.into_column())
    }

    #[tactic(auto, using(px_group_answers::proofs::Reductions::reduced_group_cause))]
    #[cycle(groups)]
    fn evaluate_on_groups<'a, L: Ledger, M: Ledger>(
        &self,
        alloc: Global,
        df: &'a DataFrame,
        groups: &'a GroupPositions,
        state: &mut ExecutionState,
        kernels: &mut Steps<L>,
        groupings: &mut Steps<M>,
    ) -> Px<AggregationContext<'a>> {
        let input = self
            .expr
            .node
            .evaluate_on_groups(alloc, df, groups, state, kernels, groupings)?;
        accept_reduction(&self.expr.node, self.agg_type.groupby)?;
        aggregation_groups(alloc, input, self.agg_type.groupby, kernels)
    }

    fn evaluate_inline_impl(&self, alloc: Global, depth_limit: u8) -> Px<Option<Column>> {
        let _ = &self.field;
        Ok(None)
    }

    #[cycle(field)]
    fn to_field(&self, alloc: Global, input_schema: &Schema) -> Px<Field> {
        let field = self.expr.node.to_field(alloc, input_schema)?;
        let dtype = reduced_type(alloc, self.agg_type.groupby, field.dtype)?;
        let name = field.name;
        Ok(Field { name, dtype })
    }

    #[cycle(live)]
    fn collect_live_columns(&self, alloc: Global, lv: &mut IndexSet<Name>) -> Px<()> {
        self.expr.node.collect_live_columns(alloc, lv)
    }

    fn is_literal(&self) -> bool {
        false
    }

    fn is_scalar(&self) -> bool {
        !matches!(self.agg_type.groupby, GroupByMethod::Implode)
    }

    fn is_partitioned_aggregator(&self) -> bool {
        true
    }
}
