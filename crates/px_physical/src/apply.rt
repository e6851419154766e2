//! Functions of nodes.
ghost use Rattle.std.specs.Prelude.{◌≡◌, map};
ghost use Rattle.px_frame.specs.SchemaView.{field_kind};
ghost use Rattle.px_tree.specs.Shape.{has_implode, is_literal_tree, is_unit};
ghost use Rattle.px_tree.specs.Tree.{called};
ghost use Rattle.px_tree.specs.View.{tree};
ghost use Rattle.px_answers.specs.Live.{is_partitioned_function};
ghost use Rattle.px_physical.specs.NodeView.{plan_of};
ghost use Rattle.px_answers.specs.Parts.{apply_plan, call_in, call_on, plan_trees};

use crate::inline::{inline_cells, inline_function};
use crate::on_groups::{accept_inputs, contexts_on_groups, have_implode};
use crate::phys_expr::{PhysExpr, collect_all, evaluate_cells, have_literals_alone};
use crate::physical::{PhysicalExpr, expression_field};
use indexmap::IndexSet;
use px_column::{Column, Name, Px, Steps};
use px_context::AggregationContext;
use px_frame::{DataFrame, Field, GroupPositions, Schema, SchemaRef};
use px_group_nodes::apply_groups;
use px_nodes::apply_cells;
use px_plan::{Expr, FunctionExpr};
use px_window::ExecutionState;
use std::alloc::Global;
use std::marker::Model;
use std::rc::Rc;
use std::sync::ledger::Ledger;

/// A function of nodes (polars `ApplyExpr`).
#[cycle(node)]
#[derive(Drop)]
pub struct ApplyExpr {
    inputs: Vec<PhysExpr>,
    function: FunctionExpr,
    expr: Rc<Expr>,
    input_schema: SchemaRef,
    output_field: Field,
    returns_scalar: bool,
}

impl Model for ApplyExpr {
    ghost use Rattle.px_answers.specs.Parts.{PlannedApply, coded_apply};

    ghost Value = { PlannedApply };

    ghost coded = { coded_apply };

    ghost use Rattle.std.specs.Prelude.{◌≡◌, map};
    ghost use Rattle.px_frame.specs.SchemaView.{field_kind};
    ghost use Rattle.px_tree.specs.Shape.{is_unit};
    ghost use Rattle.px_tree.specs.Tree.{called};
    ghost use Rattle.px_tree.specs.View.{tree};
    ghost use Rattle.px_physical.specs.NodeView.{plan_of};
    ghost use Rattle.px_answers.specs.Parts.{call_in, call_on, plan_trees};
    ghost use Rattle.px_physical.specs.Size.{apply_size};

    ghost view = { λ a. record { inputs = map plan_of a.inputs.items; call = call_in (tree a.expr.value); input_schema = a.input_schema.value; output_field = field_kind a.output_field } };

    ghost invariant = { λ a. (tree a.expr.value ≡ call_on (plan_trees (map plan_of a.inputs.items)) (call_in (tree a.expr.value))) × ((called (call_in (tree a.expr.value)) ≡ a.function) × (a.returns_scalar ≡ is_unit (tree a.expr.value))) };

    ghost size = { apply_size };

    ghost use Rattle.px_physical.specs.Deep.{falls_apply};

    ghost size_decreases = { falls_apply };
}

impl ApplyExpr {
    /// A function of nodes; the expression is that call, and `returns_scalar` tells whether it has one
    /// value. The schema and the field are hints, which change nothing.
    pub fn new(
        inputs: Vec<PhysExpr>,
        function: FunctionExpr,
        expr: Rc<Expr>,
        input_schema: SchemaRef,
        output_field: Field,
        returns_scalar: bool,
    ) -> ApplyExpr
        requires tree { tree expr.value ≡ call_on (plan_trees (map plan_of inputs.items)) (call_in (tree expr.value)) }
        requires function { called (call_in (tree expr.value)) ≡ function }
        requires unit { returns_scalar ≡ is_unit (tree expr.value) }
        ensures { result ≡ record { inputs = map plan_of inputs.items; call = call_in (tree expr.value); input_schema = input_schema.value; output_field = field_kind output_field } }
    {
        ApplyExpr {
            inputs,
            function,
            expr,
            input_schema,
            output_field,
            returns_scalar,
        }
    }

    /// The nodes that the function takes.
    pub fn inputs(&self) -> &[PhysExpr]
        ensures { map plan_of result.now ≡ self.now.inputs }
    {
        &self.inputs
    }

    /// The function.
    pub fn function(&self) -> &FunctionExpr
        ensures { result.now ≡ called self.now.call }
    {
        &self.function
    }

    /// The schema that the node was told.
    pub fn input_schema(&self) -> &SchemaRef
        ensures { result.now.value ≡ self.now.input_schema }
    {
        &self.input_schema
    }

    /// The field that the node was told.
    pub fn output_field(&self) -> &Field
        ensures { field_kind result.now ≡ self.now.output_field }
    {
        &self.output_field
    }

    /// The expression.
    pub fn expr(&self) -> &Expr
        ensures { tree result.now ≡ (apply_plan self.now).tree }
    {
        &self.expr
    }

    /// Whether it has one value, whatever the frame.
    pub fn returns_scalar(&self) -> bool
        ensures { result ≡ is_unit (apply_plan self.now).tree }
    {
        self.returns_scalar
    }

    /// Whether each leaf of its inputs is a literal.
    #[cycle(lit)]
    pub(crate) fn has_literals_alone(&self) -> bool
        ensures { result ≡ is_literal_tree (apply_plan self.now).tree }
    {
        have_literals_alone(&self.inputs)
    }

    /// Whether an Implode stands in its inputs.
    #[cycle(implode)]
    pub(crate) fn has_implode(&self) -> bool
        ensures { result ≡ has_implode (apply_plan self.now).tree }
    {
        have_implode(&self.inputs)
    }
}

impl PhysicalExpr for ApplyExpr {
    ghost use Rattle.px_answers.specs.Parts.{apply_plan};

    ghost planned = { apply_plan };

    fn as_expression(&self) -> Option<&Expr> {
        Some(&self.expr)
    }

    #[cycle(evaluate)]
    #[tactic(auto, using(px_answers::proofs::Applied::apply_value, px_answers::proofs::Applied::apply_refusal, px_answers::proofs::Applied::apply_input_cause, crate::proofs::CellsInOrder::apply_ticks, crate::proofs::CellsInOrder::apply_cost))]
    fn evaluate<L: Ledger, M: Ledger>(
        &self,
        alloc: Global,
        df: &DataFrame,
        state: &mut ExecutionState,
        kernels: &mut Steps<L>,
        groupings: &mut Steps<M>,
    ) -> Px<Column> {
        let inputs = evaluate_cells(alloc, &self.inputs, df, state, kernels, groupings)?;
        Ok(apply_cells(alloc, inputs, &self.function, kernels)?.into_column())
    }

    #[tactic(auto, using(px_group_answers::proofs::Lists::some_inputs, px_group_answers::proofs::Lists::are_paired))]
    #[cycle(groups)]
    fn evaluate_on_groups<'a, L: Ledger, M: Ledger>(
        &self,
        alloc: Global,
        df: &'a DataFrame,
        groups: &'a GroupPositions,
        state: &mut ExecutionState,
        kernels: &mut Steps<L>,
        groupings: &mut Steps<M>,
    ) -> Px<AggregationContext<'a>> {
        let inputs = contexts_on_groups(
            alloc,
            &self.inputs,
            df,
            groups,
            state,
            kernels,
            groupings,
        )?;
        accept_inputs(&self.function, &self.inputs)?;
        apply_groups(alloc, inputs, &self.function, kernels)
    }

    #[cycle(inline)]
    #[tactic(auto, using(crate::proofs::Inlined::apply_inline, crate::proofs::Inlined::apply_nothing, crate::proofs::Inlined::not_inline))]
    fn evaluate_inline_impl(&self, alloc: Global, depth_limit: u8) -> Px<Option<Column>> {
        if depth_limit == 0 {
            return Ok(None);
        }
        match inline_cells(alloc, &self.inputs, depth_limit - 1)? {
            Some(cells) => inline_function(alloc, cells, &self.function),
            None => Ok(None),
        }
    }

    fn to_field(&self, alloc: Global, input_schema: &Schema) -> Px<Field> {
        expression_field(alloc, &self.expr, input_schema)
    }

    #[cycle(live)]
    fn collect_live_columns(&self, alloc: Global, lv: &mut IndexSet<Name>) -> Px<()> {
        collect_all(alloc, &self.inputs, lv)
    }

    fn is_literal(&self) -> bool {
        let _ = &self.expr;
        false
    }

    fn is_scalar(&self) -> bool {
        self.returns_scalar
    }

    fn is_partitioned_aggregator(&self) -> bool {
        self.inputs.len() == 1 && is_truth_of_row(&self.function)
    }
}

/// Whether a function of one input is evaluated on chunks of rows.
fn is_truth_of_row(function: &FunctionExpr) -> bool
    ensures { result ≡ is_partitioned_function function.now }
{
    matches!(
        function,
        FunctionExpr::IsNull | FunctionExpr::IsNotNull | FunctionExpr::Not
    )
}
