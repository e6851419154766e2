//! From expressions in an arena to nodes.
ghost use Rattle.std.specs.Prelude.{◌≡◌, ◌<◌, length, map, Ok, IfErr, IfOk, OnOk, OnErr, option_map};
ghost use Rattle.std.specs.List.{All};
ghost use Rattle.px_column.specs.Prelude.{AnswersBy, kind_of};
ghost use Rattle.px_arena.specs.Arena.{tree_at};
ghost use Rattle.px_tree.specs.Typing.{type_of};
ghost use Rattle.px_tree.specs.View.{tree, trees, agg_tree, mapping_of, order_tree};
ghost use Rattle.px_answers.specs.Parts.{under};
ghost use Rattle.px_physical.specs.NodeView.{order_of, plan_of};
ghost use Rattle.px_expr.specs.Plan.{function_of, plan_in, plans_in, planned_over, all_planned_over, order_planned_over, all_noted, IsPlannable, NotesFront};
ghost use Rattle.px_conversion.specs.Noted.{noted};

mod apply;
mod nodes;

use apply::plan_apply;
use nodes::{
    PlannedFunction, plan_aggregation, plan_alias, plan_binary, plan_cast, plan_column,
    plan_filter, plan_gather, plan_literal, plan_slice, plan_sort, plan_sort_by, plan_ternary,
    plan_window,
};
use px_column::{DataType, GroupByMethod, Name, Px, SortOptions};
use px_conversion::ExpressionConversionState;
use px_frame::SchemaRef;
use px_physical::{CountExpr, PhysExpr};
use px_plan::{
    AggExpr, Arena, Context, Expr, ExprIR, Exprs, FunctionExpr, WindowMapping, WindowType,
    node_to_expr, type_of,
};
use std::alloc::Global;
use std::rc::Rc;

/// The nodes of expressions in their order, each under the name that it is given, if any; or the first
/// refusal, before which what is noted is that of the expressions so far (polars
/// `create_physical_expressions_from_irs`).
pub fn create_physical_expressions_from_irs(
    alloc: Global,
    exprs: &[ExprIR],
    context: Context,
    expr_arena: &Arena,
    schema: &SchemaRef,
    state: &mut ExpressionConversionState,
) -> Px<Vec<PhysExpr>>
    requires { All (IsPlannable expr_arena.now) exprs.now }
    ensures nodes { AnswersBy (λ v. map plan_of v.items) result (plans_in exprs.now expr_arena.now schema.now.value context) }
    ensures noted { OnOk result (state.new ≡ all_noted expr_arena.now state.old exprs.now) }
    ensures refused { IfErr result (λ e. NotesFront e expr_arena.now schema.now.value context state.old exprs.now state.new) }
{
    let mut plans = Vec::with_capacity(alloc, exprs.len())?;
    for expr_ir in exprs {
        let plan = create_physical_expr(alloc, expr_ir, context, expr_arena, schema, state)?;
        plans.push(plan)?;
    }
    Ok(plans)
}

/// The node of an expression, under the name that it is given, if any; or the first refusal of its
/// typing over the schema in this context (polars `create_physical_expr`). What is noted stays as
/// it was where the call is refused.
pub fn create_physical_expr(
    alloc: Global,
    expr_ir: &ExprIR,
    ctxt: Context,
    expr_arena: &Arena,
    schema: &SchemaRef,
    state: &mut ExpressionConversionState,
) -> Px<PhysExpr>
    requires node { expr_ir.now.node.0 < length expr_arena.now }
    ensures node { AnswersBy plan_of result (plan_in expr_ir.now.alias (tree_at expr_arena.now expr_ir.now.node) schema.now.value ctxt) }
    ensures noted { OnOk result (state.new ≡ noted (tree_at expr_arena.now expr_ir.now.node) state.old) }
    ensures refused { OnErr result (state.new ≡ state.old) }
{
    let (plan, _) = create_typed_expr(alloc, expr_ir, ctxt, expr_arena, schema, state)?;
    Ok(plan)
}

/// The same node, and the type of its values over the schema in this context.
pub fn create_typed_expr(
    alloc: Global,
    expr_ir: &ExprIR,
    ctxt: Context,
    expr_arena: &Arena,
    schema: &SchemaRef,
    state: &mut ExpressionConversionState,
) -> Px<(PhysExpr, DataType)>
    requires node { expr_ir.now.node.0 < length expr_arena.now }
    ensures node { AnswersBy (λ p. plan_of p.0) result (plan_in expr_ir.now.alias (tree_at expr_arena.now expr_ir.now.node) schema.now.value ctxt) }
    ensures dtype { IfOk result (λ p. type_of (tree_at expr_arena.now expr_ir.now.node) schema.now.value ctxt ≡ Ok (kind_of p.1)) }
    ensures noted { OnOk result (state.new ≡ noted (tree_at expr_arena.now expr_ir.now.node) state.old) }
    ensures refused { OnErr result (state.new ≡ state.old) }
{
    let expr = node_to_expr(alloc, expr_ir.node(), expr_arena)?;
    let dtype = type_of(alloc, &expr, schema, ctxt)?;
    let noted = state.noting(&expr);
    let plan = plan_named(alloc, expr, expr_ir.get_alias(), schema)?;
    *state = noted;
    Ok((plan, dtype))
}

// The node of an expression that has no refusal over the schema, under a name where one is given.
fn plan_named(alloc: Global, expr: Expr, name: Option<&Name>, schema: &SchemaRef) -> Px<PhysExpr>
    ensures { AnswersBy plan_of result (Ok (planned_over schema.now.value (under (option_map (λ n. n.now) name.entry) (tree expr)))) }
{
    let input = plan_expr(alloc, &expr, schema)?;
    match name {
        None => Ok(input),
        Some(name) => plan_alias(alloc, input, name, expr),
    }
}

// The node of an expression that has no refusal over the schema; the nodes share its parts.
#[cycle(plan_expr)]
fn plan_expr(alloc: Global, expr: &Expr, schema: &SchemaRef) -> Px<PhysExpr>
    ensures { AnswersBy plan_of result (Ok (planned_over schema.now.value (tree expr.now))) }
{
    match expr {
        Expr::Column(name) => plan_column(alloc, name, schema),
        Expr::Literal(value) => plan_literal(alloc, value),
        Expr::Alias(input, name) => {
            let expr = input.try_clone(alloc)?;
            let input = plan_expr(alloc, input, schema)?;
            plan_alias(alloc, input, name, expr)
        }
        Expr::BinaryExpr { left, op, right } => {
            let left = plan_expr(alloc, left, schema)?;
            let right = plan_expr(alloc, right, schema)?;
            plan_binary(alloc, left, *op, right, expr)
        }
        Expr::Ternary {
            predicate,
            truthy,
            falsy,
        } => {
            let predicate = plan_expr(alloc, predicate, schema)?;
            let truthy = plan_expr(alloc, truthy, schema)?;
            let falsy = plan_expr(alloc, falsy, schema)?;
            plan_ternary(alloc, predicate, truthy, falsy, expr)
        }
        Expr::Cast {
            expr: input,
            dtype,
            options,
        } => {
            let input = plan_expr(alloc, input, schema)?;
            plan_cast(alloc, input, dtype, *options, expr)
        }
        Expr::Function { input, function } => {
            let inputs = plan_all(alloc, input, schema)?;
            plan_apply(alloc, inputs, *function, expr, schema)
        }
        Expr::Explode(input) => {
            let mut inputs = Vec::with_capacity(alloc, 1)?;
            inputs.push(plan_expr(alloc, input, schema)?)?;
            plan_apply(alloc, inputs, FunctionExpr::Explode, expr, schema)
        }
        Expr::Filter { input, by } => {
            let input = plan_expr(alloc, input, schema)?;
            let by = plan_expr(alloc, by, schema)?;
            plan_filter(alloc, input, by, expr)
        }
        Expr::Slice {
            input,
            offset,
            length,
        } => {
            let input = plan_expr(alloc, input, schema)?;
            let offset = plan_expr(alloc, offset, schema)?;
            let length = plan_expr(alloc, length, schema)?;
            plan_slice(alloc, input, offset, length, expr)
        }
        Expr::Gather {
            expr: input,
            idx,
            returns_scalar,
        } => {
            let input = plan_expr(alloc, input, schema)?;
            let idx = plan_expr(alloc, idx, schema)?;
            plan_gather(alloc, input, idx, *returns_scalar, expr)
        }
        Expr::Sort {
            expr: input,
            options,
        } => {
            let input = plan_expr(alloc, input, schema)?;
            plan_sort(alloc, input, *options, expr)
        }
        Expr::SortBy {
            expr: input,
            by,
            sort_options,
        } => {
            let input = plan_expr(alloc, input, schema)?;
            let by = plan_all(alloc, by, schema)?;
            plan_sort_by(alloc, input, by, sort_options, expr)
        }
        Expr::Agg(reduction) => plan_reduction(alloc, reduction, schema),
        Expr::Len => Ok(PhysExpr::Count(CountExpr::new())),
        Expr::Window {
            function,
            partition_by,
            order_by,
            options,
        } => {
            let planned = plan_function(alloc, function, schema)?;
            let keys = plan_all(alloc, partition_by, schema)?;
            let order = plan_order(alloc, order_by, schema)?;
            plan_window(alloc, planned, keys, order, mapping_of(options), expr)
        }
    }
}

// The nodes of some expressions that have no refusal over the schema, in their order.
#[cycle(plan_expr)]
fn plan_all(alloc: Global, exprs: &Exprs, schema: &SchemaRef) -> Px<Vec<PhysExpr>>
    ensures { AnswersBy (λ v. map plan_of v.items) result (Ok (all_planned_over schema.now.value (trees exprs.now))) }
{
    let mut plans = Vec::with_capacity(alloc, exprs.items.len())?;
    for expr in exprs.items.iter() {
        plans.push(plan_expr(alloc, expr, schema)?)?;
    }
    Ok(plans)
}

// Where what a window's function has for each part stands.
fn mapping_of(options: &WindowType) -> WindowMapping
    ensures { result ≡ mapping_of options.now }
{
    match options {
        WindowType::Over(mapping) => *mapping,
    }
}

// The function of a window: an alias is its result's name, and the function what the alias stands over.
#[cycle(plan_expr)]
fn plan_function(alloc: Global, function: &Expr, schema: &SchemaRef) -> Px<PlannedFunction>
    ensures planned { AnswersBy function_of result (Ok (planned_over schema.now.value (tree function.now))) }
    ensures function { IfOk result (λ p. tree p.function ≡ (plan_of p.node).tree) }
{
    match function {
        Expr::Alias(input, name) => {
            let out_name = Some(name.try_clone(alloc)?);
            let function = input.try_clone(alloc)?;
            let node = plan_expr(alloc, input, schema)?;
            Ok(PlannedFunction {
                out_name,
                function,
                node,
            })
        }
        _ => {
            let node = plan_expr(alloc, function, schema)?;
            let function = function.try_clone(alloc)?;
            Ok(PlannedFunction {
                out_name: None,
                function,
                node,
            })
        }
    }
}

// The node of what rows are ordered by, if by any, which has no refusal over the schema.
#[cycle(plan_expr)]
fn plan_order(
    alloc: Global,
    order: &Option<(Rc<Expr>, SortOptions)>,
    schema: &SchemaRef,
) -> Px<Option<(Box<PhysExpr>, SortOptions)>>
    ensures { AnswersBy order_of result (Ok (order_planned_over schema.now.value (order_tree order.now))) }
{
    match order {
        None => Ok(None),
        Some((key, options)) => {
            let key = plan_expr(alloc, key, schema)?;
            Ok(Some((Box::new(alloc, key)?, *options)))
        }
    }
}

// The node of a reduction that has no refusal over the schema.
#[cycle(plan_expr)]
fn plan_reduction(alloc: Global, reduction: &AggExpr, schema: &SchemaRef) -> Px<PhysExpr>
    ensures { AnswersBy plan_of result (Ok (planned_over schema.now.value (agg_tree reduction.now))) }
{
    let (method, input) = match reduction {
        AggExpr::Min(input) => (GroupByMethod::Min, input),
        AggExpr::Max(input) => (GroupByMethod::Max, input),
        AggExpr::Sum(input) => (GroupByMethod::Sum, input),
        AggExpr::First(input) => (GroupByMethod::First, input),
        AggExpr::Last(input) => (GroupByMethod::Last, input),
        AggExpr::NUnique(input) => (GroupByMethod::NUnique, input),
        AggExpr::Implode(input) => (GroupByMethod::Implode, input),
        AggExpr::Count(input, include_nulls) => (
            GroupByMethod::Count {
                include_nulls: *include_nulls,
            },
            input,
        ),
    };
    let input = plan_expr(alloc, input, schema)?;
    plan_aggregation(alloc, input, method)
}
