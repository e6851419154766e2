//! The types of expressions.
ghost use Rattle.std.specs.Prelude.{◌≡◌, option_map};
ghost use Rattle.px_column.specs.Prelude.{AnswersBy, kind_of};
ghost use Rattle.px_typing.specs.Facts.{facts_in, all_facts_in, order_facts_in, agg_facts};
ghost use Rattle.px_typing.specs.FactsView.{facts_of, all_facts_of};
ghost use Rattle.px_typing.specs.Places.{IsRefusedMoreOnGroups, KeepsTypeOnFrame};
ghost use Rattle.px_tree.specs.Typing.{type_of};
ghost use Rattle.px_tree.specs.View.{tree, trees, agg_tree, order_tree};
ghost use Rattle.px_tree.specs.declared.context.Context.TheVariants.{Aggregation};

use crate::functions::{infer_function, infer_of_one};
use crate::nodes::{
    infer_agg, infer_binary, infer_cast, infer_column, infer_filter, infer_gather, infer_len,
    infer_literal, infer_slice, infer_sort, infer_sort_by, infer_ternary, infer_window,
};
use crate::typed::Typed;
use px_column::{DataType, GroupByMethod, Px, SortOptions};
use px_frame::Schema;
use px_tree::{AggExpr, Context, Expr, Exprs, FunctionExpr};
use std::alloc::Global;
use std::rc::Rc;

/// The type of an expression's values over a schema, in a context (polars `AExpr::get_dtype`). The
/// first refusal is answered: the inputs' from left to right, then the expression's own. A window's
/// function stands on groups, its keys and its order on the frame.
///
/// On groups alone: `AggAboveImplode` where a reduction, a slice or a null count has an Implode below
/// it, `AggLiteral` and `AggScalar` where a reduction has nothing but literals or one value below
/// it, `ScalarOnGroups` where rows are chosen or moved in one value that is not made of literals,
/// and `WindowOnGroups`. Everywhere: `ColumnNotFound`, `SchemaMismatch` where a predicate or a mask
/// is not Boolean, `SingleIndex` where one row is asked for by several places, `NoKey` for a window
/// without keys, `ListKey` where lists are compared, `RangeType`, and `Types` for all other types or
/// numbers of inputs.
pub fn type_of(alloc: Global, expr: &Expr, scope: &Schema, context: Context) -> Px<DataType>
    ensures { AnswersBy kind_of result (type_of (tree expr.now) scope.now context) }
{
    let typed = infer_expr(alloc, expr, scope, context)?;
    Ok(typed.dtype)
}

/// The type of an expression on groups. Groups refuse more than the frame and give no other type:
/// with a type on groups an expression has it on the frame too, over every schema.
pub fn type_on_groups(alloc: Global, expr: &Expr, scope: &Schema) -> Px<DataType>
    ensures answer { AnswersBy kind_of result (type_of (tree expr.now) scope.now Aggregation) }
    ensures refuses_more { IsRefusedMoreOnGroups (tree expr.now) }
    ensures keeps_type { KeepsTypeOnFrame (tree expr.now) }
{
    type_of(alloc, expr, scope, Context::Aggregation)
}

#[cycle(typing)]
fn infer_expr(alloc: Global, expr: &Expr, scope: &Schema, context: Context) -> Px<Typed>
    ensures { AnswersBy facts_of result (facts_in (tree expr.now) scope.now context) }
{
    match expr {
        Expr::Column(name) => infer_column(alloc, name, scope),
        Expr::Literal(value) => infer_literal(alloc, value),
        Expr::Alias(input, _) => infer_expr(alloc, input, scope, context),
        Expr::BinaryExpr { left, op, right } => {
            let left = infer_expr(alloc, left, scope, context)?;
            let right = infer_expr(alloc, right, scope, context)?;
            infer_binary(*op, left, &right)
        }
        Expr::Ternary {
            predicate,
            truthy,
            falsy,
        } => {
            let predicate = infer_expr(alloc, predicate, scope, context)?;
            let truthy = infer_expr(alloc, truthy, scope, context)?;
            let falsy = infer_expr(alloc, falsy, scope, context)?;
            infer_ternary(&predicate, truthy, &falsy)
        }
        Expr::Cast { expr, dtype, .. } => {
            let input = infer_expr(alloc, expr, scope, context)?;
            infer_cast(alloc, &input, dtype)
        }
        Expr::Function { input, function } => {
            let inputs = infer_all(alloc, input, scope, context)?;
            infer_function(alloc, *function, inputs, context)
        }
        Expr::Explode(input) => {
            let input = infer_expr(alloc, input, scope, context)?;
            infer_of_one(alloc, FunctionExpr::Explode, input, context)
        }
        Expr::Filter { input, by } => {
            let input = infer_expr(alloc, input, scope, context)?;
            let by = infer_expr(alloc, by, scope, context)?;
            infer_filter(input, &by, context)
        }
        Expr::Slice {
            input,
            offset,
            length,
        } => {
            let input = infer_expr(alloc, input, scope, context)?;
            let offset = infer_expr(alloc, offset, scope, context)?;
            let length = infer_expr(alloc, length, scope, context)?;
            infer_slice(input, &offset, &length, context)
        }
        Expr::Gather {
            expr,
            idx,
            returns_scalar,
        } => {
            let input = infer_expr(alloc, expr, scope, context)?;
            let idx = infer_expr(alloc, idx, scope, context)?;
            infer_gather(input, &idx, *returns_scalar, context)
        }
        Expr::Sort { expr, .. } => {
            let input = infer_expr(alloc, expr, scope, context)?;
            infer_sort(input, context)
        }
        Expr::SortBy { expr, by, .. } => {
            let input = infer_expr(alloc, expr, scope, context)?;
            let by = infer_all(alloc, by, scope, context)?;
            infer_sort_by(input, &by, context)
        }
        Expr::Agg(reduction) => infer_reduction(alloc, reduction, scope, context),
        Expr::Len => Ok(infer_len()),
        Expr::Window {
            function,
            partition_by,
            order_by,
            options,
        } => {
            let function = infer_expr(alloc, function, scope, Context::Aggregation)?;
            let keys = infer_all(alloc, partition_by, scope, Context::Default)?;
            let order = infer_order(alloc, order_by, scope, Context::Default)?;
            infer_window(alloc, *options, function, &keys, order, context)
        }
    }
}

#[cycle(typing)]
fn infer_reduction(
    alloc: Global,
    reduction: &AggExpr,
    scope: &Schema,
    context: Context,
) -> Px<Typed>
    ensures { AnswersBy facts_of result (facts_in (agg_tree reduction.now) scope.now context) }
{
    let (method, input) = match reduction {
        AggExpr::Min(input) => (GroupByMethod::Min, input),
        AggExpr::Max(input) => (GroupByMethod::Max, input),
        AggExpr::Sum(input) => (GroupByMethod::Sum, input),
        AggExpr::First(input) => (GroupByMethod::First, input),
        AggExpr::Last(input) => (GroupByMethod::Last, input),
        AggExpr::NUnique(input) => (GroupByMethod::NUnique, input),
        AggExpr::Implode(input) => (GroupByMethod::Implode, input),
        AggExpr::Count(input, include_nulls) => (
            GroupByMethod::Count {
                include_nulls: *include_nulls,
            },
            input,
        ),
    };
    let input = infer_expr(alloc, input, scope, context)?;
    infer_agg(alloc, method, input, context)
}

#[cycle(typing)]
fn infer_all(alloc: Global, exprs: &Exprs, scope: &Schema, context: Context) -> Px<Vec<Typed>>
    ensures { AnswersBy (λ v. all_facts_of v.items) result (all_facts_in (trees exprs.now) scope.now context) }
{
    let mut items = Vec::new(alloc);
    for expr in exprs.items.iter() {
        items.push(infer_expr(alloc, expr, scope, context)?)?;
    }
    Ok(items)
}

#[cycle(typing)]
fn infer_order(
    alloc: Global,
    order: &Option<(Rc<Expr>, SortOptions)>,
    scope: &Schema,
    context: Context,
) -> Px<Option<Typed>>
    ensures { AnswersBy (option_map facts_of) result (order_facts_in (order_tree order.now) scope.now context) }
{
    match order {
        None => Ok(None),
        Some((key, _)) => Ok(Some(infer_expr(alloc, key, scope, context)?)),
    }
}
