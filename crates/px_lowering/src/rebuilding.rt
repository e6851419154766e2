//! From arenas to expressions.
ghost use Rattle.std.specs.Prelude.{◌≡◌, ◌<◌, ◌≤◌, Ok, length, true};
ghost use Rattle.px_column.specs.Prelude.{AnswersBy};
ghost use Rattle.px_arena.specs.Arena.{tree_at, trees_at, order_at, agg_at, all_below, order_below, agg_input, agg_method, is_below};
ghost use Rattle.px_tree.specs.Tree.{agg as reduction};
ghost use Rattle.px_tree.specs.View.{tree, trees, agg_tree, order_tree};

use px_arena::{AExpr, Arena, IRAggExpr, Node};
use px_column::{Px, SortOptions};
use px_tree::{AggExpr, Expr, Exprs};
use std::alloc::Global;
use std::rc::Rc;

/// The expression of an arena's node (polars `node_to_expr`). After `to_arena` it has the same tree
/// as the expression that was added.
#[cycle(node_to_expr)]
pub fn node_to_expr(alloc: Global, node: Node, arena: &Arena) -> Px<Expr>
    requires { node.0 < length arena.now }
    ensures { AnswersBy tree result (Ok (tree_at arena.now node)) }
{
    match arena.get(node) {
        AExpr::Column(name) => Ok(Expr::Column(name.try_clone(alloc)?)),
        AExpr::Literal(value) => Ok(Expr::Literal(value.try_clone(alloc)?)),
        AExpr::Alias(expr, name) => {
            let expr = share_expr(alloc, *expr, arena)?;
            Ok(Expr::Alias(expr, name.try_clone(alloc)?))
        }
        AExpr::BinaryExpr { left, op, right } => {
            let left = share_expr(alloc, *left, arena)?;
            let right = share_expr(alloc, *right, arena)?;
            Ok(Expr::BinaryExpr {
                left,
                op: *op,
                right,
            })
        }
        AExpr::Ternary {
            predicate,
            truthy,
            falsy,
        } => {
            let predicate = share_expr(alloc, *predicate, arena)?;
            let truthy = share_expr(alloc, *truthy, arena)?;
            let falsy = share_expr(alloc, *falsy, arena)?;
            Ok(Expr::Ternary {
                predicate,
                truthy,
                falsy,
            })
        }
        AExpr::Cast {
            expr,
            dtype,
            options,
        } => {
            let expr = share_expr(alloc, *expr, arena)?;
            let dtype = dtype.try_clone(alloc)?;
            Ok(Expr::Cast {
                expr,
                dtype,
                options: *options,
            })
        }
        AExpr::Function { input, function } => {
            let input = nodes_to_exprs(alloc, input, node.0, arena)?;
            Ok(Expr::Function {
                input,
                function: *function,
            })
        }
        AExpr::Explode(expr) => Ok(Expr::Explode(share_expr(alloc, *expr, arena)?)),
        AExpr::Filter { input, by } => {
            let input = share_expr(alloc, *input, arena)?;
            let by = share_expr(alloc, *by, arena)?;
            Ok(Expr::Filter { input, by })
        }
        AExpr::Slice {
            input,
            offset,
            length,
        } => {
            let input = share_expr(alloc, *input, arena)?;
            let offset = share_expr(alloc, *offset, arena)?;
            let length = share_expr(alloc, *length, arena)?;
            Ok(Expr::Slice {
                input,
                offset,
                length,
            })
        }
        AExpr::Gather {
            expr,
            idx,
            returns_scalar,
        } => {
            let expr = share_expr(alloc, *expr, arena)?;
            let idx = share_expr(alloc, *idx, arena)?;
            Ok(Expr::Gather {
                expr,
                idx,
                returns_scalar: *returns_scalar,
            })
        }
        AExpr::Sort { expr, options } => {
            let expr = share_expr(alloc, *expr, arena)?;
            Ok(Expr::Sort {
                expr,
                options: *options,
            })
        }
        AExpr::SortBy {
            expr,
            by,
            sort_options,
        } => {
            let expr = share_expr(alloc, *expr, arena)?;
            let by = nodes_to_exprs(alloc, by, node.0, arena)?;
            let sort_options = sort_options.try_clone(alloc)?;
            Ok(Expr::SortBy {
                expr,
                by,
                sort_options,
            })
        }
        AExpr::Agg(agg) => Ok(Expr::Agg(agg_to_expr(alloc, *agg, node.0, arena)?)),
        AExpr::Len => Ok(Expr::Len),
        AExpr::Window {
            function,
            partition_by,
            order_by,
            options,
        } => {
            let function = share_expr(alloc, *function, arena)?;
            let partition_by = nodes_to_exprs(alloc, partition_by, node.0, arena)?;
            let order_by = order_to_expr(alloc, *order_by, node.0, arena)?;
            Ok(Expr::Window {
                function,
                partition_by,
                order_by,
                options: *options,
            })
        }
    }
}

#[cycle(node_to_expr)]
fn share_expr(alloc: Global, node: Node, arena: &Arena) -> Px<Rc<Expr>>
    requires { node.0 < length arena.now }
    ensures { AnswersBy (λ b. tree b.value) result (Ok (tree_at arena.now node)) }
{
    let expr = node_to_expr(alloc, node, arena)?;
    Ok(Rc::new(alloc, expr)?)
}

// The expressions of nodes that stand before a place.
#[cycle(node_to_expr)]
fn nodes_to_exprs(alloc: Global, nodes: &[Node], before: u32, arena: &Arena) -> Px<Exprs>
    requires within { before ≤ length arena.now }
    requires below { all_below before nodes.now ≡ true }
    ensures { AnswersBy trees result (Ok (trees_at arena.now nodes.now)) }
{
    let mut items = Vec::with_capacity(alloc, nodes.len())?;
    for node in nodes {
        items.push(node_to_expr(alloc, *node, arena)?)?;
    }
    Ok(Exprs {
        items: Rc::new(alloc, items)?,
    })
}

#[cycle(node_to_expr)]
fn order_to_expr(
    alloc: Global,
    order_by: Option<(Node, SortOptions)>,
    before: u32,
    arena: &Arena,
) -> Px<Option<(Rc<Expr>, SortOptions)>>
    requires within { before ≤ length arena.now }
    requires below { order_below before order_by ≡ true }
    ensures { AnswersBy order_tree result (Ok (order_at arena.now order_by)) }
{
    match order_by {
        None => Ok(None),
        Some((by, options)) => Ok(Some((share_expr(alloc, by, arena)?, options))),
    }
}

#[cycle(node_to_expr)]
fn agg_to_expr(alloc: Global, agg: IRAggExpr, before: u32, arena: &Arena) -> Px<AggExpr>
    requires within { before ≤ length arena.now }
    requires below { is_below before (agg_input agg) ≡ true }
    ensures { AnswersBy agg_tree result (Ok (agg_at arena.now agg)) }
{
    let expr = share_expr(alloc, agg.input(), arena)?;
    Ok(reduction_of(agg, expr))
}

// A reduction of an expression, in the way of one in an arena.
fn reduction_of(agg: IRAggExpr, expr: Rc<Expr>) -> AggExpr
    ensures { agg_tree result ≡ reduction (agg_method agg) (tree expr.value) }
{
    match agg {
        IRAggExpr::Min(_) => AggExpr::Min(expr),
        IRAggExpr::Max(_) => AggExpr::Max(expr),
        IRAggExpr::Sum(_) => AggExpr::Sum(expr),
        IRAggExpr::First(_) => AggExpr::First(expr),
        IRAggExpr::Last(_) => AggExpr::Last(expr),
        IRAggExpr::NUnique(_) => AggExpr::NUnique(expr),
        IRAggExpr::Implode(_) => AggExpr::Implode(expr),
        IRAggExpr::Count(_, nulls) => AggExpr::Count(expr, nulls),
    }
}
