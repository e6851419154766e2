//! From expressions to arenas.
ghost use Rattle.std.specs.Prelude.{◌≡◌, ◌+◌, ◌^◌, ◌<◌, ◌++◌, Ok, IfOk, OnOk, OnErr, length, true, ◌&&◌};
ghost use Rattle.px_column.specs.Prelude.{Answers, AnswersBy};
ghost use Rattle.px_lowering.specs.Adding.{AddsFront};
ghost use Rattle.px_arena.specs.Arena.{tree_at, trees_at, order_at, agg_at, node_tree, children_below, is_below, all_below, order_below, agg_input, agg_method};
ghost use Rattle.px_tree.specs.Nodes.{nodes_of, all_nodes_of, order_nodes_of, postorder, all_postorder, order_postorder, children_postorder};
ghost use Rattle.px_tree.specs.Tree.{agg as reduction};
ghost use Rattle.px_tree.specs.View.{tree, trees, agg_tree, order_tree};

use px_arena::{AExpr, Arena, IRAggExpr, Node};
use px_column::{GroupByMethod, Px, SortOptions};
use px_tree::{AggExpr, Expr, Exprs};
use std::alloc::Global;
use std::rc::Rc;

/// Adds an expression's nodes to an arena, each behind its children and these from left to right,
/// and says where the last one stands, which is the expression's own (polars `to_aexpr`). There
/// must be room for them all. Out of memory, the nodes that were added so far stay.
///
/// `node_to_expr` gives an expression with the same tree.
#[cycle(to_arena)]
pub fn to_arena(alloc: Global, expr: &Expr, arena: &mut Arena) -> Px<Node>
    requires { length arena.old + nodes_of (tree expr.now) < 2 ^ 32 }
    ensures added { OnOk result (arena.new ≡ arena.old ++ postorder (tree expr.now)) }
    ensures part { OnErr result (AddsFront arena.old (postorder (tree expr.now)) arena.new) }
    ensures count { OnOk result (length arena.new ≡ length arena.old + nodes_of (tree expr.now)) }
    ensures last { AnswersBy (λ node. node.0 + 1) result (Ok (length arena.new)) }
    ensures tree { IfOk result (λ node. tree_at arena.new node ≡ tree expr.now) }
{
    let item = children_to_arena(alloc, expr, arena)?;
    arena.add(item)
}

// Adds the nodes of an expression's children, and gives its own, which is not added.
#[cycle(to_arena)]
fn children_to_arena(alloc: Global, expr: &Expr, arena: &mut Arena) -> Px<AExpr>
    requires { length arena.old + nodes_of (tree expr.now) < 2 ^ 32 }
    ensures added { OnOk result (arena.new ≡ arena.old ++ children_postorder (tree expr.now)) }
    ensures part { OnErr result (AddsFront arena.old (children_postorder (tree expr.now)) arena.new) }
    ensures count { OnOk result (length arena.new + 1 ≡ length arena.old + nodes_of (tree expr.now)) }
    ensures tree { AnswersBy (node_tree arena.new) result (Ok (tree expr.now)) }
    ensures below { IfOk result (λ item. children_below (length arena.new) item ≡ true) }
{
    match expr {
        Expr::Column(name) => Ok(AExpr::Column(name.try_clone(alloc)?)),
        Expr::Literal(value) => Ok(AExpr::Literal(value.try_clone(alloc)?)),
        Expr::Alias(expr, name) => {
            let name = name.try_clone(alloc)?;
            let expr = to_arena(alloc, expr, arena)?;
            Ok(AExpr::Alias(expr, name))
        }
        Expr::BinaryExpr { left, op, right } => {
            let (left, right) = two_to_arena(alloc, left, right, arena)?;
            Ok(AExpr::BinaryExpr {
                left,
                op: *op,
                right,
            })
        }
        Expr::Ternary {
            predicate,
            truthy,
            falsy,
        } => {
            let (predicate, truthy, falsy) = three_to_arena(
                alloc, predicate, truthy, falsy, arena,
            )?;
            Ok(AExpr::Ternary {
                predicate,
                truthy,
                falsy,
            })
        }
        Expr::Cast {
            expr,
            dtype,
            options,
        } => {
            let dtype = dtype.try_clone(alloc)?;
            let expr = to_arena(alloc, expr, arena)?;
            Ok(AExpr::Cast {
                expr,
                dtype,
                options: *options,
            })
        }
        Expr::Function { input, function } => {
            let input = all_to_arena(alloc, input, arena)?;
            Ok(AExpr::Function {
                input,
                function: *function,
            })
        }
        Expr::Explode(expr) => {
            let expr = to_arena(alloc, expr, arena)?;
            Ok(AExpr::Explode(expr))
        }
        Expr::Filter { input, by } => {
            let (input, by) = two_to_arena(alloc, input, by, arena)?;
            Ok(AExpr::Filter { input, by })
        }
        Expr::Slice {
            input,
            offset,
            length,
        } => {
            let (input, offset, length) = three_to_arena(alloc, input, offset, length, arena)?;
            Ok(AExpr::Slice {
                input,
                offset,
                length,
            })
        }
        Expr::Gather {
            expr,
            idx,
            returns_scalar,
        } => {
            let (expr, idx) = two_to_arena(alloc, expr, idx, arena)?;
            Ok(AExpr::Gather {
                expr,
                idx,
                returns_scalar: *returns_scalar,
            })
        }
        Expr::Sort { expr, options } => {
            let expr = to_arena(alloc, expr, arena)?;
            Ok(AExpr::Sort {
                expr,
                options: *options,
            })
        }
        Expr::SortBy {
            expr,
            by,
            sort_options,
        } => {
            let sort_options = sort_options.try_clone(alloc)?;
            let expr = to_arena(alloc, expr, arena)?;
            let by = all_to_arena(alloc, by, arena)?;
            Ok(AExpr::SortBy {
                expr,
                by,
                sort_options,
            })
        }
        Expr::Agg(agg) => {
            let agg = agg_to_arena(alloc, agg, arena)?;
            Ok(AExpr::Agg(agg))
        }
        Expr::Len => Ok(AExpr::Len),
        Expr::Window {
            function,
            partition_by,
            order_by,
            options,
        } => {
            let function = to_arena(alloc, function, arena)?;
            let partition_by = all_to_arena(alloc, partition_by, arena)?;
            let order_by = order_to_arena(alloc, order_by, arena)?;
            Ok(AExpr::Window {
                function,
                partition_by,
                order_by,
                options: *options,
            })
        }
    }
}

// Adds two expressions one after the other.
#[cycle(to_arena)]
fn two_to_arena(alloc: Global, first: &Expr, second: &Expr, arena: &mut Arena) -> Px<(Node, Node)>
    requires { length arena.old + (nodes_of (tree first.now) + nodes_of (tree second.now)) < 2 ^ 32 }
    ensures added { OnOk result
        (arena.new ≡ arena.old ++ (postorder (tree first.now) ++ postorder (tree second.now))) }
    ensures part { OnErr result
        (AddsFront arena.old (postorder (tree first.now) ++ postorder (tree second.now)) arena.new) }
    ensures count { OnOk result
        (length arena.new ≡ length arena.old + (nodes_of (tree first.now) + nodes_of (tree second.now))) }
    ensures first { AnswersBy (λ nodes. tree_at arena.new nodes.0) result (Ok (tree first.now)) }
    ensures second { IfOk result (λ nodes. tree_at arena.new nodes.1 ≡ tree second.now) }
    ensures below { IfOk result
        (λ nodes. (is_below (length arena.new) nodes.0 && is_below (length arena.new) nodes.1) ≡ true) }
{
    let first = to_arena(alloc, first, arena)?;
    let second = to_arena(alloc, second, arena)?;
    Ok((first, second))
}

// Adds three expressions one after another.
#[cycle(to_arena)]
fn three_to_arena(
    alloc: Global,
    first: &Expr,
    second: &Expr,
    third: &Expr,
    arena: &mut Arena,
) -> Px<(Node, Node, Node)>
    requires { length arena.old + (nodes_of (tree first.now) + (nodes_of (tree second.now) + nodes_of (tree third.now))) < 2 ^ 32 }
    ensures added { OnOk result
        (arena.new ≡ arena.old ++ (postorder (tree first.now) ++ (postorder (tree second.now) ++ postorder (tree third.now)))) }
    ensures part { OnErr result
        (AddsFront arena.old (postorder (tree first.now) ++ (postorder (tree second.now) ++ postorder (tree third.now))) arena.new) }
    ensures count { OnOk result
        (length arena.new ≡ length arena.old + (nodes_of (tree first.now) + (nodes_of (tree second.now) + nodes_of (tree third.now)))) }
    ensures first { AnswersBy (λ nodes. tree_at arena.new nodes.0) result (Ok (tree first.now)) }
    ensures second { IfOk result (λ nodes. tree_at arena.new nodes.1 ≡ tree second.now) }
    ensures third { IfOk result (λ nodes. tree_at arena.new nodes.2 ≡ tree third.now) }
    ensures below { IfOk result
        (λ nodes. (is_below (length arena.new) nodes.0 && (is_below (length arena.new) nodes.1 && is_below (length arena.new) nodes.2)) ≡ true) }
{
    let first = to_arena(alloc, first, arena)?;
    let (second, third) = two_to_arena(alloc, second, third, arena)?;
    Ok((first, second, third))
}

// Adds expressions one after another.
#[cycle(to_arena)]
fn all_to_arena(alloc: Global, exprs: &Exprs, arena: &mut Arena) -> Px<Vec<Node>>
    requires { length arena.old + all_nodes_of (trees exprs.now) < 2 ^ 32 }
    ensures added { OnOk result (arena.new ≡ arena.old ++ all_postorder (trees exprs.now)) }
    ensures part { OnErr result (AddsFront arena.old (all_postorder (trees exprs.now)) arena.new) }
    ensures count { OnOk result (length arena.new ≡ length arena.old + all_nodes_of (trees exprs.now)) }
    ensures trees { AnswersBy (λ nodes. trees_at arena.new nodes.items) result (Ok (trees exprs.now)) }
    ensures below { IfOk result (λ nodes. all_below (length arena.new) nodes.items ≡ true) }
{
    let mut nodes = Vec::with_capacity(alloc, exprs.items.len())?;
    for expr in exprs.items.iter() {
        nodes.push(to_arena(alloc, expr, arena)?)?;
    }
    Ok(nodes)
}

#[cycle(to_arena)]
fn order_to_arena(
    alloc: Global,
    order_by: &Option<(Rc<Expr>, SortOptions)>,
    arena: &mut Arena,
) -> Px<Option<(Node, SortOptions)>>
    requires { length arena.old + order_nodes_of (order_tree order_by.now) < 2 ^ 32 }
    ensures added { OnOk result (arena.new ≡ arena.old ++ order_postorder (order_tree order_by.now)) }
    ensures part { OnErr result (AddsFront arena.old (order_postorder (order_tree order_by.now)) arena.new) }
    ensures count { OnOk result
        (length arena.new ≡ length arena.old + order_nodes_of (order_tree order_by.now)) }
    ensures order { AnswersBy (order_at arena.new) result (Ok (order_tree order_by.now)) }
    ensures below { IfOk result (λ order. order_below (length arena.new) order ≡ true) }
{
    match order_by {
        None => Ok(None),
        Some((by, options)) => Ok(Some((to_arena(alloc, by, arena)?, *options))),
    }
}

// Adds what is reduced, but not the reduction.
#[cycle(to_arena)]
fn agg_to_arena(alloc: Global, agg: &AggExpr, arena: &mut Arena) -> Px<IRAggExpr>
    requires { length arena.old + nodes_of (agg_tree agg.now) < 2 ^ 32 }
    ensures added { OnOk result (arena.new ≡ arena.old ++ children_postorder (agg_tree agg.now)) }
    ensures part { OnErr result (AddsFront arena.old (children_postorder (agg_tree agg.now)) arena.new) }
    ensures count { OnOk result (length arena.new + 1 ≡ length arena.old + nodes_of (agg_tree agg.now)) }
    ensures tree { AnswersBy (agg_at arena.new) result (Ok (agg_tree agg.now)) }
    ensures below { IfOk result (λ agg. is_below (length arena.new) (agg_input agg) ≡ true) }
{
    let (method, expr) = how_and_what(agg);
    let expr = to_arena(alloc, expr, arena)?;
    Ok(reduction_at(method, expr))
}

// How a reduction reduces, and what.
fn how_and_what(agg: &AggExpr) -> (GroupByMethod, &Rc<Expr>)
    ensures { agg_tree agg.now ≡ reduction result.0 (tree result.1.now.value) }
{
    match agg {
        AggExpr::Min(expr) => (GroupByMethod::Min, expr),
        AggExpr::Max(expr) => (GroupByMethod::Max, expr),
        AggExpr::Sum(expr) => (GroupByMethod::Sum, expr),
        AggExpr::First(expr) => (GroupByMethod::First, expr),
        AggExpr::Last(expr) => (GroupByMethod::Last, expr),
        AggExpr::NUnique(expr) => (GroupByMethod::NUnique, expr),
        AggExpr::Implode(expr) => (GroupByMethod::Implode, expr),
        AggExpr::Count(expr, nulls) => (
            GroupByMethod::Count {
                include_nulls: *nulls,
            },
            expr,
        ),
    }
}

// The reduction of what stands at a place.
fn reduction_at(method: GroupByMethod, expr: Node) -> IRAggExpr
    ensures method { agg_method result ≡ method }
    ensures input { agg_input result ≡ expr }
{
    match method {
        GroupByMethod::Min => IRAggExpr::Min(expr),
        GroupByMethod::Max => IRAggExpr::Max(expr),
        GroupByMethod::Sum => IRAggExpr::Sum(expr),
        GroupByMethod::First => IRAggExpr::First(expr),
        GroupByMethod::Last => IRAggExpr::Last(expr),
        GroupByMethod::NUnique => IRAggExpr::NUnique(expr),
        GroupByMethod::Implode => IRAggExpr::Implode(expr),
        GroupByMethod::Count { include_nulls } => IRAggExpr::Count(expr, include_nulls),
    }
}
