//! How deep expressions are.
ghost use Rattle.std.specs.Prelude.{◌≡◌, max, nat_le};
ghost use Rattle.px_tree.specs.View.{tree, trees, agg_tree, order_tree};
ghost use Rattle.px_conversion.specs.Depth.{depth_of, all_depth_of, order_depth_of, is_too_deep};

use px_column::SortOptions;
use px_tree::{AggExpr, Expr, Exprs};
use std::rc::Rc;

/// Whether an expression is as deep as a limit: a path to a leaf has at least so many nodes. 0 is no
/// limit.
pub(crate) fn is_too_deep(expr: &Expr, limit: u16) -> bool
    ensures { result ≡ is_too_deep limit (tree expr.now) }
{
    limit != 0 && reaches(expr, limit)
}

// Whether a path to a leaf has at least so many nodes.
#[cycle(depth)]
fn reaches(expr: &Expr, nodes: u16) -> bool
    ensures { result ≡ nat_le nodes (depth_of (tree expr.now)) }
{
    let Some(below) = nodes.checked_sub(1) else {
        return true;
    };
    match expr {
        Expr::Column(_) => below == 0,
        Expr::Literal(_) => below == 0,
        Expr::Alias(expr, _) => reaches(expr, below),
        Expr::BinaryExpr { left, right, .. } => either_reaches(left, right, below),
        Expr::Ternary {
            predicate,
            truthy,
            falsy,
        } => one_of_three_reaches(predicate, truthy, falsy, below),
        Expr::Cast { expr, .. } => reaches(expr, below),
        Expr::Function { input, .. } => one_reaches(input, below),
        Expr::Explode(expr) => reaches(expr, below),
        Expr::Filter { input, by } => either_reaches(input, by, below),
        Expr::Slice {
            input,
            offset,
            length,
        } => one_of_three_reaches(input, offset, length, below),
        Expr::Gather { expr, idx, .. } => either_reaches(expr, idx, below),
        Expr::Sort { expr, .. } => reaches(expr, below),
        Expr::SortBy { expr, by, .. } => reaches(expr, below) || one_reaches(by, below),
        Expr::Agg(reduction) => reduced_reaches(reduction, nodes),
        Expr::Len => below == 0,
        Expr::Window {
            function,
            partition_by,
            order_by,
            ..
        } => {
            reaches(function, below)
                || one_reaches(partition_by, below)
                || order_reaches(order_by, below)
        }
    }
}

#[cycle(depth)]
fn either_reaches(first: &Expr, second: &Expr, nodes: u16) -> bool
    ensures { result ≡ nat_le nodes (max (depth_of (tree first.now)) (depth_of (tree second.now))) }
{
    reaches(first, nodes) || reaches(second, nodes)
}

#[cycle(depth)]
fn one_of_three_reaches(first: &Expr, second: &Expr, third: &Expr, nodes: u16) -> bool
    ensures { result ≡ nat_le nodes
        (max (depth_of (tree first.now)) (max (depth_of (tree second.now)) (depth_of (tree third.now)))) }
{
    reaches(first, nodes) || either_reaches(second, third, nodes)
}

#[cycle(depth)]
fn one_reaches(exprs: &Exprs, nodes: u16) -> bool
    ensures { result ≡ nat_le nodes (all_depth_of (trees exprs.now)) }
{
    for expr in exprs.items.iter() {
        if reaches(expr, nodes) {
            return true;
        }
    }
    nodes == 0
}

#[cycle(depth)]
fn order_reaches(order: &Option<(Rc<Expr>, SortOptions)>, nodes: u16) -> bool
    ensures { result ≡ nat_le nodes (order_depth_of (order_tree order.now)) }
{
    match order {
        None => nodes == 0,
        Some((key, _)) => reaches(key, nodes),
    }
}

// The same of a reduction, which is a node itself.
#[cycle(depth)]
fn reduced_reaches(reduction: &AggExpr, nodes: u16) -> bool
    ensures { result ≡ nat_le nodes (depth_of (agg_tree reduction.now)) }
{
    let Some(below) = nodes.checked_sub(1) else {
        return true;
    };
    match reduction {
        AggExpr::Min(input)
        | AggExpr::Max(input)
        | AggExpr::Sum(input)
        | AggExpr::First(input)
        | AggExpr::Last(input)
        | AggExpr::NUnique(input)
        | AggExpr::Implode(input)
        | AggExpr::Count(input, _) => reaches(input, below),
    }
}
