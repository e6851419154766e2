//! Whether an expression's nodes have room in an arena.
ghost use Rattle.std.specs.Prelude.{◌≡◌, ◌+◌, ◌^◌, ◌<◌, ◌↔◌, IsTrue, IsNone, IfSome, length};
ghost use Rattle.px_tree.specs.Nodes.{nodes_of, all_nodes_of, order_nodes_of};
ghost use Rattle.px_tree.specs.View.{tree, trees, agg_tree, order_tree};

use px_arena::Arena;
use px_column::SortOptions;
use px_tree::{AggExpr, Expr, Exprs};
use std::rc::Rc;

/// Whether an arena has room for all nodes of an expression, as `to_arena` requires.
pub fn fits_arena(expr: &Expr, arena: &Arena) -> bool
    ensures { IsTrue result ↔ (length arena.now + nodes_of (tree expr.now) < 2 ^ 32) }
{
    room_left(expr, u32::MAX - arena.len()).is_some()
}

// How many nodes have room behind those of an expression, where these have room themselves.
#[cycle(counting)]
fn room_left(expr: &Expr, room: u32) -> Option<u32>
    ensures left { IfSome result (λ left. left + nodes_of (tree expr.now) ≡ room) }
    ensures full { IsNone result → room < nodes_of (tree expr.now) }
{
    let room = room.checked_sub(1)?;
    match expr {
        Expr::Column(_) => Some(room),
        Expr::Literal(_) => Some(room),
        Expr::Alias(expr, _) => room_left(expr, room),
        Expr::BinaryExpr { left, right, .. } => room_behind_two(left, right, room),
        Expr::Ternary {
            predicate,
            truthy,
            falsy,
        } => room_behind_three(predicate, truthy, falsy, room),
        Expr::Cast { expr, .. } => room_left(expr, room),
        Expr::Function { input, .. } => room_behind_all(input, room),
        Expr::Explode(expr) => room_left(expr, room),
        Expr::Filter { input, by } => room_behind_two(input, by, room),
        Expr::Slice {
            input,
            offset,
            length,
        } => room_behind_three(input, offset, length, room),
        Expr::Gather { expr, idx, .. } => room_behind_two(expr, idx, room),
        Expr::Sort { expr, .. } => room_left(expr, room),
        Expr::SortBy { expr, by, .. } => {
            let room = room_left(expr, room)?;
            room_behind_all(by, room)
        }
        Expr::Agg(agg) => room_behind_reduction(agg, room),
        Expr::Len => Some(room),
        Expr::Window {
            function,
            partition_by,
            order_by,
            ..
        } => {
            let room = room_left(function, room)?;
            let room = room_behind_all(partition_by, room)?;
            room_behind_order(order_by, room)
        }
    }
}

#[cycle(counting)]
fn room_behind_two(first: &Expr, second: &Expr, room: u32) -> Option<u32>
    ensures left { IfSome result (λ left. left + (nodes_of (tree first.now) + nodes_of (tree second.now)) ≡ room) }
    ensures full { IsNone result → room < nodes_of (tree first.now) + nodes_of (tree second.now) }
{
    let room = room_left(first, room)?;
    room_left(second, room)
}

#[cycle(counting)]
fn room_behind_three(first: &Expr, second: &Expr, third: &Expr, room: u32) -> Option<u32>
    ensures left { IfSome result
        (λ left. left + (nodes_of (tree first.now) + nodes_of (tree second.now) + nodes_of (tree third.now)) ≡ room) }
    ensures full { IsNone result →
        room < nodes_of (tree first.now) + nodes_of (tree second.now) + nodes_of (tree third.now) }
{
    let room = room_behind_two(first, second, room)?;
    room_left(third, room)
}

#[cycle(counting)]
fn room_behind_all(exprs: &Exprs, room: u32) -> Option<u32>
    ensures left { IfSome result (λ left. left + all_nodes_of (trees exprs.now) ≡ room) }
    ensures full { IsNone result → room < all_nodes_of (trees exprs.now) }
{
    let mut left = room;
    for expr in exprs.items.iter() {
        left = room_left(expr, left)?;
    }
    Some(left)
}

#[cycle(counting)]
fn room_behind_order(order_by: &Option<(Rc<Expr>, SortOptions)>, room: u32) -> Option<u32>
    ensures left { IfSome result (λ left. left + order_nodes_of (order_tree order_by.now) ≡ room) }
    ensures full { IsNone result → room < order_nodes_of (order_tree order_by.now) }
{
    match order_by {
        None => Some(room),
        Some((by, _)) => room_left(by, room),
    }
}

// The room behind what is reduced: the reduction's own node is counted already.
#[cycle(counting)]
fn room_behind_reduction(agg: &AggExpr, room: u32) -> Option<u32>
    ensures left { IfSome result (λ left. left + nodes_of (agg_tree agg.now) ≡ room + 1) }
    ensures full { IsNone result → room + 1 < nodes_of (agg_tree agg.now) }
{
    match agg {
        AggExpr::Min(expr)
        | AggExpr::Max(expr)
        | AggExpr::Sum(expr)
        | AggExpr::First(expr)
        | AggExpr::Last(expr)
        | AggExpr::NUnique(expr)
        | AggExpr::Implode(expr)
        | AggExpr::Count(expr, _) => room_left(expr, room),
    }
}
