//! Whether a node of an arena has one value.
ghost use Rattle.std.specs.Prelude.{◌≡◌, ◌<◌, ◌≤◌, length, true};
ghost use Rattle.px_arena.specs.Arena.{tree_at, trees_at, all_below};
ghost use Rattle.px_tree.specs.Shape.{is_unit, is_unit_first, are_units};
ghost use Rattle.px_tree.specs.Tree.{by_name, function as applied};

use px_arena::{AExpr, Arena, IRAggExpr, Node};
use px_tree::FunctionExpr;

/// Whether a node's expression has one value whatever the frame, and else a list of rows (polars
/// `is_scalar_ae`).
#[cycle(is_scalar)]
pub fn is_scalar_ae(node: Node, arena: &Arena) -> bool
    requires { node.0 < length arena.now }
    ensures { result ≡ is_unit (tree_at arena.now node) }
{
    match arena.get(node) {
        AExpr::Column(_) => false,
        AExpr::Literal(value) => value.is_single(),
        AExpr::Alias(expr, _) => is_scalar_ae(*expr, arena),
        AExpr::BinaryExpr { left, right, .. } => {
            is_scalar_ae(*left, arena) && is_scalar_ae(*right, arena)
        }
        AExpr::Ternary {
            predicate,
            truthy,
            falsy,
        } => {
            is_scalar_ae(*predicate, arena)
                && is_scalar_ae(*truthy, arena)
                && is_scalar_ae(*falsy, arena)
        }
        AExpr::Cast { expr, .. } => is_scalar_ae(*expr, arena),
        AExpr::Function { input, function } => {
            is_scalar_function(*function, input, node.0, arena)
        }
        AExpr::Explode(_) => false,
        AExpr::Filter { .. } => false,
        AExpr::Slice { .. } => false,
        AExpr::Gather { returns_scalar, .. } => *returns_scalar,
        AExpr::Sort { .. } => false,
        AExpr::SortBy { .. } => false,
        AExpr::Agg(IRAggExpr::Implode(_)) => false,
        AExpr::Agg(_) => true,
        AExpr::Len => true,
        AExpr::Window { .. } => false,
    }
}

#[cycle(is_scalar)]
fn is_scalar_function(function: FunctionExpr, input: &[Node], before: u32, arena: &Arena) -> bool
    requires within { before ≤ length arena.now }
    requires below { all_below before input.now ≡ true }
    ensures { result ≡ is_unit (applied (trees_at arena.now input.now) (by_name function)) }
{
    match function {
        FunctionExpr::IsNull => is_first_scalar(input, before, arena),
        FunctionExpr::IsNotNull => is_first_scalar(input, before, arena),
        FunctionExpr::Not => is_first_scalar(input, before, arena),
        FunctionExpr::IsBetween { .. } => are_scalars(input, before, arena),
        FunctionExpr::IsIn => is_first_scalar(input, before, arena),
        FunctionExpr::NullCount => true,
        FunctionExpr::Reverse => false,
        FunctionExpr::Shift(_) => false,
        FunctionExpr::DropNulls => false,
        FunctionExpr::Explode => false,
    }
}

#[cycle(is_scalar)]
fn is_first_scalar(nodes: &[Node], before: u32, arena: &Arena) -> bool
    requires within { before ≤ length arena.now }
    requires below { all_below before nodes.now ≡ true }
    ensures { result ≡ is_unit_first (trees_at arena.now nodes.now) }
{
    match nodes.first() {
        None => false,
        Some(node) => is_scalar_ae(*node, arena),
    }
}

#[cycle(is_scalar)]
fn are_scalars(nodes: &[Node], before: u32, arena: &Arena) -> bool
    requires within { before ≤ length arena.now }
    requires below { all_below before nodes.now ≡ true }
    ensures { result ≡ are_units (trees_at arena.now nodes.now) }
{
    for node in nodes {
        if !is_scalar_ae(*node, arena) {
            return false;
        }
    }
    true
}
