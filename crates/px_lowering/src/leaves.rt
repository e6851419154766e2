//! The columns that a node of an arena reads.
ghost use Rattle.std.specs.Prelude.{◌≡◌, ◌<◌, ◌≤◌, ◌++◌, Ok, OnOk, length, true};
ghost use Rattle.px_column.specs.Prelude.{Answers, AnswersBy};
ghost use Rattle.px_arena.specs.Arena.{tree_at, trees_at, order_at, all_below, order_below};
ghost use Rattle.px_tree.specs.Nodes.{leaf_names, all_leaf_names, order_leaf_names};

use px_arena::{AExpr, Arena, Node};
use px_column::{Name, Px, SortOptions};
use std::alloc::Global;

/// The names of the columns that are the leaves of a node's expression, from left to right, with
/// repeats (polars `aexpr_to_leaf_names`). A window's function comes before its keys, and these
/// before its order.
pub fn aexpr_to_leaf_names(alloc: Global, node: Node, arena: &Arena) -> Px<Vec<Name>>
    requires { node.0 < length arena.now }
    ensures { AnswersBy (λ names. names.items) result (Ok (leaf_names (tree_at arena.now node))) }
{
    let mut names = Vec::new(alloc);
    push_names(alloc, node, arena, &mut names)?;
    Ok(names)
}

#[cycle(push_names)]
fn push_names(alloc: Global, node: Node, arena: &Arena, names: &mut Vec<Name>) -> Px<()>
    requires { node.0 < length arena.now }
    ensures memory { Answers result (Ok tt) }
    ensures pushed { OnOk result (names.new.items ≡ names.old.items ++ leaf_names (tree_at arena.now node)) }
{
    match arena.get(node) {
        AExpr::Column(name) => {
            names.push(name.try_clone(alloc)?)?;
            Ok(())
        }
        AExpr::Literal(_) => Ok(()),
        AExpr::Alias(expr, _) => push_names(alloc, *expr, arena, names),
        AExpr::BinaryExpr { left, right, .. } => {
            push_names_of_two(alloc, *left, *right, arena, names)
        }
        AExpr::Ternary {
            predicate,
            truthy,
            falsy,
        } => {
            push_names(alloc, *predicate, arena, names)?;
            push_names_of_two(alloc, *truthy, *falsy, arena, names)
        }
        AExpr::Cast { expr, .. } => push_names(alloc, *expr, arena, names),
        AExpr::Function { input, .. } => push_all_names(alloc, input, node.0, arena, names),
        AExpr::Explode(expr) => push_names(alloc, *expr, arena, names),
        AExpr::Filter { input, by } => push_names_of_two(alloc, *input, *by, arena, names),
        AExpr::Slice {
            input,
            offset,
            length,
        } => {
            push_names(alloc, *input, arena, names)?;
            push_names_of_two(alloc, *offset, *length, arena, names)
        }
        AExpr::Gather { expr, idx, .. } => { push_names_of_two(alloc, *expr, *idx, arena, names) }
        AExpr::Sort { expr, .. } => push_names(alloc, *expr, arena, names),
        AExpr::SortBy { expr, by, .. } => {
            push_names(alloc, *expr, arena, names)?;
            push_all_names(alloc, by, node.0, arena, names)
        }
        AExpr::Agg(agg) => push_names(alloc, agg.input(), arena, names),
        AExpr::Len => Ok(()),
        AExpr::Window {
            function,
            partition_by,
            order_by,
            ..
        } => {
            push_names(alloc, *function, arena, names)?;
            push_all_names(alloc, partition_by, node.0, arena, names)?;
            push_order_names(alloc, *order_by, node.0, arena, names)
        }
    }
}

#[cycle(push_names)]
fn push_names_of_two(
    alloc: Global,
    first: Node,
    second: Node,
    arena: &Arena,
    names: &mut Vec<Name>,
) -> Px<()>
    requires first { first.0 < length arena.now }
    requires second { second.0 < length arena.now }
    ensures memory { Answers result (Ok tt) }
    ensures pushed { OnOk result
        (names.new.items ≡ names.old.items ++ (leaf_names (tree_at arena.now first) ++ leaf_names (tree_at arena.now second))) }
{
    push_names(alloc, first, arena, names)?;
    push_names(alloc, second, arena, names)
}

// The names of nodes that stand before a place.
#[cycle(push_names)]
fn push_all_names(
    alloc: Global,
    nodes: &[Node],
    before: u32,
    arena: &Arena,
    names: &mut Vec<Name>,
) -> Px<()>
    requires within { before ≤ length arena.now }
    requires below { all_below before nodes.now ≡ true }
    ensures memory { Answers result (Ok tt) }
    ensures pushed { OnOk result (names.new.items ≡ names.old.items ++ all_leaf_names (trees_at arena.now nodes.now)) }
{
    for node in nodes {
        push_names(alloc, *node, arena, names)?;
    }
    Ok(())
}

#[cycle(push_names)]
fn push_order_names(
    alloc: Global,
    order_by: Option<(Node, SortOptions)>,
    before: u32,
    arena: &Arena,
    names: &mut Vec<Name>,
) -> Px<()>
    requires within { before ≤ length arena.now }
    requires below { order_below before order_by ≡ true }
    ensures memory { Answers result (Ok tt) }
    ensures pushed { OnOk result (names.new.items ≡ names.old.items ++ order_leaf_names (order_at arena.now order_by)) }
{
    match order_by {
        None => Ok(()),
        Some((by, _)) => push_names(alloc, by, arena, names),
    }
}
