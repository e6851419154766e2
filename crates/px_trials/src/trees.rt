//! Expressions in an arena, and copies of them.
ghost use Rattle.std.specs.Prelude.{◌<◌, IfOk, length};

use px_column::{Name, Operator, Px, PxError};
use px_plan::{
    Arena, Expr, LiteralValue, Node, aexpr_to_leaf_names, fits_arena, is_scalar_ae, node_to_expr,
    to_arena,
};
use px_trial_texts::is_text;
use std::alloc::Global;
use std::rc::Rc;
use std::test::Fail;

fn column(alloc: Global, name: &str) -> Px<Rc<Expr>> {
    Ok(Rc::new(alloc, Expr::Column(Name::new(alloc, name)?))?)
}

// The column of a name, Plus 1.
fn one_more(alloc: Global, name: &str) -> Px<Expr> {
    let left = column(alloc, name)?;
    let right = Rc::new(alloc, Expr::Literal(LiteralValue::Int64(1)))?;
    Ok(Expr::BinaryExpr {
        left,
        op: Operator::Plus,
        right,
    })
}

// Whether this is `x` Plus 1.
fn is_one_more(expr: &Expr) -> bool {
    match expr {
        Expr::BinaryExpr {
            left,
            op: Operator::Plus,
            right,
        } => {
            matches!(&**left, Expr::Column(name) if name.as_str() == "x")
                && matches!(**right, Expr::Literal(LiteralValue::Int64(1)))
        }
        _ => false,
    }
}

/// Adds an expression to an arena that has room for it.
pub(crate) fn put(alloc: Global, expr: &Expr, arena: &mut Arena) -> Px<Node>
    ensures { IfOk result (λ node. node.0 < length arena.new) }
{
    if fits_arena(expr, arena) {
        to_arena(alloc, expr, arena)
    } else {
        Err(PxError::OutOfBounds)
    }
}

// Adds `x` Plus 1 to an arena.
fn put_one_more(alloc: Global, arena: &mut Arena) -> Px<Node>
    ensures { IfOk result (λ node. node.0 < length arena.new) }
{
    let expr = one_more(alloc, "x")?;
    put(alloc, &expr, arena)
}

// Whether it is node 2 of 3, is a list of rows, and comes back.
fn returns(alloc: Global) -> Px<bool> {
    let mut arena = Arena::new(alloc)?;
    let node = put_one_more(alloc, &mut arena)?;
    let back = node_to_expr(alloc, node, &arena)?;
    Ok(node == Node(2) && arena.len() == 3 && !is_scalar_ae(node, &arena) && is_one_more(&back))
}

fn leaf_names(alloc: Global) -> Px<Vec<Name>> {
    let mut arena = Arena::new(alloc)?;
    let node = put_one_more(alloc, &mut arena)?;
    aexpr_to_leaf_names(alloc, node, &arena)
}

fn only_leaf(alloc: Global) -> Px<Name> {
    let mut names = leaf_names(alloc)?;
    if names.len() != 1 {
        return Err(PxError::OutOfBounds);
    }
    names.pop().ok_or(PxError::OutOfBounds)
}

fn has_equal_copy(alloc: Global, expr: &Expr) -> Px<bool> {
    let copy = expr.try_clone(alloc)?;
    Ok(is_one_more(&copy))
}

fn is_copied(alloc: Global) -> Px<bool> {
    let expr = one_more(alloc, "x")?;
    has_equal_copy(alloc, &expr)
}

#[test]
fn a_tree_comes_back_from_an_arena(rt: HostRuntime) -> Result<(), Fail> {
    let alloc = rt.alloc();
    assert!(rt; returns(alloc)?);
    assert!(rt; is_text(only_leaf(alloc), "x")?);
    assert!(rt; is_copied(alloc)?);
    Ok(())
}
