//! From expressions in an arena to nodes, and what is noted on the way.
ghost use Rattle.std.specs.Prelude.{◌<◌, IfOk, length};
ghost use Rattle.px_expr.specs.Plan.{IsPlannable};

use crate::trees::put;
use px_column::{ComputeWhy, Name, Px, PxError};
use px_expr::{
    ExpressionConversionState, LocalConversionState, PhysExpr, create_physical_expr,
    create_physical_expressions_from_irs, get_expr_depth_limit,
};
use px_frame::SchemaRef;
use px_plan::{Arena, Context, Expr, ExprIR, Node};
use px_trial_texts::{four_rows, is_text, text_of_refusal};
use std::alloc::Global;
use std::default::Default;
use std::rc::Rc;
use std::test::Fail;

// Adds the column of a name to an arena.
fn put_column(alloc: Global, name: &str, arena: &mut Arena) -> Px<Node>
    ensures { IfOk result (λ node. node.0 < length arena.new) }
{
    let expr = Expr::Column(Name::new(alloc, name)?);
    put(alloc, &expr, arena)
}

// The column of a name, in an arena.
fn column_in(alloc: Global, name: &str, arena: &mut Arena) -> Px<ExprIR>
    ensures { IfOk result (IsPlannable arena.new) }
{
    Ok(ExprIR::new(put_column(alloc, name, arena)?, None))
}

fn schema(alloc: Global) -> Px<SchemaRef> {
    let frame = four_rows(alloc)?;
    Ok(Rc::new(alloc, frame.schema(alloc)?)?)
}

// The name of a column's node, or the line of a refusal.
fn text_of_node(alloc: Global, answer: Px<PhysExpr>) -> Px<Name> {
    let node = match answer {
        Ok(node) => node,
        Err(error) => return text_of_refusal(alloc, error),
    };
    match &node {
        PhysExpr::Column(node) => node.name().try_clone(alloc),
        _ => Err(PxError::OutOfBounds),
    }
}

// Plans a column over four rows of `k` and `x`.
fn plan_column(alloc: Global, name: &str, state: &mut ExpressionConversionState) -> Px<Name> {
    let schema = schema(alloc)?;
    let mut arena = Arena::new(alloc)?;
    let expr = column_in(alloc, name, &mut arena)?;
    let node = create_physical_expr(alloc, &expr, Context::Default, &arena, &schema, state);
    text_of_node(alloc, node)
}

fn last_of(nodes: Px<Vec<PhysExpr>>) -> Px<PhysExpr> {
    let mut nodes = nodes?;
    nodes.pop().ok_or(PxError::OutOfBounds)
}

// Plans a column as the one expression of a list.
fn plan_all(alloc: Global, name: &str, state: &mut ExpressionConversionState) -> Px<Name> {
    let schema = schema(alloc)?;
    let mut arena = Arena::new(alloc)?;
    let exprs = [column_in(alloc, name, &mut arena)?];
    let nodes = create_physical_expressions_from_irs(
        alloc,
        &exprs,
        Context::Default,
        &arena,
        &schema,
        state,
    );
    text_of_node(alloc, last_of(nodes))
}

#[test]
fn a_path_as_long_as_the_limit_is_noted(rt: HostRuntime) -> Result<(), Fail> {
    let alloc = rt.alloc();
    let mut state = ExpressionConversionState::new(1);
    assert!(rt; is_text(plan_column(alloc, "x", &mut state), "x")?);
    assert!(rt; state.too_deep && !state.has_windows);
    let mut state = ExpressionConversionState::new(1);
    assert!(rt; is_text(plan_all(alloc, "x", &mut state), "x")?);
    assert!(rt; state.too_deep && !state.has_windows);
    Ok(())
}

fn is_no_limit(text: &str) -> bool {
    let limit = get_expr_depth_limit(Some(text));
    matches!(limit, Err(PxError::ComputeError(ComputeWhy::DepthText)))
}

#[test]
fn a_text_sets_the_depth_limit(rt: HostRuntime) -> Result<(), Fail> {
    assert_eq!(rt; get_expr_depth_limit(None)?, 512);
    assert_eq!(rt; get_expr_depth_limit(Some("70000"))?, 0);
    assert_eq!(rt; get_expr_depth_limit(Some("+5"))?, 5);
    assert!(rt; is_no_limit("abc"));
    assert!(rt; is_no_limit(""));
    assert_eq!(rt; LocalConversionState::default().depth_limit, 500);
    Ok(())
}
