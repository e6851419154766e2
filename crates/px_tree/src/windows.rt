//! Whether windows stand in expressions.
ghost use Rattle.std.specs.Prelude.{◌≡◌};
ghost use Rattle.px_tree.specs.Shape.{has_window, have_window};
ghost use Rattle.px_tree.specs.View.{tree, trees, agg_tree};

use crate::expr::{AggExpr, Expr, Exprs};

/// Whether a window stands in an expression.
#[cycle(windows)]
pub fn has_window(expr: &Expr) -> bool
    ensures { result ≡ has_window (tree expr.now) }
{
    match expr {
        Expr::Column(_) => false,
        Expr::Literal(_) => false,
        Expr::Alias(expr, _) => has_window(expr),
        Expr::BinaryExpr { left, right, .. } => has_window(left) || has_window(right),
        Expr::Ternary {
            predicate,
            truthy,
            falsy,
        } => has_window(predicate) || has_window(truthy) || has_window(falsy),
        Expr::Cast { expr, .. } => has_window(expr),
        Expr::Function { input, .. } => have_window(input),
        Expr::Explode(expr) => has_window(expr),
        Expr::Filter { input, by } => has_window(input) || has_window(by),
        Expr::Slice {
            input,
            offset,
            length,
        } => has_window(input) || has_window(offset) || has_window(length),
        Expr::Gather { expr, idx, .. } => has_window(expr) || has_window(idx),
        Expr::Sort { expr, .. } => has_window(expr),
        Expr::SortBy { expr, by, .. } => has_window(expr) || have_window(by),
        Expr::Agg(reduction) => reduces_window(reduction),
        Expr::Len => false,
        Expr::Window { .. } => true,
    }
}

#[cycle(windows)]
fn have_window(exprs: &Exprs) -> bool
    ensures { result ≡ have_window (trees exprs.now) }
{
    for expr in exprs.items.iter() {
        if has_window(expr) {
            return true;
        }
    }
    false
}

#[cycle(windows)]
fn reduces_window(reduction: &AggExpr) -> bool
    ensures { result ≡ has_window (agg_tree reduction.now) }
{
    match reduction {
        AggExpr::Min(input)
        | AggExpr::Max(input)
        | AggExpr::Sum(input)
        | AggExpr::First(input)
        | AggExpr::Last(input)
        | AggExpr::NUnique(input)
        | AggExpr::Implode(input)
        | AggExpr::Count(input, _) => has_window(input),
    }
}
