//! The names of expressions' results.
ghost use Rattle.std.specs.Prelude.{◌≡◌, Ok};
ghost use Rattle.px_column.specs.Prelude.{Answers};
ghost use Rattle.px_tree.specs.Shape.{literal_name, name_of, first_name};
ghost use Rattle.px_tree.specs.View.{tree, trees, agg_tree, literal_of};

use px_column::{Name, Px};
use px_tree::{AggExpr, Expr, Exprs, LiteralValue};
use std::alloc::Global;

fn literal_name(alloc: Global, value: &LiteralValue) -> Px<Name>
    ensures { Answers result (Ok (literal_name (literal_of value.now))) }
{
    match value {
        LiteralValue::Series(column) => column.name().try_clone(alloc),
        _ => Name::new(alloc, "literal"),
    }
}

/// The name of an expression's result: a column's own, an alias, `len` for the length, `literal` for
/// a value or a range, else that of the left operand, the truthy one, a window's function or the
/// first input (polars `Expr::output_name`).
#[cycle(naming)]
pub fn output_name(alloc: Global, expr: &Expr) -> Px<Name>
    ensures { Answers result (Ok (name_of (tree expr.now))) }
{
    match expr {
        Expr::Column(name) => name.try_clone(alloc),
        Expr::Literal(value) => literal_name(alloc, value),
        Expr::Alias(_, name) => name.try_clone(alloc),
        Expr::BinaryExpr { left, .. } => output_name(alloc, left),
        Expr::Ternary { truthy, .. } => output_name(alloc, truthy),
        Expr::Cast { expr, .. } => output_name(alloc, expr),
        Expr::Function { input, .. } => first_name(alloc, input),
        Expr::Explode(input) => output_name(alloc, input),
        Expr::Filter { input, .. } => output_name(alloc, input),
        Expr::Slice { input, .. } => output_name(alloc, input),
        Expr::Gather { expr, .. } => output_name(alloc, expr),
        Expr::Sort { expr, .. } => output_name(alloc, expr),
        Expr::SortBy { expr, .. } => output_name(alloc, expr),
        Expr::Agg(reduction) => reduced_name(alloc, reduction),
        Expr::Len => Name::new(alloc, "len"),
        Expr::Window { function, .. } => output_name(alloc, function),
    }
}

#[cycle(naming)]
fn reduced_name(alloc: Global, reduction: &AggExpr) -> Px<Name>
    ensures { Answers result (Ok (name_of (agg_tree reduction.now))) }
{
    match reduction {
        AggExpr::Min(input)
        | AggExpr::Max(input)
        | AggExpr::Sum(input)
        | AggExpr::First(input)
        | AggExpr::Last(input)
        | AggExpr::NUnique(input)
        | AggExpr::Implode(input)
        | AggExpr::Count(input, _) => output_name(alloc, input),
    }
}

/// The first one's name; without any, no name.
#[cycle(naming)]
fn first_name(alloc: Global, exprs: &Exprs) -> Px<Name>
    ensures { Answers result (Ok (first_name (trees exprs.now))) }
{
    match exprs.items.first() {
        None => Name::new(alloc, ""),
        Some(expr) => output_name(alloc, expr),
    }
}
