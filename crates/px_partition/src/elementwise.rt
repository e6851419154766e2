//! Whether expressions are elementwise.
ghost use Rattle.std.specs.Prelude.{◌≡◌, is_some};
ghost use Rattle.px_tree.specs.Partition.{are_elementwise, is_elementwise, is_row_function};
ghost use Rattle.px_tree.specs.Typing.{kind_of_name};
ghost use Rattle.px_tree.specs.View.{tree, trees};

use px_column::Name;
use px_frame::Schema;
use px_tree::{Expr, Exprs, FunctionExpr};

/// Whether each row of an expression's result comes from that row alone: it is made of columns of the schema,
/// literals of one value, aliases, operators, ternaries, casts, `IsNull`, `IsNotNull`, `Not` and `IsBetween`.
/// Polars' `is_elementwise` asks this of more functions; here a column that the schema lacks is none.
#[cycle(elementwise)]
pub fn is_elementwise(expr: &Expr, schema: &Schema) -> bool
    ensures { result ≡ is_elementwise (tree expr.now) schema.now }
{
    match expr {
        Expr::Column(name) => has_field(schema, name),
        Expr::Literal(value) => value.is_single(),
        Expr::Alias(expr, _) => is_elementwise(expr, schema),
        Expr::BinaryExpr { left, right, .. } => {
            is_elementwise(left, schema) && is_elementwise(right, schema)
        }
        Expr::Ternary {
            predicate,
            truthy,
            falsy,
        } => {
            is_elementwise(predicate, schema)
                && is_elementwise(truthy, schema)
                && is_elementwise(falsy, schema)
        }
        Expr::Cast { expr, .. } => is_elementwise(expr, schema),
        Expr::Function { input, function } => {
            is_row_function(*function) && are_elementwise(input, schema)
        }
        _ => false,
    }
}

#[cycle(elementwise)]
fn are_elementwise(exprs: &Exprs, schema: &Schema) -> bool
    ensures { result ≡ are_elementwise (trees exprs.now) schema.now }
{
    for expr in exprs.items.iter() {
        if !is_elementwise(expr, schema) {
            return false;
        }
    }
    true
}

fn has_field(schema: &Schema, name: &Name) -> bool
    ensures { result ≡ is_some (kind_of_name name.now schema.now) }
{
    schema.get_full(name).is_some()
}

fn is_row_function(function: FunctionExpr) -> bool
    ensures { result ≡ is_row_function function }
{
    matches!(
        function,
        FunctionExpr::IsNull
            | FunctionExpr::IsNotNull
            | FunctionExpr::Not
            | FunctionExpr::IsBetween { .. }
    )
}
