//! Whether values of expressions on chunks can be merged.
ghost use Rattle.std.specs.Prelude.{◌≡◌};
ghost use Rattle.px_tree.specs.Partition.{is_partition_safe};
ghost use Rattle.px_tree.specs.View.{tree, agg_tree};

use crate::elementwise::is_elementwise;
use px_frame::Schema;
use px_tree::{AggExpr, Expr};

/// Whether an expression's values on the chunks of a group can be merged: a length, or a reduction other than
/// `NUnique` of an elementwise expression, under any aliases. It is the condition for what is polars'
/// `PartitionedAggregation`, where other expressions are not refused.
#[cycle(safe)]
pub fn partition_safe(expr: &Expr, schema: &Schema) -> bool
    ensures { result ≡ is_partition_safe (tree expr.now) schema.now }
{
    match expr {
        Expr::Alias(expr, _) => partition_safe(expr, schema),
        Expr::Agg(reduction) => merges(reduction, schema),
        Expr::Len => true,
        _ => false,
    }
}

fn merges(reduction: &AggExpr, schema: &Schema) -> bool
    ensures { result ≡ is_partition_safe (agg_tree reduction.now) schema.now }
{
    match reduction {
        AggExpr::NUnique(_) => false,
        AggExpr::Min(input)
        | AggExpr::Max(input)
        | AggExpr::Sum(input)
        | AggExpr::First(input)
        | AggExpr::Last(input)
        | AggExpr::Implode(input)
        | AggExpr::Count(input, _) => is_elementwise(input, schema),
    }
}
