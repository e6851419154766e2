//! Copies of expressions.
ghost use Rattle.std.specs.Prelude.{◌≡◌, Ok};
ghost use Rattle.px_column.specs.Prelude.{AnswersBy};
ghost use Rattle.px_tree.specs.View.{tree, trees, agg_tree, order_tree};

use crate::expr::{AggExpr, Expr, Exprs};
use px_column::{Px, SortOptions};
use std::alloc::Global;
use std::rc::Rc;

impl Expr {
    /// An equal expression, which shares what it is made of.
    pub fn try_clone(&self, alloc: Global) -> Px<Expr>
        ensures { AnswersBy tree result (Ok (tree self.now)) }
    {
        match self {
            Expr::Column(name) => Ok(Expr::Column(name.try_clone(alloc)?)),
            Expr::Literal(value) => Ok(Expr::Literal(value.try_clone(alloc)?)),
            Expr::Alias(expr, name) => Ok(Expr::Alias(expr.clone()?, name.try_clone(alloc)?)),
            Expr::BinaryExpr { left, op, right } => Ok(Expr::BinaryExpr {
                left: left.clone()?,
                op: *op,
                right: right.clone()?,
            }),
            Expr::Ternary {
                predicate,
                truthy,
                falsy,
            } => Ok(Expr::Ternary {
                predicate: predicate.clone()?,
                truthy: truthy.clone()?,
                falsy: falsy.clone()?,
            }),
            Expr::Cast {
                expr,
                dtype,
                options,
            } => Ok(Expr::Cast {
                expr: expr.clone()?,
                dtype: dtype.try_clone(alloc)?,
                options: *options,
            }),
            Expr::Function { input, function } => Ok(Expr::Function {
                input: input.share()?,
                function: *function,
            }),
            Expr::Explode(expr) => Ok(Expr::Explode(expr.clone()?)),
            Expr::Filter { input, by } => Ok(Expr::Filter {
                input: input.clone()?,
                by: by.clone()?,
            }),
            Expr::Slice {
                input,
                offset,
                length,
            } => Ok(Expr::Slice {
                input: input.clone()?,
                offset: offset.clone()?,
                length: length.clone()?,
            }),
            Expr::Gather {
                expr,
                idx,
                returns_scalar,
            } => Ok(Expr::Gather {
                expr: expr.clone()?,
                idx: idx.clone()?,
                returns_scalar: *returns_scalar,
            }),
            Expr::Sort { expr, options } => Ok(Expr::Sort {
                expr: expr.clone()?,
                options: *options,
            }),
            Expr::SortBy {
                expr,
                by,
                sort_options,
            } => Ok(Expr::SortBy {
                expr: expr.clone()?,
                by: by.share()?,
                sort_options: sort_options.try_clone(alloc)?,
            }),
            Expr::Agg(agg) => Ok(Expr::Agg(agg.share()?)),
            Expr::Len => Ok(Expr::Len),
            Expr::Window {
                function,
                partition_by,
                order_by,
                options,
            } => Ok(Expr::Window {
                function: function.clone()?,
                partition_by: partition_by.share()?,
                order_by: share_order(order_by)?,
                options: *options,
            }),
        }
    }
}

impl Exprs {
    /// The same list once more.
    fn share(&self) -> Px<Exprs>
        ensures { AnswersBy trees result (Ok (trees self.now)) }
    {
        let items = self.items.clone()?;
        Ok(Exprs { items })
    }
}

impl AggExpr {
    /// The same reduction once more.
    fn share(&self) -> Px<AggExpr>
        ensures { AnswersBy agg_tree result (Ok (agg_tree self.now)) }
    {
        match self {
            AggExpr::Min(expr) => Ok(AggExpr::Min(expr.clone()?)),
            AggExpr::Max(expr) => Ok(AggExpr::Max(expr.clone()?)),
            AggExpr::Sum(expr) => Ok(AggExpr::Sum(expr.clone()?)),
            AggExpr::First(expr) => Ok(AggExpr::First(expr.clone()?)),
            AggExpr::Last(expr) => Ok(AggExpr::Last(expr.clone()?)),
            AggExpr::NUnique(expr) => Ok(AggExpr::NUnique(expr.clone()?)),
            AggExpr::Implode(expr) => Ok(AggExpr::Implode(expr.clone()?)),
            AggExpr::Count(expr, nulls) => Ok(AggExpr::Count(expr.clone()?, *nulls)),
        }
    }
}

/// The same order once more.
fn share_order(order_by: &Option<(Rc<Expr>, SortOptions)>) -> Px<Option<(Rc<Expr>, SortOptions)>>
    ensures { AnswersBy order_tree result (Ok (order_tree order_by.now)) }
{
    match order_by {
        None => Ok(None),
        Some((by, options)) => Ok(Some((by.clone()?, *options))),
    }
}
