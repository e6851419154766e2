//! Expression trees (polars `Expr` and `AggExpr`).

use crate::function::FunctionExpr;
use crate::literal::LiteralValue;
use crate::window::WindowType;
use px_column::{CastOptions, DataType, Name, Operator, SortMultipleOptions, SortOptions};
use std::rc::Rc;

/// An expression over the columns of a frame. Copies share what they are made of.
#[cycle(expr)]
pub enum Expr {
    /// The column of a name.
    Column(Name),
    /// A value, a range of integers, or a column of its own.
    Literal(LiteralValue),
    /// An expression under another name.
    Alias(Rc<Expr>, Name),
    /// Two expressions combined row by row.
    BinaryExpr {
        left: Rc<Expr>,
        op: Operator,
        right: Rc<Expr>,
    },
    /// Row by row the one where the predicate is true, else the other.
    Ternary {
        predicate: Rc<Expr>,
        truthy: Rc<Expr>,
        falsy: Rc<Expr>,
    },
    /// An expression's values in another type.
    Cast {
        expr: Rc<Expr>,
        dtype: DataType,
        options: CastOptions,
    },
    /// A function of expressions, of which there is at least one.
    Function {
        input: Exprs,
        function: FunctionExpr,
    },
    /// The values in an expression's lists, one after another.
    Explode(Rc<Expr>),
    /// The rows for which `by` is true.
    Filter {
        input: Rc<Expr>,
        by: Rc<Expr>,
    },
    /// A window of rows.
    Slice {
        input: Rc<Expr>,
        offset: Rc<Expr>,
        length: Rc<Expr>,
    },
    /// The rows at these places; with `returns_scalar` the one row at one place.
    Gather {
        expr: Rc<Expr>,
        idx: Rc<Expr>,
        returns_scalar: bool,
    },
    /// The rows in sorted order.
    Sort {
        expr: Rc<Expr>,
        options: SortOptions,
    },
    /// The rows, sorted by others.
    SortBy {
        expr: Rc<Expr>,
        by: Exprs,
        sort_options: SortMultipleOptions,
    },
    /// A reduction of an expression.
    Agg(AggExpr),
    /// The number of rows.
    Len,
    /// A function of each part of the rows by keys.
    Window {
        function: Rc<Expr>,
        partition_by: Exprs,
        order_by: Option<(Rc<Expr>, SortOptions)>,
        options: WindowType,
    },
}

/// One call where an expression is let go, so that proofs see no case of it.
impl Drop for Expr {
    #[cycle(let_go)]
    fn drop(self) {
        match self {
            Expr::Column(_name) => {}
            Expr::Literal(_value) => {}
            Expr::Alias(_inner, _name) => {}
            Expr::BinaryExpr {
                left: _left,
                op: _,
                right: _right,
            } => {}
            Expr::Ternary {
                predicate: _predicate,
                truthy: _truthy,
                falsy: _falsy,
            } => {}
            Expr::Cast {
                expr: _expr,
                dtype: _dtype,
                options: _,
            } => {}
            Expr::Function {
                input: _input,
                function: _,
            } => {}
            Expr::Explode(_inner) => {}
            Expr::Filter {
                input: _input,
                by: _by,
            } => {}
            Expr::Slice {
                input: _input,
                offset: _offset,
                length: _length,
            } => {}
            Expr::Gather {
                expr: _expr,
                idx: _idx,
                returns_scalar: _,
            } => {}
            Expr::Sort {
                expr: _expr,
                options: _,
            } => {}
            Expr::SortBy {
                expr: _expr,
                by: _by,
                sort_options: _sort_options,
            } => {}
            Expr::Agg(_reduction) => {}
            Expr::Len => {}
            Expr::Window {
                function: _function,
                partition_by: _partition_by,
                order_by: _order_by,
                options: _,
            } => {}
        }
    }
}

/// A list of expressions, which its copies share.
#[cycle(expr)]
pub struct Exprs {
    /// The expressions in their order.
    pub items: Rc<Vec<Expr>>,
}

/// One call where expressions are let go, so that proofs see no more of what is inside.
impl Drop for Exprs {
    #[cycle(let_go)]
    fn drop(self) {
        let Exprs { items: _items } = self;
    }
}

/// A reduction: an expression's rows become one value.
#[cycle(expr)]
pub enum AggExpr {
    /// The least of the present values.
    Min(Rc<Expr>),
    /// The greatest of the present values.
    Max(Rc<Expr>),
    /// The sum of the present values.
    Sum(Rc<Expr>),
    /// The first row.
    First(Rc<Expr>),
    /// The last row.
    Last(Rc<Expr>),
    /// The number of distinct rows.
    NUnique(Rc<Expr>),
    /// The list of all rows.
    Implode(Rc<Expr>),
    /// The number of rows, with nulls or without.
    Count(Rc<Expr>, bool),
}

/// One call where a reduction is let go, so that proofs see no case of it.
impl Drop for AggExpr {
    #[cycle(let_go)]
    fn drop(self) {
        match self {
            AggExpr::Min(_inner) => {}
            AggExpr::Max(_inner) => {}
            AggExpr::Sum(_inner) => {}
            AggExpr::First(_inner) => {}
            AggExpr::Last(_inner) => {}
            AggExpr::NUnique(_inner) => {}
            AggExpr::Implode(_inner) => {}
            AggExpr::Count(_inner, _) => {}
        }
    }
}
