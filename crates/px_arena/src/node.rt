//! Nodes of an arena.
ghost use Rattle.std.specs.Prelude.{◌≡◌};
ghost use Rattle.px_arena.specs.Arena.{agg_input};

use px_column::{CastOptions, DataType, Name, Operator, SortMultipleOptions, SortOptions};
use px_tree::{FunctionExpr, LiteralValue, WindowType};

/// The place of a node in an arena (polars `Node`).
#[derive(Clone, Copy, Debug, PartialEq, Eq)]
pub struct Node(pub u32);

/// One node of an expression: an `Expr` with the places of its children (polars `AExpr`).
pub enum AExpr {
    /// The column of a name.
    Column(Name),
    /// A value, a range of integers, or a column of its own.
    Literal(LiteralValue),
    /// An expression under another name.
    Alias(Node, Name),
    /// Two expressions combined row by row.
    BinaryExpr {
        left: Node,
        op: Operator,
        right: Node,
    },
    /// Row by row the one where the predicate is true, else the other.
    Ternary {
        predicate: Node,
        truthy: Node,
        falsy: Node,
    },
    /// An expression's values in another type.
    Cast {
        expr: Node,
        dtype: DataType,
        options: CastOptions,
    },
    /// A function of expressions.
    Function {
        input: Vec<Node>,
        function: FunctionExpr,
    },
    /// The values in an expression's lists, one after another.
    Explode(Node),
    /// The rows for which `by` is true.
    Filter {
        input: Node,
        by: Node,
    },
    /// A window of rows.
    Slice {
        input: Node,
        offset: Node,
        length: Node,
    },
    /// The rows at these places; with `returns_scalar` the one row at one place.
    Gather {
        expr: Node,
        idx: Node,
        returns_scalar: bool,
    },
    /// The rows in sorted order.
    Sort {
        expr: Node,
        options: SortOptions,
    },
    /// The rows, sorted by others.
    SortBy {
        expr: Node,
        by: Vec<Node>,
        sort_options: SortMultipleOptions,
    },
    /// A reduction of an expression.
    Agg(IRAggExpr),
    /// The number of rows.
    Len,
    /// A function of each part of the rows by keys.
    Window {
        function: Node,
        partition_by: Vec<Node>,
        order_by: Option<(Node, SortOptions)>,
        options: WindowType,
    },
}

/// One call where a node is let go, so that proofs see no case of it.
impl Drop for AExpr {
    fn drop(self) {
        match self {
            AExpr::Column(_name) => {}
            AExpr::Literal(_value) => {}
            AExpr::Alias(_, _name) => {}
            AExpr::BinaryExpr {
                left: _,
                op: _,
                right: _,
            } => {}
            AExpr::Ternary {
                predicate: _,
                truthy: _,
                falsy: _,
            } => {}
            AExpr::Cast {
                expr: _,
                dtype: _dtype,
                options: _,
            } => {}
            AExpr::Function {
                input: _input,
                function: _,
            } => {}
            AExpr::Explode(_) => {}
            AExpr::Filter { input: _, by: _ } => {}
            AExpr::Slice {
                input: _,
                offset: _,
                length: _,
            } => {}
            AExpr::Gather {
                expr: _,
                idx: _,
                returns_scalar: _,
            } => {}
            AExpr::Sort {
                expr: _,
                options: _,
            } => {}
            AExpr::SortBy {
                expr: _,
                by: _by,
                sort_options: _sort_options,
            } => {}
            AExpr::Agg(_) => {}
            AExpr::Len => {}
            AExpr::Window {
                function: _,
                partition_by: _partition_by,
                order_by: _order_by,
                options: _,
            } => {}
        }
    }
}

/// A reduction of the expression at a place (polars `IRAggExpr`).
#[derive(Clone, Copy, Debug, PartialEq, Eq)]
pub enum IRAggExpr {
    /// The least of the present values.
    Min(Node),
    /// The greatest of the present values.
    Max(Node),
    /// The sum of the present values.
    Sum(Node),
    /// The first row.
    First(Node),
    /// The last row.
    Last(Node),
    /// The number of distinct rows.
    NUnique(Node),
    /// The list of all rows.
    Implode(Node),
    /// The number of rows, with nulls or without.
    Count(Node, bool),
}

impl IRAggExpr {
    /// The place of what is reduced.
    pub fn input(self) -> Node
        ensures { result ≡ agg_input self }
    {
        match self {
            IRAggExpr::Min(expr) => expr,
            IRAggExpr::Max(expr) => expr,
            IRAggExpr::Sum(expr) => expr,
            IRAggExpr::First(expr) => expr,
            IRAggExpr::Last(expr) => expr,
            IRAggExpr::NUnique(expr) => expr,
            IRAggExpr::Implode(expr) => expr,
            IRAggExpr::Count(expr, _) => expr,
        }
    }
}
