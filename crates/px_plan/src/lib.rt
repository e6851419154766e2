//! What a plan is made of: expressions, arenas of them, and their types. Nothing else stands here.
#![tactic(auto)]

pub use px_arena::{AExpr, Arena, ExprIR, IRAggExpr, Node};
pub use px_lowering::{aexpr_to_leaf_names, fits_arena, is_scalar_ae, node_to_expr, to_arena};
pub use px_tree::{
    AggExpr, Context, Expr, Exprs, FunctionExpr, LiteralValue, WindowMapping, WindowType,
    are_unchunked, has_window, is_range_type,
};
pub use px_typing::{output_name, type_of, type_on_groups};
