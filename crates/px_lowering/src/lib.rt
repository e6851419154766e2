//! Expressions into an arena and out of it, and what is read of them there.
#![tactic(auto)]

mod counting;
mod leaves;
mod lowering;
mod rebuilding;
mod scalar;

pub use counting::fits_arena;
pub use leaves::aexpr_to_leaf_names;
pub use lowering::to_arena;
pub use rebuilding::node_to_expr;
pub use scalar::is_scalar_ae;
