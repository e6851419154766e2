//! Expressions in an arena: a list of nodes, each behind its children.
#![tactic(auto)]

mod arena;
mod expr_ir;
mod node;

pub use arena::Arena;
pub use expr_ir::ExprIR;
pub use node::{AExpr, IRAggExpr, Node};
