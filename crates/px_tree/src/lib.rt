//! Expressions and steps, and what they mean on a frame.
#![tactic(auto)]

mod chunks;
mod context;
mod copy;
mod expr;
mod function;
mod literal;
mod step;
mod window;
mod windows;

pub use chunks::are_unchunked;
pub use context::Context;
pub use expr::{AggExpr, Expr, Exprs};
pub use function::FunctionExpr;
pub use literal::{LiteralValue, is_range_type};
pub use step::Step;
pub use window::{WindowMapping, WindowType};
pub use windows::has_window;
