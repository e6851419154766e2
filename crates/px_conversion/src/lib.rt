//! What is noted of expressions while they are planned: windows, and depth beyond a limit.
#![tactic(auto)]

mod conversion;
mod depth;

pub use conversion::{ExpressionConversionState, LocalConversionState, get_expr_depth_limit};
