//! What planning keeps beside the nodes.
ghost use Rattle.std.specs.Prelude.{◌≡◌, false, option_map};
ghost use Rattle.px_tree.specs.View.{tree};
ghost use Rattle.px_conversion.specs.Depth.{depth_limit_of, written_depth_limit};
ghost use Rattle.px_conversion.specs.Noted.{noted};

use crate::depth::is_too_deep;
use px_column::{ComputeWhy, Px, PxError};
use px_tree::{Expr, has_window};
use std::default::Default;

/// What is noted while expressions are planned (polars `ExpressionConversionState`).
#[derive(Clone, Copy, Debug, PartialEq, Eq)]
pub struct ExpressionConversionState {
    /// A window stands in an expression that was planned.
    pub has_windows: bool,
    /// An expression that was planned is as deep as the limit.
    pub too_deep: bool,
    depth_limit: u16,
}

impl ExpressionConversionState {
    /// Nothing is noted yet. An expression is too deep where a path to a leaf has at least so many
    /// nodes; 0 is no limit.
    pub fn new(depth_limit: u16) -> ExpressionConversionState
        ensures windows { result.has_windows ≡ false }
        ensures deep { result.too_deep ≡ false }
        ensures limit { result.depth_limit ≡ depth_limit }
    {
        ExpressionConversionState {
            has_windows: false,
            too_deep: false,
            depth_limit,
        }
    }

    /// What is noted once this expression is planned too.
    pub fn noting(self, expr: &Expr) -> ExpressionConversionState
        ensures { result ≡ noted (tree expr.now) self }
    {
        ExpressionConversionState {
            has_windows: self.has_windows || has_window(expr),
            too_deep: self.too_deep || is_too_deep(expr, self.depth_limit),
            depth_limit: self.depth_limit,
        }
    }
}

/// What is noted while one expression is planned (polars `LocalConversionState`).
#[derive(Clone, Copy, Debug, PartialEq, Eq)]
pub struct LocalConversionState {
    /// An Implode stands in it.
    pub has_implode: bool,
    /// A window stands in it.
    pub has_window: bool,
    /// A literal stands in it.
    pub has_lit: bool,
    /// How many nodes a path to a leaf may have.
    pub depth_limit: u16,
}

impl Default for LocalConversionState {
    ghost is_default = { λ s. s ≡ record { has_implode = false; has_window = false; has_lit = false; depth_limit = 500 } };

    fn default() -> LocalConversionState {
        LocalConversionState {
            has_implode: false,
            has_window: false,
            has_lit: false,
            depth_limit: 500,
        }
    }
}

/// The depth limit that a text sets: 512 without a text, and else the number that it writes in
/// decimal digits, behind a plus or not. A number above 65535 is no limit, which 0 tells. Any other
/// text, also a number of 2^64 or more, is refused with `DepthText` (polars `get_expr_depth_limit`).
pub fn get_expr_depth_limit(text: Option<&str>) -> Px<u16>
    ensures { result ≡ depth_limit_of (option_map (λ s. s.now) text.entry) }
{
    match text {
        None => Ok(512),
        Some(text) => written_depth_limit(text),
    }
}

fn written_depth_limit(text: &str) -> Px<u16>
    ensures { result ≡ written_depth_limit text.now }
{
    match text.parse::<u64>() {
        Ok(number) => Ok(u16::try_from(number).unwrap_or(0)),
        Err(_) => Err(PxError::ComputeError(ComputeWhy::DepthText)),
    }
}
