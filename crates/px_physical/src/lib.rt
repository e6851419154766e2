//! Expressions as nodes that are evaluated on a frame and on groups (polars `PhysicalExpr`).
#![tactic(auto)]

mod aggregation;
mod alias;
mod apply;
mod binary;
mod cast;
mod child;
mod column;
mod count;
mod filter;
mod gather;
mod inline;
mod literal;
mod on_groups;
mod phys_expr;
mod physical;
mod range;
mod slice;
mod sort;
mod sort_by;
mod ternary;
mod window;

pub use aggregation::{AggregationExpr, AggregationType};
pub use alias::AliasExpr;
pub use apply::ApplyExpr;
pub use binary::BinaryExpr;
pub use cast::CastExpr;
pub use column::ColumnExpr;
pub use count::CountExpr;
pub use filter::FilterExpr;
pub use gather::GatherExpr;
pub use literal::{LiteralExpr, literal_column};
pub use phys_expr::{PhysExpr, evaluate_cell, evaluate_cells, has_literals_alone};
pub use physical::PhysicalExpr;
pub use slice::SliceExpr;
pub use sort::SortExpr;
pub use sort_by::SortByExpr;
pub use ternary::TernaryExpr;
pub use window::WindowExpr;
