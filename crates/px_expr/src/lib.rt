//! The planner, which makes nodes of expressions; the nodes are shown here too.
#![tactic(auto)]

mod planner;

pub use planner::{create_physical_expr, create_physical_expressions_from_irs, create_typed_expr};
pub use px_conversion::{ExpressionConversionState, LocalConversionState, get_expr_depth_limit};
pub use px_physical::{
    AggregationExpr, AggregationType, AliasExpr, ApplyExpr, BinaryExpr, CastExpr, ColumnExpr,
    CountExpr, FilterExpr, GatherExpr, LiteralExpr, PhysExpr, PhysicalExpr, SliceExpr, SortByExpr,
    SortExpr, TernaryExpr, WindowExpr, evaluate_cell, evaluate_cells, has_literals_alone,
    literal_column,
};
