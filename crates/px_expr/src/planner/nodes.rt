//! The nodes over nodes that were planned.
ghost use Rattle.std.specs.Prelude.{◌≡◌, ◌++◌, [], map, Ok};
ghost use Rattle.px_column.specs.Prelude.{AnswersBy, kind_of};
ghost use Rattle.px_tree.specs.Tree.{column, literal, alias, binary, ternary, cast, filter, slice, gather, sort, sort_by, agg, window};
ghost use Rattle.px_tree.specs.View.{tree, literal_of};
ghost use Rattle.px_physical.specs.NodeView.{order_of, plan_of};
ghost use Rattle.px_answers.specs.Parts.{order_columns, plan_order, plan_trees, plan_columns, under};
ghost use Rattle.px_expr.specs.Plan.{planned_over};

use px_column::{
    CastOptions, DataType, GroupByMethod, Name, Operator, Px, SortMultipleOptions, SortOptions,
};
use px_frame::SchemaRef;
use px_physical::{
    AggregationExpr, AggregationType, AliasExpr, BinaryExpr, CastExpr, ColumnExpr, FilterExpr,
    GatherExpr, LiteralExpr, PhysExpr, PhysicalExpr, SliceExpr, SortByExpr, SortExpr, TernaryExpr,
    WindowExpr,
};
use px_plan::{Expr, LiteralValue, WindowMapping};
use std::alloc::Global;
use std::rc::Rc;

/// An equal expression, as a node keeps it: nodes hold it by its place, so that each stays small.
pub(crate) fn share(alloc: Global, expr: &Expr) -> Px<Rc<Expr>>
    ensures { AnswersBy (λ e. tree e.value) result (Ok (tree expr.now)) }
{
    let expr = expr.try_clone(alloc)?;
    Ok(Rc::new(alloc, expr)?)
}

pub(crate) fn plan_column(alloc: Global, name: &Name, schema: &SchemaRef) -> Px<PhysExpr>
    ensures { AnswersBy plan_of result (Ok (planned_over schema.now.value (column name.now))) }
{
    let read = name.try_clone(alloc)?;
    let expr = Rc::new(alloc, Expr::Column(read))?;
    let name = name.try_clone(alloc)?;
    let schema = schema.clone()?;
    Ok(PhysExpr::Column(ColumnExpr::new(name, expr, schema)))
}

pub(crate) fn plan_literal(alloc: Global, value: &LiteralValue) -> Px<PhysExpr>
    ensures { AnswersBy plan_of result (Ok (record { tree = literal (literal_of value.now); columns = [] })) }
{
    let copy = value.try_clone(alloc)?;
    let expr = Rc::new(alloc, Expr::Literal(copy))?;
    let value = value.try_clone(alloc)?;
    Ok(PhysExpr::Literal(LiteralExpr::new(value, expr)))
}

/// A node under a name, with the expression that the node stands for.
pub(crate) fn plan_alias(alloc: Global, input: PhysExpr, name: &Name, expr: Expr) -> Px<PhysExpr>
    requires { tree expr ≡ (plan_of input).tree }
    ensures { AnswersBy plan_of result (Ok (record (plan_of input) { tree = alias (plan_of input).tree name.now })) }
{
    let expr = Rc::new(alloc, expr)?;
    let name = name.try_clone(alloc)?;
    let input = Box::new(alloc, input)?;
    Ok(PhysExpr::Alias(AliasExpr::new(input, name, expr)))
}

/// An operator on two nodes, with the expression of the two.
pub(crate) fn plan_binary(
    alloc: Global,
    left: PhysExpr,
    op: Operator,
    right: PhysExpr,
    expr: &Expr,
) -> Px<PhysExpr>
    requires { tree expr.now ≡ binary (plan_of left).tree op (plan_of right).tree }
    ensures { AnswersBy plan_of result (Ok (record { tree = tree expr.now; columns = (plan_of left).columns ++ (plan_of right).columns })) }
{
    let expr = share(alloc, expr)?;
    let has_literal = left.is_literal() || right.is_literal();
    let is_scalar = left.is_scalar() && right.is_scalar();
    let left = Box::new(alloc, left)?;
    let right = Box::new(alloc, right)?;
    Ok(PhysExpr::Binary(BinaryExpr::new(left, op, right, expr, has_literal, is_scalar)))
}

/// One node or another, as a third says, with the expression of the three.
pub(crate) fn plan_ternary(
    alloc: Global,
    predicate: PhysExpr,
    truthy: PhysExpr,
    falsy: PhysExpr,
    expr: &Expr,
) -> Px<PhysExpr>
    requires { tree expr.now ≡ ternary (plan_of predicate).tree (plan_of truthy).tree (plan_of falsy).tree }
    ensures { AnswersBy plan_of result (Ok (record { tree = tree expr.now; columns = (plan_of predicate).columns ++ ((plan_of truthy).columns ++ (plan_of falsy).columns) })) }
{
    let expr = share(alloc, expr)?;
    let returns_scalar = predicate.is_scalar() && truthy.is_scalar() && falsy.is_scalar();
    let predicate = Box::new(alloc, predicate)?;
    let truthy = Box::new(alloc, truthy)?;
    let falsy = Box::new(alloc, falsy)?;
    Ok(PhysExpr::Ternary(TernaryExpr::new(predicate, truthy, falsy, expr, returns_scalar)))
}

/// A node in another type, with the expression of that cast.
pub(crate) fn plan_cast(
    alloc: Global,
    input: PhysExpr,
    dtype: &DataType,
    options: CastOptions,
    expr: &Expr,
) -> Px<PhysExpr>
    requires { tree expr.now ≡ cast (plan_of input).tree (kind_of dtype.now) options }
    ensures { AnswersBy plan_of result (Ok (record (plan_of input) { tree = tree expr.now })) }
{
    let expr = share(alloc, expr)?;
    let dtype = dtype.try_clone(alloc)?;
    let input = Box::new(alloc, input)?;
    Ok(PhysExpr::Cast(CastExpr::new(input, dtype, options, expr)))
}

/// The rows of a node for which another is true, with the expression of that filter.
pub(crate) fn plan_filter(alloc: Global, input: PhysExpr, by: PhysExpr, expr: &Expr) -> Px<PhysExpr>
    requires { tree expr.now ≡ filter (plan_of input).tree (plan_of by).tree }
    ensures { AnswersBy plan_of result (Ok (record { tree = tree expr.now; columns = (plan_of input).columns ++ (plan_of by).columns })) }
{
    let expr = share(alloc, expr)?;
    let input = Box::new(alloc, input)?;
    let by = Box::new(alloc, by)?;
    Ok(PhysExpr::Filter(FilterExpr::new(input, by, expr)))
}

/// A window of a node's rows, with the expression of that slice.
pub(crate) fn plan_slice(
    alloc: Global,
    input: PhysExpr,
    offset: PhysExpr,
    length: PhysExpr,
    expr: &Expr,
) -> Px<PhysExpr>
    requires { tree expr.now ≡ slice (plan_of input).tree (plan_of offset).tree (plan_of length).tree }
    ensures { AnswersBy plan_of result (Ok (record { tree = tree expr.now; columns = (plan_of input).columns ++ ((plan_of offset).columns ++ (plan_of length).columns) })) }
{
    let expr = share(alloc, expr)?;
    let input = Box::new(alloc, input)?;
    let offset = Box::new(alloc, offset)?;
    let length = Box::new(alloc, length)?;
    Ok(PhysExpr::Slice(SliceExpr::new(input, offset, length, expr)))
}

/// The rows of a node that indices name, or the one row, with the expression of that gather.
pub(crate) fn plan_gather(
    alloc: Global,
    input: PhysExpr,
    idx: PhysExpr,
    returns_scalar: bool,
    expr: &Expr,
) -> Px<PhysExpr>
    requires { tree expr.now ≡ gather (plan_of input).tree (plan_of idx).tree returns_scalar }
    ensures { AnswersBy plan_of result (Ok (record { tree = tree expr.now; columns = (plan_of input).columns ++ (plan_of idx).columns })) }
{
    let expr = share(alloc, expr)?;
    let input = Box::new(alloc, input)?;
    let idx = Box::new(alloc, idx)?;
    Ok(PhysExpr::Gather(GatherExpr::new(input, idx, expr, returns_scalar)))
}

/// A node's rows in sorted order, with the expression of that sort.
pub(crate) fn plan_sort(
    alloc: Global,
    input: PhysExpr,
    options: SortOptions,
    expr: &Expr,
) -> Px<PhysExpr>
    requires { tree expr.now ≡ sort (plan_of input).tree options }
    ensures { AnswersBy plan_of result (Ok (record (plan_of input) { tree = tree expr.now })) }
{
    let expr = share(alloc, expr)?;
    let input = Box::new(alloc, input)?;
    Ok(PhysExpr::Sort(SortExpr::new(input, options, expr)))
}

/// A node's rows in the order of others, with the expression of that sort.
pub(crate) fn plan_sort_by(
    alloc: Global,
    input: PhysExpr,
    by: Vec<PhysExpr>,
    sort_options: &SortMultipleOptions,
    expr: &Expr,
) -> Px<PhysExpr>
    requires { tree expr.now ≡ sort_by (plan_of input).tree (plan_trees (map plan_of by.items)) sort_options.now }
    ensures { AnswersBy plan_of result (Ok (record { tree = tree expr.now; columns = (plan_of input).columns ++ plan_columns (map plan_of by.items) })) }
{
    let expr = share(alloc, expr)?;
    let sort_options = sort_options.try_clone(alloc)?;
    let input = Box::new(alloc, input)?;
    Ok(PhysExpr::SortBy(SortByExpr::new(input, by, expr, sort_options)))
}

/// A reduction of a node.
pub(crate) fn plan_aggregation(
    alloc: Global,
    input: PhysExpr,
    groupby: GroupByMethod,
) -> Px<PhysExpr>
    ensures { AnswersBy plan_of result (Ok (record (plan_of input) { tree = agg groupby (plan_of input).tree })) }
{
    let input = Box::new(alloc, input)?;
    Ok(PhysExpr::Aggregation(AggregationExpr::new(input, AggregationType { groupby }, None)))
}

/// The function of a window that was planned: the name of its result, where that is another than the
/// function's, and the function's expression and node.
#[derive(Drop)]
pub(crate) struct PlannedFunction {
    pub out_name: Option<Name>,
    pub function: Expr,
    pub node: PhysExpr,
}

/// A function's values on the parts of the rows by nodes, each in the order of another, with the
/// expression of that window.
pub(crate) fn plan_window(
    alloc: Global,
    planned: PlannedFunction,
    group_by: Vec<PhysExpr>,
    order_by: Option<(Box<PhysExpr>, SortOptions)>,
    mapping: WindowMapping,
    expr: &Expr,
) -> Px<PhysExpr>
    requires tree { tree expr.now ≡ window (under planned.out_name (plan_of planned.node).tree) (plan_trees (map plan_of group_by.items)) (plan_order (order_of order_by)) mapping }
    requires function { tree planned.function ≡ (plan_of planned.node).tree }
    ensures { AnswersBy plan_of result (Ok (record { tree = tree expr.now; columns = (plan_of planned.node).columns ++ (plan_columns (map plan_of group_by.items) ++ order_columns (order_of order_by)) })) }
{
    let PlannedFunction {
        out_name,
        function,
        node,
    } = planned;
    let function = Rc::new(alloc, function)?;
    let expr = share(alloc, expr)?;
    let node = Box::new(alloc, node)?;
    Ok(PhysExpr::Window(WindowExpr::new(
        group_by, order_by, out_name, function, node, mapping, expr,
    )))
}
