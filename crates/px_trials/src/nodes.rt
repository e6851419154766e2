//! Nodes that are evaluated on a frame, or without one.
ghost use Rattle.std.specs.Prelude.{◌≡◌, ◌<◌};

use crate::trees::put;
use indexmap::IndexSet;
use px_column::{CastOptions, Column, DataType, GroupByMethod, Name, Px, Steps};
use px_expr::{
    AggregationExpr, AggregationType, ColumnExpr, ExpressionConversionState, LiteralExpr, PhysExpr,
    PhysicalExpr, create_physical_expr,
};
use px_frame::{DataFrame, Field, Schema, SchemaRef};
use px_plan::{Arena, Context, Expr, ExprIR, Exprs, FunctionExpr, LiteralValue};
use px_trial_texts::{four_rows, frame, is_text, text_of_column};
use px_window::ExecutionState;
use std::alloc::Global;
use std::marker::Brand;
use std::rc::Rc;
use std::sync::ledger::{Blank, Ledger};
use std::test::Fail;

fn literal(alloc: Global, value: LiteralValue) -> Px<PhysExpr> {
    let expr = Rc::new(alloc, Expr::Literal(value.try_clone(alloc)?))?;
    Ok(PhysExpr::Literal(LiteralExpr::new(value, expr)))
}

// The literal 5 under so many aliases `t`.
fn five_under(alloc: Global, aliases: u32) -> Px<Expr> {
    let mut expr = Expr::Literal(LiteralValue::Int64(5));
    for _ in 0..aliases {
        expr = Expr::Alias(Rc::new(alloc, expr)?, Name::new(alloc, "t")?);
    }
    Ok(expr)
}

// The node of an expression that reads no column.
fn plan(alloc: Global, expr: &Expr) -> Px<PhysExpr> {
    let mut arena = Arena::new(alloc)?;
    let expr = ExprIR::new(put(alloc, expr, &mut arena)?, None);
    let schema = Rc::new(alloc, Schema::new(alloc)?)?;
    let mut noted = ExpressionConversionState::new(0);
    create_physical_expr(alloc, &expr, Context::Default, &arena, &schema, &mut noted)
}

// The value without a frame, where it is there.
fn inline(alloc: Global, node: &PhysExpr) -> Px<Name> {
    match node.evaluate_inline(alloc)? {
        Some(column) => text_of_column(alloc, Ok(column)),
        None => Name::new(alloc, "none"),
    }
}

fn inline_literal(alloc: Global, value: LiteralValue) -> Px<Name> {
    let node = literal(alloc, value)?;
    inline(alloc, &node)
}

fn inline_under(alloc: Global, aliases: u32) -> Px<Name> {
    let expr = five_under(alloc, aliases)?;
    let node = plan(alloc, &expr)?;
    inline(alloc, &node)
}

// A strict cast of a text to a number.
fn number(alloc: Global, text: &str) -> Px<Expr> {
    let literal = Expr::Literal(LiteralValue::String(Name::new(alloc, text)?));
    Ok(Expr::Cast {
        expr: Rc::new(alloc, literal)?,
        dtype: DataType::Int64,
        options: CastOptions::Strict,
    })
}

fn inline_number(alloc: Global, text: &str) -> Px<Name> {
    let node = plan(alloc, &number(alloc, text)?)?;
    inline(alloc, &node)
}

fn inline_is_null(alloc: Global, text: &str) -> Px<Name> {
    let cast = number(alloc, text)?;
    let items = Rc::new(alloc, vec![in alloc; cast]?)?;
    let input = Exprs { items };
    let function = FunctionExpr::IsNull;
    let node = plan(alloc, &Expr::Function { input, function })?;
    inline(alloc, &node)
}

const RANGE: LiteralValue = LiteralValue::Range {
    low: 0,
    high: 3,
    dtype: DataType::Int64,
};

#[test]
fn a_literal_has_its_value_without_a_frame(rt: HostRuntime) -> Result<(), Fail> {
    let alloc = rt.alloc();
    assert!(rt;
        is_text(
            inline_literal(alloc, LiteralValue::Int64(5)),
            "[\"literal\"]\n[\"Int64\"]\n[5]\n"
        )?
    );
    assert!(rt; is_text(inline_literal(alloc, RANGE), "none")?);
    assert!(rt; is_text(inline_under(alloc, 4), "[\"t\"]\n[\"Int64\"]\n[5]\n")?);
    assert!(rt; is_text(inline_under(alloc, 5), "none")?);
    Ok(())
}

#[test]
fn a_cast_and_a_function_have_their_value_without_a_frame(rt: HostRuntime) -> Result<(), Fail> {
    let alloc = rt.alloc();
    assert!(rt;
        is_text(
            inline_number(alloc, "7"),
            "[\"literal\"]\n[\"Int64\"]\n[7]\n"
        )?
    );
    assert!(rt; is_text(inline_number(alloc, "x"), "none")?);
    assert!(rt;
        is_text(
            inline_is_null(alloc, "7"),
            "[\"literal\"]\n[\"Boolean\"]\n[false]\n"
        )?
    );
    Ok(())
}

fn value_with_counters<L: Ledger, M: Ledger>(
    alloc: Global,
    node: &PhysExpr,
    df: &DataFrame,
    kernels: Blank,
    groupings: Blank,
) -> Px<Column>
    requires kernels_name { kernels.name ≡ L.name }
    requires kernels_parts { kernels.parts ≡ L.parts }
    requires kernels_some { 0 < kernels.parts }
    requires groupings_name { groupings.name ≡ M.name }
    requires groupings_parts { groupings.parts ≡ M.parts }
    requires groupings_some { 0 < groupings.parts }
{
    let mut state = ExecutionState::new(alloc, false)?;
    let mut kernels = Steps::<L>::new(kernels);
    let mut groupings = Steps::<M>::new(groupings);
    node.evaluate(alloc, df, &mut state, &mut kernels, &mut groupings)
}

fn value(alloc: Global, node: &PhysExpr, df: &DataFrame) -> Px<Name> {
    let value = value_with_counters::<Brand, Brand>(alloc, node, df, Blank::new(1), Blank::new(1));
    text_of_column(alloc, value)
}

fn column(alloc: Global, name: &str, schema: SchemaRef) -> Px<PhysExpr> {
    let expr = Rc::new(alloc, Expr::Column(Name::new(alloc, name)?))?;
    let node = ColumnExpr::new(Name::new(alloc, name)?, expr, schema);
    Ok(PhysExpr::Column(node))
}

// What a node of a reserved name, over the schema of one column, finds on a frame.
fn reserved_on(alloc: Global, df: Px<DataFrame>) -> Px<Name> {
    let df = df?;
    let one = frame(alloc, r#"[{"name":"k","type":"Int64","values":[]}]"#)?;
    let schema = Rc::new(alloc, one.schema(alloc)?)?;
    let node = column(alloc, "__POLARS_CSER_1", schema)?;
    value(alloc, &node, &df)
}

// A frame of that name at place 1.
const BEHIND: &str =
    r#"[{"name":"k","type":"Int64","values":[7,9]},{"name":"__POLARS_CSER_1","type":"Int64","values":[3,4]}]"#;

#[test]
fn a_reserved_name_is_found_behind_the_schema(rt: HostRuntime) -> Result<(), Fail> {
    let alloc = rt.alloc();
    assert!(rt;
        is_text(
            reserved_on(alloc, frame(alloc, BEHIND)),
            "[\"__POLARS_CSER_1\"]\n[\"Int64\"]\n[3]\n[4]\n"
        )?
    );
    assert!(rt;
        is_text(
            reserved_on(alloc, four_rows(alloc)),
            "error: ColumnNotFound(\"__POLARS_CSER_1\")\n"
        )?
    );
    Ok(())
}

// The sum of `x`, over a schema.
fn sum(alloc: Global, schema: SchemaRef) -> Px<PhysExpr> {
    let input = Box::new(alloc, column(alloc, "x", schema)?)?;
    let groupby = GroupByMethod::Sum;
    let node = AggregationExpr::new(input, AggregationType { groupby }, None);
    Ok(PhysExpr::Aggregation(node))
}

fn schema(alloc: Global) -> Px<SchemaRef> {
    let frame = four_rows(alloc)?;
    Ok(Rc::new(alloc, frame.schema(alloc)?)?)
}

fn value_of_sum(alloc: Global) -> Px<Name> {
    let frame = four_rows(alloc)?;
    let node = sum(alloc, schema(alloc)?)?;
    value(alloc, &node, &frame)
}

fn field_of_sum(alloc: Global) -> Px<Field> {
    let schema = schema(alloc)?;
    let node = sum(alloc, schema.clone()?)?;
    node.to_field(alloc, &schema)
}

fn name_of_sum(alloc: Global) -> Px<Name> {
    let field = field_of_sum(alloc)?;
    field.name.try_clone(alloc)
}

fn live_of_sum(alloc: Global) -> Px<IndexSet<Name>> {
    let node = sum(alloc, schema(alloc)?)?;
    let mut live = IndexSet::new(alloc);
    node.collect_live_columns(alloc, &mut live)?;
    Ok(live)
}

// The place of the column `x` among the live ones.
fn place_of_live(alloc: Global) -> Px<Option<usize>> {
    let name = Name::new(alloc, "x")?;
    let live = live_of_sum(alloc)?;
    Ok(live.get_index_of(&name))
}

fn sum_is_scalar(alloc: Global) -> Px<bool> {
    let node = sum(alloc, schema(alloc)?)?;
    Ok(node.is_scalar() && !node.is_literal() && node.is_partitioned_aggregator())
}

#[test]
fn a_sum_has_a_value_a_field_and_a_live_column(rt: HostRuntime) -> Result<(), Fail> {
    let alloc = rt.alloc();
    assert!(rt; is_text(value_of_sum(alloc), "[\"x\"]\n[\"Int64\"]\n[6]\n")?);
    assert!(rt; is_text(name_of_sum(alloc), "x")?);
    assert_eq!(rt; place_of_live(alloc)?, Some(0));
    assert!(rt; sum_is_scalar(alloc)?);
    Ok(())
}
