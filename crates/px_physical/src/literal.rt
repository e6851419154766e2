//! Literals.
ghost use Rattle.std.specs.Prelude.{◌≡◌, [], Ok, Some, true};
ghost use Rattle.px_tree.specs.View.{tree};
ghost use Rattle.px_column.specs.Prelude.{Answers, fits, kind_of, datum_of};
ghost use Rattle.px_tree.specs.Shape.{has_implode, is_literal_tree};
ghost use Rattle.px_tree.specs.Tree.{literal, single};
ghost use Rattle.px_tree.specs.View.{literal_of};
ghost use Rattle.px_answers.specs.Literal.{kept_column, literal_column};
ghost use Rattle.px_group_answers.specs.Leaf.{group_literal_column};

use crate::physical::{PhysicalExpr, expression_field};
use crate::range::range_column;
use indexmap::IndexSet;
use px_column::{Column, DataType, Name, Px, PxError, Steps, Value};
use px_context::{AggregationContext, ColRef, GroupsRef};
use px_frame::{DataFrame, Field, GroupPositions, Schema};
use px_plan::{Expr, LiteralValue};
use px_window::ExecutionState;
use std::alloc::Global;
use std::marker::Model;
use std::rc::Rc;
use std::sync::ledger::Ledger;

/// One row that holds a value of the type.
fn one_row(alloc: Global, dtype: DataType, value: Value) -> Px<Option<Column>>
    requires { fits (kind_of dtype) (datum_of value) ≡ true }
    ensures { Answers result (Ok (kept_column (single (kind_of dtype) (Some (datum_of value))))) }
{
    let name = Name::new(alloc, "literal")?;
    Ok(Some(Column::full(alloc, name, dtype, value, 1)?))
}

/// A single value as one row, or the literal's own column; none for a range.
fn kept_column(alloc: Global, value: &LiteralValue) -> Px<Option<Column>>
    ensures { Answers result (Ok (kept_column (literal_of value.now))) }
{
    match value {
        LiteralValue::Boolean(b) => one_row(alloc, DataType::Boolean, Value::Boolean(*b)),
        LiteralValue::Int8(z) => one_row(alloc, DataType::Int8, Value::Int(*z as i128)),
        LiteralValue::Int16(z) => one_row(alloc, DataType::Int16, Value::Int(*z as i128)),
        LiteralValue::Int32(z) => one_row(alloc, DataType::Int32, Value::Int(*z as i128)),
        LiteralValue::Int64(z) => one_row(alloc, DataType::Int64, Value::Int(*z as i128)),
        LiteralValue::UInt8(n) => one_row(alloc, DataType::UInt8, Value::Int(*n as i128)),
        LiteralValue::UInt16(n) => one_row(alloc, DataType::UInt16, Value::Int(*n as i128)),
        LiteralValue::UInt32(n) => one_row(alloc, DataType::UInt32, Value::Int(*n as i128)),
        LiteralValue::UInt64(n) => one_row(alloc, DataType::UInt64, Value::Int(*n as i128)),
        LiteralValue::String(text) => {
            one_row(alloc, DataType::String, Value::Text(text.try_clone(alloc)?))
        }
        LiteralValue::Binary(bytes) => {
            one_row(
                alloc,
                DataType::Binary,
                Value::Bytes(bytes.try_clone(alloc)?),
            )
        }
        LiteralValue::Null => {
            let name = Name::new(alloc, "literal")?;
            Ok(Some(Column::full_null(alloc, name, 1, DataType::Null)?))
        }
        LiteralValue::Range { .. } => Ok(None),
        LiteralValue::Series(column) => Ok(Some(column.try_clone(alloc)?)),
    }
}

/// The column of a literal; `RangeType` and `RangeBound` as a range is refused, `TooLong` where it has 2^32
/// integers.
pub fn literal_column(alloc: Global, value: &LiteralValue) -> Px<Column>
    ensures { Answers result (literal_column (literal_of value.now)) }
{
    match value {
        LiteralValue::Range { low, high, dtype } => range_column(alloc, *low, *high, dtype),
        _ => match kept_column(alloc, value)? {
            Some(column) => Ok(column),
            None => unreachable!(),
        },
    }
}

/// The column of a literal on so many groups: without one a range has no integers, so that it is refused
/// for its type alone.
fn group_literal_column(alloc: Global, value: &LiteralValue, groups: u32) -> Px<Column>
    ensures { Answers result (group_literal_column (literal_of value.now) groups) }
{
    match value {
        LiteralValue::Range { dtype, .. } if groups == 0 => range_column(alloc, 0, 0, dtype),
        _ => literal_column(alloc, value),
    }
}

/// A literal (polars `LiteralExpr`).
#[derive(Drop)]
pub struct LiteralExpr {
    value: LiteralValue,
    expr: Rc<Expr>,
}

impl Model for LiteralExpr {
    ghost use Rattle.px_answers.specs.Planned.{Planned, coded_planned};

    ghost Value = { Planned };

    ghost coded = { coded_planned };

    ghost use Rattle.std.specs.Prelude.{◌≡◌, []};
    ghost use Rattle.px_tree.specs.Tree.{literal};
    ghost use Rattle.px_tree.specs.View.{tree, literal_of};

    ghost view = { λ a. record { tree = literal (literal_of a.value); columns = [] } };

    ghost invariant = { λ a. tree a.expr.value ≡ literal (literal_of a.value) };
}

impl LiteralExpr {
    /// This literal; the expression is that literal.
    pub fn new(value: LiteralValue, expr: Rc<Expr>) -> LiteralExpr
        requires { tree expr.value ≡ literal (literal_of value) }
        ensures tree { result.tree ≡ literal (literal_of value) }
        ensures columns { result.columns ≡ [] }
    {
        LiteralExpr { value, expr }
    }

    /// The literal.
    pub fn value(&self) -> &LiteralValue
        ensures tree { self.now.tree ≡ literal (literal_of result.now) }
        ensures columns { self.now.columns ≡ [] }
    {
        &self.value
    }

    /// The expression.
    pub fn expr(&self) -> &Expr
        ensures { tree result.now ≡ self.now.tree }
    {
        &self.expr
    }

    /// Whether it is a literal.
    pub(crate) fn has_literals_alone(&self) -> bool
        ensures { result ≡ is_literal_tree self.now.tree }
    {
        let _ = &self.expr;
        true
    }

    /// Whether an Implode stands in it.
    pub(crate) fn has_implode(&self) -> bool
        ensures { result ≡ has_implode self.now.tree }
    {
        let _ = &self.expr;
        false
    }
}

impl PhysicalExpr for LiteralExpr {
    ghost planned = { λ a. a };

    fn as_expression(&self) -> Option<&Expr> {
        Some(&self.expr)
    }

    fn evaluate<L: Ledger, M: Ledger>(
        &self,
        alloc: Global,
        df: &DataFrame,
        state: &mut ExecutionState,
        kernels: &mut Steps<L>,
        groupings: &mut Steps<M>,
    ) -> Px<Column> {
        let _ = &self.expr;
        literal_column(alloc, &self.value)
    }

    #[tactic(auto, using(px_group_answers::proofs::GroupCounts::idle_cost, px_group_answers::proofs::GroupCounts::idle_ticks))]
    fn evaluate_on_groups<'a, L: Ledger, M: Ledger>(
        &self,
        alloc: Global,
        df: &'a DataFrame,
        groups: &'a GroupPositions,
        state: &mut ExecutionState,
        kernels: &mut Steps<L>,
        groupings: &mut Steps<M>,
    ) -> Px<AggregationContext<'a>> {
        let _ = &self.expr;
        let values = group_literal_column(alloc, &self.value, groups.len())?;
        let column = ColRef::Owned(values);
        let groups = GroupsRef::Borrowed(groups);
        Ok(AggregationContext::from_literal(column, groups, self.value.is_single()))
    }

    fn evaluate_inline_impl(&self, alloc: Global, depth_limit: u8) -> Px<Option<Column>> {
        let _ = &self.expr;
        kept_column(alloc, &self.value)
    }

    fn to_field(&self, alloc: Global, input_schema: &Schema) -> Px<Field> {
        expression_field(alloc, &self.expr, input_schema)
    }

    fn collect_live_columns(&self, alloc: Global, lv: &mut IndexSet<Name>) -> Px<()> {
        let _ = &self.expr;
        Ok(())
    }

    fn is_literal(&self) -> bool {
        let _ = &self.expr;
        true
    }

    fn is_scalar(&self) -> bool {
        self.value.is_single()
    }

    fn is_partitioned_aggregator(&self) -> bool {
        let _ = &self.expr;
        true
    }
}
