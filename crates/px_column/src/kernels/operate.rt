//! Operators on two columns side by side, row by row (polars-expr `apply_operator`).
ghost use Rattle.std.specs.Prelude.{◌≡◌, ◌+◌, [], Ok, length, true};
ghost use Rattle.px_value.specs.Answer.{Answers};
ghost use Rattle.px_value.specs.KindView.{kind_of};
ghost use Rattle.px_value.specs.declared.operator.Operator.TheVariants.{And, Or, Xor};
ghost use Rattle.px_operation.specs.Operate.{is_arithmetic};
ghost use Rattle.px_operation.specs.Operator.{is_comparison, operated, operator_kind};
ghost use Rattle.px_column.specs.Operated.{appended_column, arithmetic_column, operated_column, operated_rows};
ghost use Rattle.px_column.specs.Beside.{rows_to};

use crate::builder::ColumnBuilder;
use crate::column::Column;
use crate::row_by_row::{OfTwoRows, len_beside, zip_rows};
use px_operation::{is_integer, operate, operator_type};
use px_value::{DataType, InvalidWhy, Operator, Px, PxError, Steps, Value, ValueRef};
use std::alloc::Global;
use std::sync::ledger::Ledger;

/// An operator on values of a type.
#[derive(Drop)]
struct Operation<'a> {
    alloc: Global,
    dtype: &'a DataType,
    op: Operator,
}

impl OfTwoRows for Operation<'_> {
    ghost takes = { λ o. kind_of o.dtype.now };

    ghost made = { λ o. operated (kind_of o.dtype.now) o.op };

    fn make(&self, left: Option<ValueRef<'_>>, right: Option<ValueRef<'_>>) -> Px<Option<Value>> {
        operate(self.alloc, self.dtype, self.op, left, right)
    }
}

/// What an operator makes of the rows of two columns side by side.
fn operated_rows(
    alloc: Global,
    rows: ColumnBuilder,
    left: &Column,
    right: &Column,
    op: Operator,
    len: u32,
) -> Px<Column>
    requires kind { operator_kind op left.now.kind right.now.kind ≡ Ok rows.kind }
    requires empty { rows.slots ≡ [] }
    requires left_len { length (rows_to len left.now.slots) ≡ len }
    requires right_len { length (rows_to len right.now.slots) ≡ len }
    ensures { Answers result (Ok (record rows { slots = operated_rows op left.now right.now len })) }
{
    let dtype = left.dtype();
    let operation = Operation { alloc, dtype, op };
    zip_rows(rows, left, right, len, &operation)
}

/// What an operator makes of two columns.
fn operate_columns(alloc: Global, left: &Column, right: &Column, op: Operator) -> Px<Column>
    ensures { Answers result (operated_column op left.now right.now) }
{
    let dtype = operator_type(op, left.dtype().try_clone(alloc)?, right.dtype())?;
    let len = len_beside(left, right)?;
    let name = left.name().try_clone(alloc)?;
    let rows = ColumnBuilder::new(alloc, name, dtype, len)?;
    operated_rows(alloc, rows, left, right, op, len)
}

impl Column {
    /// What an operator makes of two columns row by row (polars-expr `apply_operator`), under the left
    /// one's name; a column of a single row is repeated to the other's length. One step of the
    /// counter, whatever is answered. `ListKey` where a comparison has a list, `Types` where the
    /// types differ or the operator does not take them, then `ShapeMismatch` where the lengths do
    /// not agree.
    pub fn apply_operator<L: Ledger>(
        alloc: Global,
        left: &Column,
        right: &Column,
        op: Operator,
        kernels: &mut Steps<L>,
    ) -> Px<Column>
        ensures answer { Answers result (operated_column op left.now right.now) }
        ensures ticks { kernels.new ≡ kernels.old + 1 }
    {
        kernels.tick();
        operate_columns(alloc, left, right, op)
    }

    /// Whether the values of two columns compare so, row by row (polars `ChunkCompareEq` and
    /// `ChunkCompareIneq`); null where one is a null, but for `EqValidity` and `NotEqValidity` (polars
    /// `equal_missing`). `ListKey` where one has lists, then `Types` where the types differ, then
    /// `ShapeMismatch`.
    pub fn compare(alloc: Global, left: &Column, right: &Column, op: Operator) -> Px<Column>
        requires { is_comparison op ≡ true }
        ensures { Answers result (operated_column op left.now right.now) }
    {
        operate_columns(alloc, left, right, op)
    }

    /// And of two columns: of truths, where false decides and else a null leaves it open (polars
    /// `BooleanChunked` `&`), or of integers bit by bit. `Types` for other types, then
    /// `ShapeMismatch`.
    pub fn kleene_and(alloc: Global, left: &Column, right: &Column) -> Px<Column>
        ensures { Answers result (operated_column And left.now right.now) }
    {
        operate_columns(alloc, left, right, Operator::And)
    }

    /// Or of two columns: of truths, where true decides and else a null leaves it open (polars
    /// `BooleanChunked` `|`), or of integers bit by bit. `Types` for other types, then
    /// `ShapeMismatch`.
    pub fn kleene_or(alloc: Global, left: &Column, right: &Column) -> Px<Column>
        ensures { Answers result (operated_column Or left.now right.now) }
    {
        operate_columns(alloc, left, right, Operator::Or)
    }

    /// Whether exactly one of two truths is true, row by row (polars `BooleanChunked` `^`); null where
    /// one is a null. Of integers, bit by bit. `Types` for other types, then `ShapeMismatch`.
    pub fn xor(alloc: Global, left: &Column, right: &Column) -> Px<Column>
        ensures { Answers result (operated_column Xor left.now right.now) }
    {
        operate_columns(alloc, left, right, Operator::Xor)
    }

    /// Arithmetic on two columns of integers of one type, row by row (polars `NumOpsDispatch`): it wraps
    /// in the type, and a division by zero gives a null. `Divide` rounds toward zero, `FloorDivide`
    /// toward minus infinity, and `Modulus` has the divisor's sign. `Types` for other types, then
    /// `ShapeMismatch`.
    pub fn arith(alloc: Global, left: &Column, right: &Column, op: Operator) -> Px<Column>
        requires { is_arithmetic op ≡ true }
        ensures { Answers result (arithmetic_column op left.now right.now) }
    {
        if !is_integer(left.dtype()) {
            return Err(PxError::InvalidOperation(InvalidWhy::Types));
        }
        operate_columns(alloc, left, right, op)
    }

    /// Each text of the left column followed by that of the right one (polars `StringChunked` `+`);
    /// null where one is a null. `Types` unless both have texts, then `ShapeMismatch`.
    pub fn append_text(alloc: Global, left: &Column, right: &Column) -> Px<Column>
        ensures { Answers result (appended_column left.now right.now) }
    {
        match left.dtype() {
            DataType::String => operate_columns(alloc, left, right, Operator::Plus),
            _ => Err(PxError::InvalidOperation(InvalidWhy::Types)),
        }
    }
}
