//! Columns that a function makes row by row.
ghost use Rattle.std.specs.Prelude.{◌≡◌, ◌<◌, ◌^◌, [], Ok, IfOk, length, map, true};
ghost use Rattle.px_value.specs.Answer.{Answers, AnswersBy};
ghost use Rattle.px_value.specs.Datum.{Slot};
ghost use Rattle.px_value.specs.Kind.{Kind, slot_fits};
ghost use Rattle.px_value.specs.KindView.{kind_of};
ghost use Rattle.px_value.specs.LentView.{slot_of_ref};
ghost use Rattle.px_value.specs.View.{slot_of};
ghost use Rattle.px_column.specs.Beside.{common_length, length_of_three, rows_to, zipped};

use crate::builder::ColumnBuilder;
use crate::column::Column;
use px_value::{DataType, Name, Px, PxError, Value, ValueRef};
use std::alloc::Global;

fn common_len(left: u32, right: u32) -> Px<u32>
    ensures { Answers result (common_length left right) }
{
    if left == right {
        Ok(left)
    } else if left == 1 {
        Ok(right)
    } else if right == 1 {
        Ok(left)
    } else {
        Err(PxError::ShapeMismatch)
    }
}

/// The length of two columns side by side: a single row is repeated. `ShapeMismatch` where the lengths
/// differ and neither is 1.
pub(crate) fn len_beside(left: &Column, right: &Column) -> Px<u32>
    ensures answer { Answers result (common_length (length left.now.slots) (length right.now.slots)) }
    ensures left { IfOk result (λ n. length (rows_to n left.now.slots) ≡ n) }
    ensures right { IfOk result (λ n. length (rows_to n right.now.slots) ≡ n) }
{
    common_len(left.len(), right.len())
}

/// The length of three columns side by side: a single row is repeated. `ShapeMismatch` where the
/// lengths differ and are not 1.
pub(crate) fn len_of_three(first: &Column, second: &Column, third: &Column) -> Px<u32>
    ensures answer { Answers result (length_of_three (length first.now.slots) (length second.now.slots) (length third.now.slots)) }
    ensures first { IfOk result (λ n. length (rows_to n first.now.slots) ≡ n) }
    ensures second { IfOk result (λ n. length (rows_to n second.now.slots) ≡ n) }
    ensures third { IfOk result (λ n. length (rows_to n third.now.slots) ≡ n) }
{
    let pair = common_len(first.len(), second.len())?;
    common_len(pair, third.len())
}

/// What a function makes of each row of a column.
pub(crate) fn map_rows<F: Fn(Option<ValueRef<'_>>) -> Px<Option<Value>>>(
    alloc: Global,
    name: Name,
    dtype: DataType,
    column: &Column,
    f: F,
) -> Px<Column>
    ghost made: { Slot → Slot }
    requires calls { (x : _) → slot_fits column.now.kind (slot_of_ref x) ≡ true → F.pre f x }
    requires gives { (x : _) (r : _) → F.post f x r → AnswersBy slot_of r (Ok (made (slot_of_ref x))) }
    requires fits { (s : Slot) → slot_fits column.now.kind s ≡ true → slot_fits (kind_of dtype) (made s) ≡ true }
    ensures { Answers result (Ok (record { name = name; kind = kind_of dtype; slots = map made column.now.slots })) }
{
    let mut rows = ColumnBuilder::new(alloc, name, dtype, column.len())?;
    for row in column.rows() {
        rows.push(f(row)?)?;
    }
    rows.finish()
}

/// What is made of a row of each of two columns of one type.
pub(crate) trait OfTwoRows {
    ghost takes: { Self → Kind };

    ghost made: { Self → Slot → Slot → Slot };

    /// What is made of two rows.
    fn make(&self, left: Option<ValueRef<'_>>, right: Option<ValueRef<'_>>) -> Px<Option<Value>>
        requires left { slot_fits (takes self.now) (slot_of_ref left) ≡ true }
        requires right { slot_fits (takes self.now) (slot_of_ref right) ≡ true }
        ensures { AnswersBy slot_of result (Ok (made self.now (slot_of_ref left.entry) (slot_of_ref right.entry))) };
}

/// What is made of the rows of two columns side by side, of which each has so many rows or a single one.
pub(crate) fn zip_rows<F: OfTwoRows>(
    mut rows: ColumnBuilder,
    left: &Column,
    right: &Column,
    len: u32,
    f: &F,
) -> Px<Column>
    requires left { left.now.kind ≡ F.takes f.now }
    requires right { right.now.kind ≡ F.takes f.now }
    requires empty { rows.slots ≡ [] }
    requires left_len { length (rows_to len left.now.slots) ≡ len }
    requires right_len { length (rows_to len right.now.slots) ≡ len }
    requires fits { (x : Slot) (y : Slot) → slot_fits (F.takes f.now) x ≡ true → slot_fits (F.takes f.now) y ≡ true → slot_fits rows.kind (F.made f.now x y) ≡ true }
    ensures { Answers result (Ok (record rows { slots = zipped (F.made f.now) (rows_to len left.now.slots) (rows_to len right.now.slots) })) }
{
    for row in 0..len {
        let (x, y) = (left.row_beside(row), right.row_beside(row));
        rows.push(f.make(x, y)?)?;
    }
    rows.finish()
}
