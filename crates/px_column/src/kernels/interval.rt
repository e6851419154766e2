//! Whether values lie between two ends.
ghost use Rattle.std.specs.Prelude.{◌≡◌, ◌+◌, [], ◌∷◌, Ok, length, true};
ghost use Rattle.px_value.specs.Answer.{Answers, AnswersBy};
ghost use Rattle.px_value.specs.Kind.{booleans, slot_fits};
ghost use Rattle.px_value.specs.KindView.{kind_of};
ghost use Rattle.px_value.specs.LentView.{slot_of_ref};
ghost use Rattle.px_value.specs.View.{slot_of};
ghost use Rattle.px_operation.specs.Function.{above, below, between_slot};
ghost use Rattle.px_column.specs.Beside.{rows_to, zipped_three};
ghost use Rattle.px_column.specs.Interval.{between_column, compared_kind};

use crate::builder::ColumnBuilder;
use crate::column::Column;
use crate::row_by_row::len_of_three;
use px_operation::{operate, same_type, type_where};
use px_value::{
    ClosedInterval, DataType, InvalidWhy, Operator, Px, PxError, Steps, Value, ValueRef, lend,
};
use std::alloc::Global;
use std::sync::ledger::Ledger;

/// How a value stands to the low end.
fn above(closed: ClosedInterval) -> Operator
    ensures { result ≡ above closed }
{
    match closed {
        ClosedInterval::Both | ClosedInterval::Left => Operator::GtEq,
        ClosedInterval::Right | ClosedInterval::None => Operator::Gt,
    }
}

/// How a value stands to the high end.
fn below(closed: ClosedInterval) -> Operator
    ensures { result ≡ below closed }
{
    match closed {
        ClosedInterval::Both | ClosedInterval::Right => Operator::LtEq,
        ClosedInterval::Left | ClosedInterval::None => Operator::Lt,
    }
}

/// Whether a value lies between a low and a high end.
#[tactic(auto, using(crate::proofs::Between::fits_above, crate::proofs::Between::fits_below))]
fn between(
    alloc: Global,
    dtype: &DataType,
    closed: ClosedInterval,
    slot: Option<ValueRef<'_>>,
    low: Option<ValueRef<'_>>,
    high: Option<ValueRef<'_>>,
) -> Px<Option<Value>>
    requires slot { slot_fits (kind_of dtype.now) (slot_of_ref slot) ≡ true }
    requires low { slot_fits (kind_of dtype.now) (slot_of_ref low) ≡ true }
    requires high { slot_fits (kind_of dtype.now) (slot_of_ref high) ≡ true }
    ensures { AnswersBy slot_of result (Ok (between_slot (kind_of dtype.now) closed (slot_of_ref slot.entry) (slot_of_ref low.entry) (slot_of_ref high.entry))) }
{
    let over = operate(alloc, dtype, above(closed), slot, low)?;
    let under = operate(alloc, dtype, below(closed), slot, high)?;
    operate(
        alloc,
        &DataType::Boolean,
        Operator::And,
        lend(&over),
        lend(&under),
    )
}

/// The type of a comparison of values of one type with those of two others: `ListKey` where one has
/// lists, `Types` where they differ.
fn compared_type(of: &DataType, low: &DataType, high: &DataType) -> Px<DataType>
    ensures { AnswersBy kind_of result (compared_kind (kind_of of.now) (kind_of low.now ∷ kind_of high.now ∷ [])) }
{
    if of.is_list() || low.is_list() || high.is_list() {
        return Err(PxError::InvalidOperation(InvalidWhy::ListKey));
    }
    let is_one = same_type(of, low) && same_type(of, high);
    type_where(is_one, DataType::Boolean)
}

impl Column {
    /// Whether each row lies between those of a low and a high column of its type, at a common length.
    fn between_rows(
        &self,
        alloc: Global,
        mut rows: ColumnBuilder,
        low: &Column,
        high: &Column,
        closed: ClosedInterval,
        len: u32,
    ) -> Px<Column>
        requires kind { rows.kind ≡ booleans }
        requires empty { rows.slots ≡ [] }
        requires low { self.now.kind ≡ low.now.kind }
        requires high { self.now.kind ≡ high.now.kind }
        requires self_len { length (rows_to len self.now.slots) ≡ len }
        requires low_len { length (rows_to len low.now.slots) ≡ len }
        requires high_len { length (rows_to len high.now.slots) ≡ len }
        ensures { Answers result (Ok (record rows { slots = zipped_three (between_slot self.now.kind closed) (rows_to len self.now.slots) (rows_to len low.now.slots) (rows_to len high.now.slots) })) }
    {
        for row in 0..len {
            let slot = self.row_beside(row);
            let (x, y) = (low.row_beside(row), high.row_beside(row));
            rows.push(between(alloc, self.dtype(), closed, slot, x, y)?)?;
        }
        rows.finish()
    }

    fn between_column(
        &self,
        alloc: Global,
        low: &Column,
        high: &Column,
        closed: ClosedInterval,
    ) -> Px<Column>
        ensures { Answers result (between_column closed self.now low.now high.now) }
    {
        let dtype = compared_type(self.dtype(), low.dtype(), high.dtype())?;
        let len = len_of_three(self, low, high)?;
        let name = self.name().try_clone(alloc)?;
        let rows = ColumnBuilder::new(alloc, name, dtype, len)?;
        self.between_rows(alloc, rows, low, high, closed, len)
    }

    /// Whether each row lies between those of two other columns (polars `is_between`): at or above the
    /// low end and at or below the high one, without the ends that `closed` leaves out; a null end or
    /// a null value leaves open what the other end does not decide. A column of a single row is
    /// repeated to the others' length. One step of the counter, whatever is answered. `ListKey`
    /// where one has lists, `Types` where the types differ, then `ShapeMismatch` where the lengths
    /// do not agree.
    pub fn is_between<L: Ledger>(
        &self,
        alloc: Global,
        low: &Column,
        high: &Column,
        closed: ClosedInterval,
        kernels: &mut Steps<L>,
    ) -> Px<Column>
        ensures answer { Answers result (between_column closed self.now low.now high.now) }
        ensures ticks { kernels.new ≡ kernels.old + 1 }
    {
        kernels.tick();
        self.between_column(alloc, low, high, closed)
    }
}
