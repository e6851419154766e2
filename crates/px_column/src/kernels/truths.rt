//! Which rows are nulls, and the other truths.
ghost use Rattle.std.specs.Prelude.{◌≡◌, ◌+◌, Ok, true};
ghost use Rattle.px_value.specs.Answer.{Answers};
ghost use Rattle.px_value.specs.LentView.{slot_of_ref};
ghost use Rattle.px_value.specs.View.{slot_of};
ghost use Rattle.px_operation.specs.Function.{not_slot};
ghost use Rattle.px_column.specs.Rows.{not_column, nulls_of, present_of};

use crate::column::Column;
use crate::row_by_row::map_rows;
use px_operation::is_boolean;
use px_value::{DataType, InvalidWhy, Px, PxError, Steps, Value, ValueRef};
use std::alloc::Global;
use std::sync::ledger::Ledger;

/// The other truth; a null stays.
fn not_slot(slot: Option<ValueRef<'_>>) -> Option<Value>
    ensures { slot_of result ≡ not_slot (slot_of_ref slot.entry) }
{
    match slot {
        Some(ValueRef::Boolean(b)) => Some(Value::Boolean(!b)),
        _ => None,
    }
}

/// Which rows are nulls.
fn null_rows(alloc: Global, column: &Column) -> Px<Column>
    ensures { Answers result (Ok (nulls_of column.now)) }
{
    let name = column.name().try_clone(alloc)?;
    map_rows(alloc, name, DataType::Boolean, column, |row| {
        Ok(Some(Value::Boolean(row.is_none())))
    })
}

/// Which rows hold a value.
fn present_rows(alloc: Global, column: &Column) -> Px<Column>
    ensures { Answers result (Ok (present_of column.now)) }
{
    let name = column.name().try_clone(alloc)?;
    map_rows(alloc, name, DataType::Boolean, column, |row| {
        Ok(Some(Value::Boolean(row.is_some())))
    })
}

/// The other truths, or `Types`.
fn not_column(alloc: Global, column: &Column) -> Px<Column>
    ensures { Answers result (not_column column.now) }
{
    if !is_boolean(column.dtype()) {
        return Err(PxError::InvalidOperation(InvalidWhy::Types));
    }
    let name = column.name().try_clone(alloc)?;
    map_rows(
        alloc,
        name,
        DataType::Boolean,
        column,
        |row| Ok(not_slot(row)),
    )
}

impl Column {
    /// Whether each row is a null (polars `is_null`); never a null itself. One step of the counter.
    pub fn is_null<L: Ledger>(&self, alloc: Global, kernels: &mut Steps<L>) -> Px<Column>
        ensures answer { Answers result (Ok (nulls_of self.now)) }
        ensures ticks { kernels.new ≡ kernels.old + 1 }
    {
        kernels.tick();
        null_rows(alloc, self)
    }

    /// Whether each row holds a value (polars `is_not_null`); never a null itself. One step of the
    /// counter.
    pub fn is_not_null<L: Ledger>(&self, alloc: Global, kernels: &mut Steps<L>) -> Px<Column>
        ensures answer { Answers result (Ok (present_of self.now)) }
        ensures ticks { kernels.new ≡ kernels.old + 1 }
    {
        kernels.tick();
        present_rows(alloc, self)
    }

    /// The other truth at each row, a null where there is a null (polars `not`); `Types` where the
    /// values are no truths. One step of the counter, whatever is answered.
    pub fn not<L: Ledger>(&self, alloc: Global, kernels: &mut Steps<L>) -> Px<Column>
        ensures answer { Answers result (not_column self.now) }
        ensures ticks { kernels.new ≡ kernels.old + 1 }
    {
        kernels.tick();
        not_column(alloc, self)
    }
}
