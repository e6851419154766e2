//! The items of the lists of a column, one list after another.
ghost use Rattle.std.specs.Prelude.{◌≡◌, ◌+◌, ◌<◌, ◌^◌, ◌++◌, [], Ok, OnOk, length, true};
ghost use Rattle.std.specs.List.{flat_map};
ghost use Rattle.px_column.specs.Prelude.{Answers, AnswersBy, datum_of_ref, is_list_kind, lists, fits, slot_fits, slot_of_ref, slots_fit};
ghost use Rattle.px_context.specs.Context.{items_at, items_of};
ghost use Rattle.px_context.specs.Final.{flat_in, joined};
ghost use Rattle.px_context.specs.LentView.{series_of};

use crate::agg_state::Layout;
use crate::context::AggregationContext;
use crate::context::groups::items_len;
use crate::group_iter::items_type;
use crate::lent::ColRef;
use px_column::{Column, ColumnBuilder, ComputeWhy, Px, PxError, ValueRef, Values};
use std::alloc::Global;

/// The number of items of all lists of a column.
fn total_items(column: &Column) -> u64
    ensures { result ≡ length (flat_map items_at column.now.slots) }
{
    let mut total = 0;
    for row in column.rows() {
        total += u64::from(items_len(row));
    }
    total
}

/// Adds copies of these items, under the conditions of `ColumnBuilder::push`.
fn push_all(rows: &mut ColumnBuilder, values: &Values) -> Px<()>
    requires fits { slots_fit rows.old.kind values.now ≡ true }
    requires room { length rows.old.slots + length values.now < 2 ^ 32 }
    ensures answer { Answers result (Ok tt) }
    ensures ok { OnOk result (rows.new ≡ record rows.old { slots = rows.old.slots ++ values.now }) }
{
    for index in 0..values.len() {
        rows.push_ref(values.get(index))?;
    }
    Ok(())
}

/// Adds copies of the items of a list.
fn push_value(rows: &mut ColumnBuilder, value: ValueRef<'_>) -> Px<()>
    requires fits { fits (lists rows.old.kind) (datum_of_ref value) ≡ true }
    requires room { length rows.old.slots + length (items_of (datum_of_ref value)) < 2 ^ 32 }
    ensures answer { Answers result (Ok tt) }
    ensures ok { OnOk result (rows.new ≡ record rows.old { slots = rows.old.slots ++ items_of (datum_of_ref value.entry) }) }
{
    match value {
        ValueRef::List(values) => push_all(rows, values),
        _ => Ok(()),
    }
}

/// Adds copies of the items at a row.
fn push_items(rows: &mut ColumnBuilder, slot: Option<ValueRef<'_>>) -> Px<()>
    requires fits { slot_fits (lists rows.old.kind) (slot_of_ref slot) ≡ true }
    requires room { length rows.old.slots + length (items_at (slot_of_ref slot)) < 2 ^ 32 }
    ensures answer { Answers result (Ok tt) }
    ensures ok { OnOk result (rows.new ≡ record rows.old { slots = rows.old.slots ++ items_at (slot_of_ref slot.entry) }) }
{
    match slot {
        Some(value) => push_value(rows, value),
        None => Ok(()),
    }
}

/// The column of the items of all lists of a column, which are fewer than 2^32.
fn join_rows(column: &Column, mut rows: ColumnBuilder) -> Px<Column>
    requires kind { column.now.kind ≡ lists rows.kind }
    requires empty { rows.slots ≡ [] }
    requires short { length (flat_map items_at column.now.slots) < 2 ^ 32 }
    ensures { Answers result (Ok (record rows { slots = flat_map items_at column.now.slots })) }
{
    for row in column.rows() {
        push_items(&mut rows, row)?;
    }
    rows.finish()
}

/// The column of the items of all lists of a column, with nothing for an empty list; `TooLong` where
/// there are 2^32 of them, before anything is built.
pub(crate) fn join_lists(alloc: Global, column: &Column) -> Px<Column>
    requires { is_list_kind column.now.kind ≡ true }
    ensures { Answers result (joined column.now) }
{
    let total = total_items(column);
    if total >= 1 << 32 {
        return Err(PxError::ComputeError(ComputeWhy::TooLong));
    }
    let name = column.name().try_clone(alloc)?;
    let dtype = items_type(column.dtype()).try_clone(alloc)?;
    let rows = ColumnBuilder::new(alloc, name, dtype, total as u32)?;
    join_rows(column, rows)
}

impl<'a> AggregationContext<'a> {
    /// The column without its groups: lists joined, with nothing for an empty one, and else the column as
    /// it stands, lent (polars `flat_naive`, which gives a null for an empty list). `TooLong` where all
    /// lists have 2^32 items.
    pub fn flat_naive(&self, alloc: Global) -> Px<ColRef<'_>>
        ensures { AnswersBy series_of result (flat_in self.now.layout self.now.values) }
    {
        match self.layout() {
            Layout::Lists => Ok(ColRef::Owned(join_lists(alloc, self.get_values())?)),
            _ => Ok(ColRef::Borrowed(self.get_values())),
        }
    }
}
