//! Whether values stand in another column, by a table of its rows.
ghost use Rattle.std.specs.Prelude.{◌≡◌, ◌+◌, List, [], ◌∷◌, Ok, map};
ghost use Rattle.px_value.specs.Answer.{Answers, AnswersBy};
ghost use Rattle.std.specs.List.{list_any};
ghost use Rattle.px_value.specs.Datum.{Slot};
ghost use Rattle.px_value.specs.Equality.{slot_eq};
ghost use Rattle.px_value.specs.Kind.{booleans};
ghost use Rattle.px_value.specs.KindView.{kind_of};
ghost use Rattle.px_value.specs.Series.{slot_at};
ghost use Rattle.px_value.specs.View.{slot_of};
ghost use Rattle.px_operation.specs.Function.{in_slot};
ghost use Rattle.px_operation.specs.Reduction.{distinct_slots};
ghost use Rattle.px_column.specs.Interval.{compared_kind};
ghost use Rattle.px_column.specs.Key.{row_of};
ghost use Rattle.px_column.specs.Member.{member_column};

use crate::builder::ColumnBuilder;
use crate::column::Column;
use crate::row_key::RowKey;
use indexmap::IndexSet;
use px_operation::{same_type, type_where};
use px_value::{DataType, InvalidWhy, Px, PxError, Steps, Value};
use std::alloc::Global;
use std::slice;
use std::sync::ledger::Ledger;

/// The type of a comparison of values of one type with those of another: `ListKey` where one has
/// lists, `Types` where they differ.
fn compared_type(of: &DataType, among: &DataType) -> Px<DataType>
    ensures { AnswersBy kind_of result (compared_kind (kind_of of.now) (kind_of among.now ∷ [])) }
{
    if of.is_list() || among.is_list() {
        return Err(PxError::InvalidOperation(InvalidWhy::ListKey));
    }
    type_where(same_type(of, among), DataType::Boolean)
}

impl Column {
    /// Whether a row stands in a table of another column's rows.
    fn stands_in(&self, table: &IndexSet<RowKey<'_>>, row: u32) -> bool
        ensures { (xs : List Slot) → table.now.keys ≡ map row_of (distinct_slots xs) → result ≡ list_any (slot_eq (slot_at self.now.slots row)) xs }
    {
        let key = RowKey::new(slice::from_ref(self), row);
        table.contains(&key)
    }

    /// Whether a row stands in a table of another column's rows; null for a null.
    fn membership(&self, table: &IndexSet<RowKey<'_>>, row: u32) -> Option<Value>
        ensures { (xs : List Slot) → table.now.keys ≡ map row_of (distinct_slots xs) → slot_of result ≡ in_slot xs (slot_at self.now.slots row) }
    {
        match self.get_or_null(row) {
            None => None,
            Some(_) => Some(Value::Boolean(self.stands_in(table, row))),
        }
    }

    /// Whether each row is one of another column's.
    fn member_rows(&self, alloc: Global, mut rows: ColumnBuilder, among: &Column) -> Px<Column>
        requires kind { rows.kind ≡ booleans }
        requires empty { rows.slots ≡ [] }
        ensures { Answers result (Ok (record rows { slots = map (in_slot among.now.slots) self.now.slots })) }
    {
        let table = among.distinct_rows(alloc)?;
        for row in 0..self.len() {
            rows.push(self.membership(&table, row))?;
        }
        rows.finish()
    }

    fn member_column(&self, alloc: Global, among: &Column) -> Px<Column>
        ensures { Answers result (member_column self.now among.now) }
    {
        let dtype = compared_type(self.dtype(), among.dtype())?;
        let name = self.name().try_clone(alloc)?;
        let rows = ColumnBuilder::new(alloc, name, dtype, self.len())?;
        self.member_rows(alloc, rows, among)
    }

    /// Whether each row is a present value of another column, of whatever length, and a null for a
    /// null (polars `is_in`). One step of the counter, whatever is answered. `ListKey` where one has
    /// lists, then `Types` where the types differ.
    pub fn is_in<L: Ledger>(
        &self,
        alloc: Global,
        other: &Column,
        kernels: &mut Steps<L>,
    ) -> Px<Column>
        ensures answer { Answers result (member_column self.now other.now) }
        ensures ticks { kernels.new ≡ kernels.old + 1 }
    {
        kernels.tick();
        self.member_column(alloc, other)
    }
}
