//! What the lists of a column hold, one list after another.
ghost use Rattle.std.specs.Prelude.{◌≡◌, ◌+◌, ◌<◌, ◌^◌, ◌++◌, [], Ok, OnOk, Some, length, true};
ghost use Rattle.px_value.specs.Answer.{Answers};
ghost use Rattle.px_value.specs.Datum.{slots};
ghost use Rattle.px_value.specs.Kind.{all_fit, lists, slot_fits};
ghost use Rattle.px_value.specs.KindView.{kind_of};
ghost use Rattle.px_value.specs.LentView.{slot_of_ref};
ghost use Rattle.px_operation.specs.Function.{exploded, exploded_slot};
ghost use Rattle.px_column.specs.Exploded.{exploded_column};

use crate::builder::ColumnBuilder;
use crate::column::Column;
use px_value::{ComputeWhy, DataType, InvalidWhy, Px, PxError, ValueRef, Values};
use std::alloc::Global;

/// How many rows the list at a place gives: one where there is none, or an empty one.
#[tactic(auto, using(crate::proofs::Exploding::exploded_empty, crate::proofs::Exploding::exploded_some))]
fn exploded_len(slot: Option<ValueRef<'_>>) -> u32
    ensures { result ≡ length (exploded_slot (slot_of_ref slot.entry)) }
{
    match slot {
        Some(ValueRef::List(values)) if !values.is_empty() => values.len(),
        _ => 1,
    }
}

impl ColumnBuilder {
    /// All items of a list more, copied, under the conditions of `push`.
    fn push_items(&mut self, values: &Values) -> Px<()>
        requires fits { all_fit self.old.kind (slots values.now) ≡ true }
        requires room { length self.old.slots + length values.now < 2 ^ 32 }
        ensures answer { Answers result (Ok tt) }
        ensures ok { OnOk result (self.new ≡ record self.old { slots = self.old.slots ++ values.now }) }
    {
        for index in 0..values.len() {
            self.push_ref(values.get(index))?;
        }
        Ok(())
    }

    /// What the list at a place holds more, or one null.
    #[tactic(auto, using(crate::proofs::Exploding::exploded_empty, crate::proofs::Exploding::exploded_some))]
    fn push_exploded(&mut self, slot: Option<ValueRef<'_>>) -> Px<()>
        requires fits { slot_fits (lists self.old.kind) (slot_of_ref slot) ≡ true }
        requires room { length self.old.slots + length (exploded_slot (slot_of_ref slot)) < 2 ^ 32 }
        ensures answer { Answers result (Ok tt) }
        ensures ok { OnOk result (self.new ≡ record self.old { slots = self.old.slots ++ exploded_slot (slot_of_ref slot.entry) }) }
    {
        match slot {
            Some(ValueRef::List(values)) if !values.is_empty() => self.push_items(values),
            _ => self.push(None),
        }
    }
}

impl Column {
    /// How many rows all lists give.
    fn exploded_total(&self) -> u64
        ensures { result ≡ length (exploded self.now.slots) }
    {
        let mut total = 0;
        for row in self.rows() {
            total += exploded_len(row) as u64;
        }
        total
    }

    /// What the lists hold, which has fewer than 2^32 rows.
    fn exploded_rows(&self, mut rows: ColumnBuilder) -> Px<Column>
        requires kind { self.now.kind ≡ lists rows.kind }
        requires empty { rows.slots ≡ [] }
        requires short { length (exploded self.now.slots) < 2 ^ 32 }
        ensures { Answers result (Ok (record rows { slots = exploded self.now.slots })) }
    {
        for row in self.rows() {
            rows.push_exploded(row)?;
        }
        rows.finish()
    }

    /// What the lists hold, one list after another; an empty list or a null gives one null (polars
    /// `explode`). `Types` where the values are no lists, then `TooLong` where that has 2^32 rows or
    /// more, before anything is built.
    pub fn explode(&self, alloc: Global) -> Px<Column>
        ensures { Answers result (exploded_column self.now) }
    {
        let DataType::List(of) = self.dtype() else {
            return Err(PxError::InvalidOperation(InvalidWhy::Types));
        };
        let total = self.exploded_total();
        if total >= 1 << 32 {
            return Err(PxError::ComputeError(ComputeWhy::TooLong));
        }
        let name = self.name().try_clone(alloc)?;
        let rows = ColumnBuilder::new(alloc, name, of.try_clone(alloc)?, total as u32)?;
        self.exploded_rows(rows)
    }
}
