//! Rows of a column by their numbers.
ghost use Rattle.std.specs.Prelude.{◌≡◌, ◌<◌, ◌^◌, IfOk, Ok, length, map, true};
ghost use Rattle.px_value.specs.Answer.{Answers, AnswersBy};
ghost use Rattle.px_value.specs.Kind.{slot_fits};
ghost use Rattle.px_value.specs.LentView.{slot_of_ref};
ghost use Rattle.px_value.specs.View.{slot_of};
ghost use Rattle.px_column.specs.Column.{taken, taken_at, all_within};

use crate::builder::ColumnBuilder;
use crate::column::Column;
use px_value::{DataType, Px, PxError, Value, ValueRef};
use std::alloc::Global;

fn are_within(len: u32, indices: &[Option<u32>]) -> bool
    ensures { result ≡ all_within len indices.now }
{
    for index in indices {
        if let Some(index) = index {
            if *index >= len {
                return false;
            }
        }
    }
    true
}

impl Column {
    /// The value at an asked row, nothing where none is asked for.
    fn get_asked(&self, index: Option<u32>) -> Option<ValueRef<'_>>
        ensures value { slot_of_ref result ≡ taken_at self.now.slots index }
        ensures fits { slot_fits self.now.kind (slot_of_ref result) ≡ true }
    {
        self.get_or_null(index?)
    }

    /// A copy of the value at an asked row, nothing where none is asked for; it shares more
    /// than 16 bytes of a text or of a string of bytes.
    fn copy_asked(&self, alloc: Global, index: Option<u32>) -> Px<Option<Value>>
        ensures value { AnswersBy slot_of result (Ok (taken_at self.now.slots index)) }
        ensures fits { IfOk result (λ s. slot_fits self.now.kind (slot_of s) ≡ true) }
    {
        match index {
            Some(index) if index < self.len() => self.array.copy(alloc, index),
            _ => Ok(None),
        }
    }

    /// These rows, as copies that share long texts and strings of bytes.
    fn take_copies(&self, alloc: Global, indices: &[Option<u32>]) -> Px<Column>
        requires { length indices.now < 2 ^ 32 }
        ensures { Answers result (Ok (record self.now { slots = map (taken_at self.now.slots) indices.now })) }
    {
        let mut rows = self.builder(alloc, indices.len() as u32)?;
        for index in indices {
            rows.push(self.copy_asked(alloc, *index)?)?;
        }
        rows.finish()
    }

    /// These rows, copied as they are lent.
    fn take_any(&self, alloc: Global, indices: &[Option<u32>]) -> Px<Column>
        requires { length indices.now < 2 ^ 32 }
        ensures { Answers result (Ok (record self.now { slots = map (taken_at self.now.slots) indices.now })) }
    {
        let mut rows = self.builder(alloc, indices.len() as u32)?;
        for index in indices {
            rows.push_ref(self.get_asked(*index))?;
        }
        rows.finish()
    }

    /// These rows in this order, of which there are fewer than 2^32, with a null for each `None`; texts
    /// and strings of bytes are shared where they have more than 16. `OutOfBounds` where an index is not
    /// below the length (polars `take`).
    pub fn take(&self, alloc: Global, indices: &[Option<u32>]) -> Px<Column>
        requires { length indices.now < 2 ^ 32 }
        ensures { Answers result (taken self.now indices.now) }
    {
        if !are_within(self.len(), indices) {
            return Err(PxError::OutOfBounds);
        }
        match self.dtype() {
            DataType::String | DataType::Binary => self.take_copies(alloc, indices),
            _ => self.take_any(alloc, indices),
        }
    }
}
