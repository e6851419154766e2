//! The distinct rows of a column, in a table.
ghost use Rattle.std.specs.Prelude.{◌≡◌, ◌<◌, ◌^◌, Ok, IfOk, length, map};
ghost use Rattle.px_value.specs.Answer.{Answers, AnswersBy};
ghost use Rattle.px_operation.specs.Reduction.{distinct_slots};
ghost use Rattle.px_column.specs.Key.{row_of};

use crate::column::Column;
use crate::row_key::RowKey;
use indexmap::IndexSet;
use px_value::Px;
use std::alloc::Global;
use std::slice;

impl Column {
    /// The distinct rows, in the order of their first places, a null being the same as a null.
    pub(crate) fn distinct_rows(&self, alloc: Global) -> Px<IndexSet<RowKey<'_>>>
        ensures keys { AnswersBy (λ s. s.keys) result (Ok (map row_of (distinct_slots self.now.slots))) }
        ensures few { IfOk result (λ s. length s.keys < 2 ^ 32) }
    {
        let by = slice::from_ref(self);
        let mut seen: IndexSet<RowKey<'_>> = IndexSet::new(alloc);
        for row in 0..self.len() {
            seen.insert(RowKey::new(by, row))?;
        }
        Ok(seen)
    }

    /// The number of distinct rows.
    pub(crate) fn distinct_count(&self, alloc: Global) -> Px<u32>
        ensures { Answers result (Ok (length (distinct_slots self.now.slots))) }
    {
        Ok(self.distinct_rows(alloc)?.len() as u32)
    }
}
