//! The rows of a column in other places: slices, the reverse order, shifts, and one column after another.
ghost use Rattle.std.specs.Prelude.{◌≡◌, ◌+◌, ◌<◌, ◌≤◌, ◌^◌, pos, ◌-ℤ◌, Ok, OnErr, length, true};
ghost use Rattle.px_value.specs.Answer.{Answers, AnswersBy};
ghost use Rattle.px_value.specs.Kind.{slot_fits};
ghost use Rattle.px_value.specs.LentView.{slot_of_ref};
ghost use Rattle.px_operation.specs.Function.{clamped, slice_start, slice_stop, slice_window, slot_from};
ghost use Rattle.px_column.specs.Rows.{joined_column, reverse_column, shift_column, slice_column};
ghost use Rattle.px_column.specs.Window.{IsLimit, IsOffset};

use crate::builder::ColumnBuilder;
use crate::column::Column;
use px_operation::same_type;
use px_value::{ComputeWhy, InvalidWhy, Px, PxError, ValueRef};
use std::alloc::Global;

/// The number from 0 to `len` that is nearest.
fn clamp(len: u32, number: i128) -> u32
    ensures value { result ≡ clamped len number }
    ensures within { result ≤ len }
{
    if number <= 0 {
        0
    } else if number < len as i128 {
        number as u32
    } else {
        len
    }
}

/// Where a slice of `n` rows starts: a negative offset counts from the end.
fn slice_start(offset: i128, n: u32) -> i128
    requires { IsOffset offset }
    ensures value { result ≡ slice_start offset n }
    ensures within { IsOffset result }
{
    if offset < 0 {
        offset + n as i128
    } else {
        offset
    }
}

/// The row before which a slice of `n` rows stops, `n` where there is no length.
fn slice_stop(offset: i128, length: Option<i128>, n: u32) -> i128
    requires offset { IsOffset offset }
    requires length { IsLimit length }
    ensures { result ≡ slice_stop offset length n }
{
    match length {
        None => n as i128,
        Some(length) => slice_start(offset, n) + length,
    }
}

/// The first row of a slice of `n` rows, and how many rows it has: a negative offset counts from the
/// end, and no length is no limit (polars `slice_offsets`). The offset is from -2^64 to 2^64, the
/// length from 0 to 2^64.
pub fn slice_window(offset: i128, length: Option<i128>, n: u32) -> (u32, u32)
    requires offset { IsOffset offset }
    requires length { IsLimit length }
    ensures value { result ≡ slice_window offset length n }
    ensures within { result.0 + result.1 ≤ n }
{
    let first = clamp(n, slice_start(offset, n));
    let stop = clamp(n, slice_stop(offset, length, n));
    (first, stop.saturating_sub(first))
}

impl Column {
    /// What stands so many rows before another, with nothing before the first and after the last.
    fn get_before(&self, row: u32, periods: i64) -> Option<ValueRef<'_>>
        ensures value { slot_of_ref result ≡ slot_from self.now.slots (pos row -ℤ periods) }
        ensures fits { slot_fits self.now.kind (slot_of_ref result) ≡ true }
    {
        let from = row as i128 - periods as i128;
        if from < 0 || from >= self.len() as i128 {
            None
        } else {
            self.get(from as u32)
        }
    }

    /// The rows from an offset on, so many: a negative offset counts from the end, no length is no
    /// limit, and rows that are not there are left out (polars `slice`). The offset is from -2^64 to
    /// 2^64, the length from 0 to 2^64.
    pub fn slice(&self, alloc: Global, offset: i128, length: Option<i128>) -> Px<Column>
        requires offset { IsOffset offset }
        requires length { IsLimit length }
        ensures { Answers result (Ok (slice_column offset length self.now)) }
    {
        let (first, count) = slice_window(offset, length, self.len());
        self.window(alloc, first, count)
    }

    /// The rows from the last to the first (polars `reverse`).
    #[tactic(auto, using(crate::proofs::Placing::reverse_more, crate::proofs::Placing::reverse_all))]
    pub fn reverse(&self, alloc: Global) -> Px<Column>
        ensures { Answers result (Ok (reverse_column self.now)) }
    {
        let len = self.len();
        let mut rows = self.builder(alloc, len)?;
        for row in 0..len {
            rows.push_ref(self.get(len - 1 - row))?;
        }
        rows.finish()
    }

    /// Each row is the one `periods` before it, or after it for a negative number, and a null where
    /// there is no such row (polars `shift`).
    #[tactic(auto, using(crate::proofs::Placing::shift_all))]
    pub fn shift(&self, alloc: Global, periods: i64) -> Px<Column>
        ensures { Answers result (Ok (shift_column periods self.now)) }
    {
        let len = self.len();
        let mut rows = self.builder(alloc, len)?;
        for row in 0..len {
            rows.push_ref(self.get_before(row, periods))?;
        }
        rows.finish()
    }

    /// The rows of another column are put after those of this one (polars `append`). `Types` where the
    /// types differ, then `TooLong` where both have 2^32 rows or more; after a refusal this column is
    /// as it was.
    pub fn append(&mut self, alloc: Global, other: &Column) -> Px<()>
        ensures answer { AnswersBy (λ _. self.new) result (joined_column self.old other.now) }
        ensures err { OnErr result (self.new ≡ self.old) }
    {
        if !same_type(self.dtype(), other.dtype()) {
            return Err(PxError::InvalidOperation(InvalidWhy::Types));
        }
        let Some(len) = self.len().checked_add(other.len()) else {
            return Err(PxError::ComputeError(ComputeWhy::TooLong));
        };
        let mut rows = self.builder(alloc, len)?;
        rows.push_rows(self)?;
        rows.push_rows(other)?;
        *self = rows.finish()?;
        Ok(())
    }
}
