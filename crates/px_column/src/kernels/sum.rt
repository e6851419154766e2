//! Sums of the present values of a column at some of its rows.
ghost use Rattle.std.specs.Prelude.{◌≡◌, ◌+◌, ◌<◌, ◌^◌, ◌+ℤ◌, IfSome, Ok, length, map, option_map, true};
ghost use Rattle.px_array.specs.Integers.{IsNumber};
ghost use Rattle.px_value.specs.Answer.{AnswersBy};
ghost use Rattle.px_value.specs.Datum.{integer};
ghost use Rattle.px_value.specs.View.{slot_of};
ghost use Rattle.px_value.specs.declared.method.GroupByMethod.TheVariants.{Sum};
ghost use Rattle.px_operation.specs.Reduce.{is_taken};
ghost use Rattle.px_operation.specs.Reduction.{reduced_slot};
ghost use Rattle.px_value.specs.Series.{slot_at};
ghost use Rattle.px_operation.specs.Sum.{addend, total, IsWithin};

use crate::column::Column;
use px_array::Integers;
use px_operation::{SumReduce, number, sum_type, wrap_sum};
use px_value::{Px, Value};
use std::alloc::Global;

/// The sum with one integer more, where it is the sum of `count` integers so far.
fn plus_integer(sum: i128, count: u32, value: Option<i128>) -> i128
    requires within { IsWithin count sum }
    requires number { IfSome value IsNumber }
    ensures sum { result ≡ sum +ℤ addend (option_map integer value) }
    ensures within { IsWithin (count + 1) result }
{
    match value {
        Some(value) => sum + value,
        None => sum,
    }
}

/// The whole sum of some integers, each of which may be missing.
#[tactic(auto, using(crate::proofs::Summing::total_row))]
fn total_of(integers: &Integers<'_>) -> i128
    ensures { result ≡ total integers.now }
{
    let mut sum = 0;
    for index in 0..integers.len() {
        sum = plus_integer(sum, index, integers.get(index));
    }
    sum
}

impl Column {
    /// The sum of all rows: over the integers where they stand in memory as such, else row by row.
    pub(crate) fn sum_rows(&self, alloc: Global) -> Px<Option<Value>>
        requires { is_taken Sum self.now.kind ≡ true }
        ensures { AnswersBy slot_of result (Ok (reduced_slot Sum self.now.kind self.now.slots)) }
    {
        match (self.array.integers(), sum_type(self.dtype())) {
            (Some(integers), Some(dtype)) => Ok(Some(wrap_sum(&dtype, total_of(&integers)))),
            _ => self.reduce_by::<SumReduce>(alloc),
        }
    }

    /// The sum with one more row, where it is the sum of `count` rows so far.
    fn plus_row(&self, sum: i128, count: u32, row: u32) -> i128
        requires { IsWithin count sum }
        ensures sum { result ≡ sum +ℤ addend (slot_at self.now.slots row) }
        ensures within { IsWithin (count + 1) result }
    {
        sum + number(self.get_or_null(row))
    }

    /// The sum of the present values at these rows, of which there are fewer than 2^32, whole; a row
    /// that is not there adds nothing.
    pub fn total_at(&self, rows: &[u32]) -> i128
        requires { length rows.now < 2 ^ 32 }
        ensures { result ≡ total (map (slot_at self.now.slots) rows.now) }
    {
        let mut sum = 0;
        let mut count = 0u32;
        for row in rows {
            sum = self.plus_row(sum, count, *row);
            count += 1;
        }
        sum
    }
}
