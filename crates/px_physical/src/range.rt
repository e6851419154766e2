//! Ranges of integers as columns.
ghost use Rattle.std.specs.Prelude.{◌≡◌, ◌^◌, ◌+ℤ◌, ◌-ℤ◌, ◌&&◌, pos, nat_lt, length, Ok, IfOk, Some, None, map, if◌then◌else◌};
ghost use Rattle.std.specs.List.{range_with_len};
ghost use Rattle.px_column.specs.Prelude.{Answers, AnswersBy, integer, fits, kind_of, slot_of, slots_of};
ghost use Rattle.px_tree.specs.Node.{natural};
ghost use Rattle.px_answers.specs.Literal.{range_column};

use px_column::{Column, ComputeWhy, DataType, InvalidWhy, Name, Px, PxError, Value};
use px_plan::is_range_type;
use std::alloc::Global;
use std::convert::TryFrom;

/// The integer this many places after `low`.
fn row_at(low: i64, place: u32) -> Option<Value>
    ensures { slot_of result ≡ Some (integer (low +ℤ pos place)) }
{
    Some(Value::Int(low as i128 + place as i128))
}

/// The integers from `low` on, so many.
fn integers(alloc: Global, low: i64, count: u32) -> Px<Vec<Option<Value>>>
    ensures rows { AnswersBy (λ v. slots_of v.items) result (Ok (map (λ i. Some (integer (low +ℤ pos i))) (range_with_len 0 count))) }
    ensures count { IfOk result (λ v. length v.items ≡ count) }
{
    let mut rows = Vec::with_capacity(alloc, count as usize)?;
    for place in 0..count {
        rows.push(row_at(low, place))?;
    }
    Ok(rows)
}

/// Whether both bounds lie in the type.
fn are_bounds(low: i64, high: i64, dtype: &DataType) -> bool
    ensures { result ≡ (fits (kind_of dtype.now) (integer low) && fits (kind_of dtype.now) (integer high)) }
{
    Value::Int(low as i128).fits(dtype) && Value::Int(high as i128).fits(dtype)
}

/// The number of integers from `low` up to `high`, where there are fewer than 2^32 of them.
fn range_len(low: i64, high: i64) -> Option<u32>
    ensures { result ≡ (if nat_lt (natural (high -ℤ low)) (2 ^ 32) then Some (natural (high -ℤ low)) else None) }
{
    if high <= low {
        return Some(0);
    }
    u32::try_from(high.abs_diff(low)).ok()
}

/// The integers from `low` up to `high`, which is no part of them, none where `high` is not above `low`;
/// `RangeType` unless the type is Int32, Int64 or UInt32, `RangeBound` where a bound lies outside it,
/// and `TooLong` for 2^32 integers or more, which are not made.
pub(crate) fn range_column(alloc: Global, low: i64, high: i64, dtype: &DataType) -> Px<Column>
    ensures { Answers result (range_column low high (kind_of dtype.now)) }
{
    if !is_range_type(dtype) {
        return Err(PxError::InvalidOperation(InvalidWhy::RangeType));
    }
    if !are_bounds(low, high, dtype) {
        return Err(PxError::ComputeError(ComputeWhy::RangeBound));
    }
    let Some(count) = range_len(low, high) else {
        return Err(PxError::ComputeError(ComputeWhy::TooLong));
    };
    let name = Name::new(alloc, "literal")?;
    let rows = integers(alloc, low, count)?;
    Column::from_values(alloc, name, dtype.try_clone(alloc)?, rows)
}
