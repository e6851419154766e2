//! The rows from an offset on.
ghost use Rattle.std.specs.Prelude.{◌≡◌, ◌+◌, ◌≤◌, Some, IfOk, option_map, true, ℤ};
ghost use Rattle.px_column.specs.Prelude.{Answers, AnswersBy, integer, kind_of};
ghost use Rattle.px_column.specs.Window.{IsLimit, IsOffset};
ghost use Rattle.px_frame.specs.CellView.{named_cell};
ghost use Rattle.px_tree.specs.Node.{length_of, offset_of, one_value};
ghost use Rattle.px_tree.specs.Typing.{is_integer_or_null};
ghost use Rattle.px_nodes.specs.Named.{slice_named};

use crate::answer::into_cell;
use px_column::{ComputeWhy, DataType, InvalidWhy, Px, PxError, Steps, ValueRef, is_integer};
use px_frame::Cell;
use std::alloc::Global;
use std::sync::ledger::Ledger;

/// Whether it is a type of integers, or the type of nulls.
fn is_integer_or_null(dtype: &DataType) -> bool
    ensures { result ≡ is_integer_or_null (kind_of dtype.now) }
{
    is_integer(dtype) || matches!(dtype, DataType::Null)
}

/// The one number of an argument of a slice, none for a null.
fn one_number(argument: &Cell) -> Px<Option<i128>>
    requires { is_integer_or_null (named_cell argument.now).kind ≡ true }
    ensures answer { AnswersBy (option_map integer) result (one_value (named_cell argument.now).cell) }
    ensures within { IfOk result (λ n. (z : ℤ) → n ≡ Some z → IsOffset z) }
{
    let column = argument.as_column();
    if column.len() != 1 {
        return Err(PxError::ComputeError(ComputeWhy::SliceArgument));
    }
    match column.get(0) {
        Some(ValueRef::Int(number)) => Ok(Some(number)),
        _ => Ok(None),
    }
}

/// An offset is there.
fn offset_of(number: Option<i128>) -> Px<i128>
    requires { (z : ℤ) → number ≡ Some z → IsOffset z }
    ensures answer { Answers result (offset_of (option_map integer number)) }
    ensures within { IfOk result IsOffset }
{
    match number {
        Some(offset) => Ok(offset),
        None => Err(PxError::ComputeError(ComputeWhy::SliceArgument)),
    }
}

/// A length is not negative; none is no limit.
fn length_of(number: Option<i128>) -> Px<Option<i128>>
    requires { (z : ℤ) → number ≡ Some z → IsOffset z }
    ensures answer { Answers result (length_of (option_map integer number)) }
    ensures within { IfOk result IsLimit }
{
    match number {
        Some(length) if length < 0 => Err(PxError::ComputeError(ComputeWhy::SliceArgument)),
        limit => Ok(limit),
    }
}

/// The rows from an offset on, so many, as a list: a negative offset counts from the end, a null
/// length is no limit, and rows that are not there are left out. `Types` where the offset or the
/// length is neither of integers nor of nulls, then `SliceArgument` where one of them is no one
/// value, the offset is a null or the length is negative.
pub fn slice_cells<L: Ledger>(
    alloc: Global,
    input: Cell,
    offset: Cell,
    length: Cell,
    kernels: &mut Steps<L>,
) -> Px<Cell>
    ensures answer { AnswersBy named_cell result (slice_named (named_cell input) (named_cell offset) (named_cell length)) }
    ensures most { kernels.new ≤ kernels.old + 1 }
    ensures rises { kernels.old ≤ kernels.new }
{
    let (from, count) = (offset.as_column(), length.as_column());
    if !is_integer_or_null(from.dtype()) || !is_integer_or_null(count.dtype()) {
        return Err(PxError::InvalidOperation(InvalidWhy::Types));
    }
    let start = one_number(&offset)?;
    let limit = one_number(&length)?;
    let start = offset_of(start)?;
    let limit = length_of(limit)?;
    kernels.tick();
    into_cell(input.as_column().slice(alloc, start, limit), false)
}
