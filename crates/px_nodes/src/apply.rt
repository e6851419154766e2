//! Functions of some cells.
ghost use Rattle.std.specs.Prelude.{◌≡◌, ◌+◌, ◌≤◌, [], ◌∷◌, Ok, OnOk, map, true};
ghost use Rattle.px_column.specs.Column.{null_count};
ghost use Rattle.px_column.specs.Interval.{compared_kind};
ghost use Rattle.px_column.specs.Prelude.{Answers, AnswersBy, kind_of, uint32s};
ghost use Rattle.px_column.specs.Reduction.{count_slot};
ghost use Rattle.px_frame.specs.CellView.{named_cell};
ghost use Rattle.px_tree.specs.Partition.{is_row_function};
ghost use Rattle.px_tree.specs.declared.function.FunctionExpr.TheVariants.{IsBetween};
ghost use Rattle.px_nodes.specs.Named.{function_named};

use crate::answer::{into_cell, length_refusal};
use crate::beside::{are_three_beside, are_three_units};
use px_column::{
    ClosedInterval, Column, DataType, InvalidWhy, Px, PxError, Steps, Value, same_type, type_where,
};
use px_frame::Cell;
use px_tree::FunctionExpr;
use std::alloc::Global;
use std::sync::ledger::Ledger;

/// One row: the number of nulls.
fn count_nulls(alloc: Global, column: &Column) -> Px<Column>
    ensures { Answers result (Ok (record { name = column.now.name; kind = uint32s; slots = count_slot (null_count column.now.slots) ∷ [] })) }
{
    let name = column.name().try_clone(alloc)?;
    let count = Value::Int(column.null_count() as i128);
    Column::full(alloc, name, DataType::UInt32, count, 1)
}

/// A function of one cell.
fn apply_to_one<L: Ledger>(
    alloc: Global,
    input: &Cell,
    function: FunctionExpr,
    kernels: &mut Steps<L>,
) -> Px<Cell>
    ensures answer { AnswersBy named_cell result (function_named function (named_cell input.now ∷ [])) }
    ensures most { kernels.new ≤ kernels.old + 1 }
    ensures rises { kernels.old ≤ kernels.new }
    ensures ticks { is_row_function function ≡ true → OnOk result (kernels.new ≡ kernels.old + 1) }
{
    let (column, is_unit) = (input.as_column(), input.is_unit());
    match function {
        FunctionExpr::IsNull => into_cell(column.is_null(alloc, kernels), is_unit),
        FunctionExpr::IsNotNull => into_cell(column.is_not_null(alloc, kernels), is_unit),
        FunctionExpr::Not => into_cell(column.not(alloc, kernels), is_unit),
        FunctionExpr::Reverse => into_cell(column.reverse(alloc), false),
        FunctionExpr::Shift(periods) => into_cell(column.shift(alloc, periods), false),
        FunctionExpr::DropNulls => into_cell(column.drop_nulls(alloc), false),
        FunctionExpr::NullCount => into_cell(count_nulls(alloc, column), true),
        FunctionExpr::Explode => into_cell(column.explode(alloc), false),
        FunctionExpr::IsBetween { .. } | FunctionExpr::IsIn => {
            Err(PxError::InvalidOperation(InvalidWhy::Types))
        }
    }
}

/// A function of two cells: whether a value is one of others.
fn apply_to_two<L: Ledger>(
    alloc: Global,
    input: &Cell,
    among: &Cell,
    function: FunctionExpr,
    kernels: &mut Steps<L>,
) -> Px<Cell>
    ensures answer { AnswersBy named_cell result (function_named function (named_cell input.now ∷ named_cell among.now ∷ [])) }
    ensures most { kernels.new ≤ kernels.old + 1 }
    ensures rises { kernels.old ≤ kernels.new }
    ensures ticks { is_row_function function ≡ true → OnOk result (kernels.new ≡ kernels.old + 1) }
{
    match function {
        FunctionExpr::IsIn => {
            let (column, others) = (input.as_column(), among.as_column());
            into_cell(column.is_in(alloc, others, kernels), input.is_unit())
        }
        _ => Err(PxError::InvalidOperation(InvalidWhy::Types)),
    }
}

/// The type of a comparison of values of one type with those of two others: `ListKey` where one has
/// lists, `Types` where they differ.
fn compared_type(of: &DataType, low: &DataType, high: &DataType) -> Px<DataType>
    ensures { AnswersBy kind_of result (compared_kind (kind_of of.now) (kind_of low.now ∷ kind_of high.now ∷ [])) }
{
    if of.is_list() || low.is_list() || high.is_list() {
        return Err(PxError::InvalidOperation(InvalidWhy::ListKey));
    }
    let is_one = same_type(of, low) && same_type(of, high);
    type_where(is_one, DataType::Boolean)
}

/// Whether each value lies between a low and a high one.
fn between_cells<L: Ledger>(
    alloc: Global,
    input: &Cell,
    low: &Cell,
    high: &Cell,
    closed: ClosedInterval,
    kernels: &mut Steps<L>,
) -> Px<Cell>
    ensures answer { AnswersBy named_cell result (function_named (IsBetween closed) (named_cell input.now ∷ named_cell low.now ∷ named_cell high.now ∷ [])) }
    ensures most { kernels.new ≤ kernels.old + 1 }
    ensures rises { kernels.old ≤ kernels.new }
    ensures ticks { OnOk result (kernels.new ≡ kernels.old + 1) }
{
    let is_unit = are_three_units(input, low, high);
    let (column, x, y) = (input.as_column(), low.as_column(), high.as_column());
    if are_three_beside(input, low, high) {
        into_cell(column.is_between(alloc, x, y, closed, kernels), is_unit)
    } else {
        let dtype = compared_type(column.dtype(), x.dtype(), y.dtype());
        Err(length_refusal(dtype))
    }
}

/// A function of three cells: whether a value lies between two others.
fn apply_to_three<L: Ledger>(
    alloc: Global,
    input: &Cell,
    low: &Cell,
    high: &Cell,
    function: FunctionExpr,
    kernels: &mut Steps<L>,
) -> Px<Cell>
    ensures answer { AnswersBy named_cell result (function_named function (named_cell input.now ∷ named_cell low.now ∷ named_cell high.now ∷ [])) }
    ensures most { kernels.new ≤ kernels.old + 1 }
    ensures rises { kernels.old ≤ kernels.new }
    ensures ticks { is_row_function function ≡ true → OnOk result (kernels.new ≡ kernels.old + 1) }
{
    match function {
        FunctionExpr::IsBetween { closed } => {
            between_cells(alloc, input, low, high, closed, kernels)
        }
        _ => Err(PxError::InvalidOperation(InvalidWhy::Types)),
    }
}

/// What a function makes of some cells, under the first one's name. `Types` where it takes another
/// number of them, or where their types differ or are none that it takes, `ListKey` where lists would
/// be compared, then `ShapeMismatch` where lists that are compared row by row differ in length, and
/// `TooLong` where an `Explode` would make 2^32 values or more. A function of rows takes one step of
/// the counter where there is an answer.
pub fn apply_cells<L: Ledger>(
    alloc: Global,
    inputs: Vec<Cell>,
    function: &FunctionExpr,
    kernels: &mut Steps<L>,
) -> Px<Cell>
    ensures answer { AnswersBy named_cell result (function_named function.now (map named_cell inputs.items)) }
    ensures most { kernels.new ≤ kernels.old + 1 }
    ensures rises { kernels.old ≤ kernels.new }
    ensures ticks { is_row_function function.now ≡ true → OnOk result (kernels.new ≡ kernels.old + 1) }
{
    match inputs.as_slice() {
        [] => Err(PxError::InvalidOperation(InvalidWhy::Types)),
        [input] => apply_to_one(alloc, input, *function, kernels),
        [input, among] => apply_to_two(alloc, input, among, *function, kernels),
        [input, low, high] => apply_to_three(alloc, input, low, high, *function, kernels),
        [_, _, _, _, ..] => Err(PxError::InvalidOperation(InvalidWhy::Types)),
    }
}
