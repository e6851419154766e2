//! What typing finds of a function, from what it found of the inputs.
ghost use Rattle.std.specs.Prelude.{◌≡◌, not};
ghost use Rattle.std.specs.List.{list_any};
ghost use Rattle.px_column.specs.Prelude.{AnswersBy, kind_eq, kind_of};
ghost use Rattle.px_typing.specs.Facts.{kinds_of, takes_rows, is_null_count, is_unit_of_one, one_input_facts, compared_all, compared_facts, only_input, function_facts};
ghost use Rattle.px_typing.specs.FactsView.{facts_of, all_facts_of};

use crate::typed::{
    Typed, all_literals, all_units, any_implode, have_list, is_first_unit, is_scalar,
};
use crate::types::type_of_one;
use px_column::{DataType, InvalidWhy, Px, PxError, same_type, type_where};
use px_tree::{Context, FunctionExpr};
use std::alloc::Global;

/// Whether a function changes how many rows there are, or their order.
fn takes_rows(function: FunctionExpr) -> bool
    ensures { result ≡ takes_rows function }
{
    matches!(
        function,
        FunctionExpr::Reverse
            | FunctionExpr::Shift(_)
            | FunctionExpr::DropNulls
            | FunctionExpr::NullCount
            | FunctionExpr::Explode
    )
}

fn is_null_count(function: FunctionExpr) -> bool
    ensures { result ≡ is_null_count function }
{
    matches!(function, FunctionExpr::NullCount)
}

/// Whether a function of one input gives a unit.
fn is_unit_of_one(function: FunctionExpr, is_unit: bool) -> bool
    ensures { result ≡ is_unit_of_one function is_unit }
{
    match function {
        FunctionExpr::IsNull | FunctionExpr::IsNotNull | FunctionExpr::Not => is_unit,
        FunctionExpr::NullCount => true,
        _ => false,
    }
}

pub(crate) fn infer_of_one(
    alloc: Global,
    function: FunctionExpr,
    input: Typed,
    context: Context,
) -> Px<Typed>
    ensures { AnswersBy facts_of result (one_input_facts context function (facts_of input)) }
{
    if context.is_on_groups() && is_null_count(function) && input.has_implode {
        return Err(PxError::InvalidOperation(InvalidWhy::AggAboveImplode));
    }
    if takes_rows(function) && is_scalar(&input, context) {
        return Err(PxError::InvalidOperation(InvalidWhy::ScalarOnGroups));
    }
    Ok(Typed {
        dtype: type_of_one(alloc, function, input.dtype)?,
        is_unit: is_unit_of_one(function, input.is_unit),
        is_literal: input.is_literal,
        has_implode: input.has_implode,
    })
}

/// Whether all are of one type.
fn have_type(inputs: &[Typed], dtype: &DataType) -> bool
    ensures { result ≡ not (list_any (λ k. not (kind_eq (kind_of dtype.now) k)) (kinds_of (all_facts_of inputs.now))) }
{
    for input in inputs {
        if !same_type(dtype, &input.dtype) {
            return false;
        }
    }
    true
}

/// The type of a comparison of the first with the others.
fn compared_type(inputs: &[Typed]) -> Px<DataType>
    ensures { AnswersBy kind_of result (compared_all (kinds_of (all_facts_of inputs.now))) }
{
    let Some((first, others)) = inputs.split_first() else {
        return Err(PxError::InvalidOperation(InvalidWhy::Types));
    };
    if first.dtype.is_list() || have_list(others) {
        return Err(PxError::InvalidOperation(InvalidWhy::ListKey));
    }
    type_where(have_type(others, &first.dtype), DataType::Boolean)
}

fn infer_compared(count: usize, is_unit: bool, inputs: &[Typed]) -> Px<Typed>
    ensures { AnswersBy facts_of result (compared_facts count is_unit (all_facts_of inputs.now)) }
{
    if inputs.len() != count {
        return Err(PxError::InvalidOperation(InvalidWhy::Types));
    }
    Ok(Typed {
        dtype: compared_type(inputs)?,
        is_unit,
        is_literal: all_literals(inputs),
        has_implode: any_implode(inputs),
    })
}

/// The only input, or `Types`.
fn only_input(inputs: Vec<Typed>) -> Px<Typed>
    ensures { AnswersBy facts_of result (only_input (all_facts_of inputs.items)) }
{
    let mut inputs = inputs;
    match inputs.pop() {
        Some(input) if inputs.is_empty() => Ok(input),
        _ => Err(PxError::InvalidOperation(InvalidWhy::Types)),
    }
}

pub(crate) fn infer_function(
    alloc: Global,
    function: FunctionExpr,
    inputs: Vec<Typed>,
    context: Context,
) -> Px<Typed>
    ensures { AnswersBy facts_of result (function_facts context function (all_facts_of inputs.items)) }
{
    match function {
        FunctionExpr::IsBetween { .. } => infer_compared(3, all_units(&inputs), &inputs),
        FunctionExpr::IsIn => infer_compared(2, is_first_unit(&inputs), &inputs),
        _ => infer_of_one(alloc, function, only_input(inputs)?, context),
    }
}
