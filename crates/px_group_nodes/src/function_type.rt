//! The types and the shapes of functions of contexts.
ghost use Rattle.std.specs.Prelude.{◌≡◌, [], ◌∷◌};
ghost use Rattle.std.specs.List.{list_all};
ghost use Rattle.px_column.specs.Exploded.{element_kind};
ghost use Rattle.px_column.specs.Interval.{compared_kind};
ghost use Rattle.px_column.specs.Prelude.{AnswersBy, kind_of};
ghost use Rattle.px_tree.specs.Partition.{is_row_function};
ghost use Rattle.px_tree.specs.Typing.{function_kind};
ghost use Rattle.px_context.specs.Context.{has_units};
ghost use Rattle.px_group_nodes.specs.Function.{function_type, function_units, has_first_units};

use px_column::{DataType, InvalidWhy, Px, PxError, is_boolean, same_type, type_where};
use px_context::AggregationContext;
use px_tree::FunctionExpr;
use std::alloc::Global;

/// The type of the values in lists of a type, `Types` where it is no type of lists.
fn element_type(alloc: Global, dtype: &DataType) -> Px<DataType>
    ensures { AnswersBy kind_of result (element_kind (kind_of dtype.now)) }
{
    match dtype {
        DataType::List(of) => of.try_clone(alloc),
        _ => Err(PxError::InvalidOperation(InvalidWhy::Types)),
    }
}

/// The type of a function of one input.
fn type_of_one(alloc: Global, function: FunctionExpr, dtype: &DataType) -> Px<DataType>
    ensures { AnswersBy kind_of result (function_kind function (kind_of dtype.now ∷ [])) }
{
    match function {
        FunctionExpr::IsNull | FunctionExpr::IsNotNull => Ok(DataType::Boolean),
        FunctionExpr::Not => type_where(is_boolean(dtype), DataType::Boolean),
        FunctionExpr::Reverse | FunctionExpr::Shift(_) | FunctionExpr::DropNulls => {
            dtype.try_clone(alloc)
        }
        FunctionExpr::NullCount => Ok(DataType::UInt32),
        FunctionExpr::Explode => element_type(alloc, dtype),
        FunctionExpr::IsBetween { .. } | FunctionExpr::IsIn => {
            Err(PxError::InvalidOperation(InvalidWhy::Types))
        }
    }
}

/// The type of a comparison of values with others: `ListKey` where one has lists, `Types` where they
/// differ.
fn compared_type_of_two(of: &DataType, among: &DataType) -> Px<DataType>
    ensures { AnswersBy kind_of result (compared_kind (kind_of of.now) (kind_of among.now ∷ [])) }
{
    if of.is_list() || among.is_list() {
        return Err(PxError::InvalidOperation(InvalidWhy::ListKey));
    }
    type_where(same_type(of, among), DataType::Boolean)
}

/// The type of a comparison of values with two others.
fn compared_type_of_three(of: &DataType, low: &DataType, high: &DataType) -> Px<DataType>
    ensures { AnswersBy kind_of result (compared_kind (kind_of of.now) (kind_of low.now ∷ kind_of high.now ∷ [])) }
{
    if of.is_list() || low.is_list() || high.is_list() {
        return Err(PxError::InvalidOperation(InvalidWhy::ListKey));
    }
    let is_one = same_type(of, low) && same_type(of, high);
    type_where(is_one, DataType::Boolean)
}

/// The type of a function of two inputs.
fn type_of_two(function: FunctionExpr, of: &DataType, among: &DataType) -> Px<DataType>
    ensures { AnswersBy kind_of result (function_kind function (kind_of of.now ∷ kind_of among.now ∷ [])) }
{
    match function {
        FunctionExpr::IsIn => compared_type_of_two(of, among),
        _ => Err(PxError::InvalidOperation(InvalidWhy::Types)),
    }
}

/// The type of a function of three inputs.
fn type_of_three(
    function: FunctionExpr,
    of: &DataType,
    low: &DataType,
    high: &DataType,
) -> Px<DataType>
    ensures { AnswersBy kind_of result (function_kind function (kind_of of.now ∷ kind_of low.now ∷ kind_of high.now ∷ [])) }
{
    match function {
        FunctionExpr::IsBetween { .. } => compared_type_of_three(of, low, high),
        _ => Err(PxError::InvalidOperation(InvalidWhy::Types)),
    }
}

/// The type of a function of the cells of some contexts: `Types` where it takes another number of
/// them, or where their types differ or are none that it takes, `ListKey` where lists are compared.
pub(crate) fn function_type(
    alloc: Global,
    function: FunctionExpr,
    inputs: &[AggregationContext<'_>],
) -> Px<DataType>
    ensures { AnswersBy kind_of result (function_type function inputs.now) }
{
    match inputs {
        [] => Err(PxError::InvalidOperation(InvalidWhy::Types)),
        [input] => type_of_one(alloc, function, input.cell_type()),
        [input, among] => type_of_two(function, input.cell_type(), among.cell_type()),
        [input, low, high] => type_of_three(
            function,
            input.cell_type(),
            low.cell_type(),
            high.cell_type(),
        ),
        [_, _, _, _, ..] => Err(PxError::InvalidOperation(InvalidWhy::Types)),
    }
}

/// Whether the first of some contexts has units.
fn has_first_units(inputs: &[AggregationContext<'_>]) -> bool
    ensures { result ≡ has_first_units inputs.now }
{
    match inputs.first() {
        None => false,
        Some(input) => input.has_units(),
    }
}

/// Whether each of some contexts has units.
fn have_units(inputs: &[AggregationContext<'_>]) -> bool
    ensures { result ≡ list_all (λ c. has_units c.layout) inputs.now }
{
    for input in inputs {
        if !input.has_units() {
            return false;
        }
    }
    true
}

/// Whether a function of some contexts has units.
pub(crate) fn function_units(function: FunctionExpr, inputs: &[AggregationContext<'_>]) -> bool
    ensures { result ≡ function_units function inputs.now }
{
    match function {
        FunctionExpr::IsNull | FunctionExpr::IsNotNull | FunctionExpr::Not | FunctionExpr::IsIn => {
            has_first_units(inputs)
        }
        FunctionExpr::IsBetween { .. } => have_units(inputs),
        FunctionExpr::NullCount => true,
        FunctionExpr::Reverse
        | FunctionExpr::Shift(_)
        | FunctionExpr::DropNulls
        | FunctionExpr::Explode => false,
    }
}

/// Whether a function looks at one row at a time.
pub(crate) fn is_row_function(function: FunctionExpr) -> bool
    ensures { result ≡ is_row_function function }
{
    matches!(
        function,
        FunctionExpr::IsNull
            | FunctionExpr::IsNotNull
            | FunctionExpr::Not
            | FunctionExpr::IsBetween { .. }
    )
}
