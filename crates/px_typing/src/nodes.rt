//! What typing finds of an expression, from what it found of the inputs.
ghost use Rattle.std.specs.Prelude.{◌≡◌, Ok, not, option_map};
ghost use Rattle.px_column.specs.Prelude.{AnswersBy, kind_of};
ghost use Rattle.px_typing.specs.Facts.{column_facts, is_typed_literal, literal_facts, binary_facts, ternary_facts, cast_facts, filter_facts, slice_facts, gather_facts, sort_facts, sort_by_facts, agg_facts, window_facts, len_facts, is_list_order, is_literal_key, is_implode_key};
ghost use Rattle.px_typing.specs.FactsView.{facts_of, all_facts_of};
ghost use Rattle.px_tree.specs.Typing.{kind_of_name};
ghost use Rattle.px_tree.specs.View.{literal_of, mapping_of};

use crate::typed::{Typed, all_literals, any_implode, have_list, is_scalar};
use crate::types::{is_integer_or_null, window_type};
use px_column::{
    ComputeWhy, DataType, GroupByMethod, InvalidWhy, Name, Operator, Px, PxError, cast_type,
    is_boolean, is_integer, operator_type, reduced_type, same_type,
};
use px_frame::Schema;
use px_tree::{Context, LiteralValue, WindowType, is_range_type};
use std::alloc::Global;

pub(crate) fn infer_column(alloc: Global, name: &Name, scope: &Schema) -> Px<Typed>
    ensures { AnswersBy facts_of result (column_facts name.now (kind_of_name name.now scope.now)) }
{
    match scope.get_full(name) {
        None => Err(PxError::ColumnNotFound(name.try_clone(alloc)?)),
        Some((_, _, dtype)) => Ok(Typed {
            dtype: dtype.try_clone(alloc)?,
            is_unit: false,
            is_literal: false,
            has_implode: false,
        }),
    }
}

/// Whether it is a range of a type that ranges are not of.
fn is_range_refused(value: &LiteralValue) -> bool
    ensures { result ≡ not (is_typed_literal (literal_of value.now)) }
{
    match value {
        LiteralValue::Range { dtype, .. } => !is_range_type(dtype),
        _ => false,
    }
}

pub(crate) fn infer_literal(alloc: Global, value: &LiteralValue) -> Px<Typed>
    ensures { AnswersBy facts_of result (literal_facts (literal_of value.now)) }
{
    if is_range_refused(value) {
        return Err(PxError::InvalidOperation(InvalidWhy::RangeType));
    }
    Ok(Typed {
        dtype: value.get_datatype(alloc)?,
        is_unit: value.is_single(),
        is_literal: true,
        has_implode: false,
    })
}

pub(crate) fn infer_binary(op: Operator, left: Typed, right: &Typed) -> Px<Typed>
    ensures { AnswersBy facts_of result (binary_facts op (facts_of left) (facts_of right.now)) }
{
    Ok(Typed {
        dtype: operator_type(op, left.dtype, &right.dtype)?,
        is_unit: left.is_unit && right.is_unit,
        is_literal: left.is_literal && right.is_literal,
        has_implode: left.has_implode || right.has_implode,
    })
}

pub(crate) fn infer_ternary(predicate: &Typed, truthy: Typed, falsy: &Typed) -> Px<Typed>
    ensures { AnswersBy facts_of result (ternary_facts (facts_of predicate.now) (facts_of truthy) (facts_of falsy.now)) }
{
    if !is_boolean(&predicate.dtype) {
        return Err(PxError::SchemaMismatch);
    }
    if !same_type(&truthy.dtype, &falsy.dtype) {
        return Err(PxError::InvalidOperation(InvalidWhy::Types));
    }
    Ok(Typed {
        dtype: truthy.dtype,
        is_unit: predicate.is_unit && truthy.is_unit && falsy.is_unit,
        is_literal: predicate.is_literal && truthy.is_literal && falsy.is_literal,
        has_implode: predicate.has_implode || truthy.has_implode || falsy.has_implode,
    })
}

pub(crate) fn infer_cast(alloc: Global, input: &Typed, to: &DataType) -> Px<Typed>
    ensures { AnswersBy facts_of result (cast_facts (facts_of input.now) (kind_of to.now)) }
{
    Ok(Typed {
        dtype: cast_type(alloc, &input.dtype, to)?,
        is_unit: input.is_unit,
        is_literal: input.is_literal,
        has_implode: input.has_implode,
    })
}

pub(crate) fn infer_filter(input: Typed, by: &Typed, context: Context) -> Px<Typed>
    ensures { AnswersBy facts_of result (filter_facts context (facts_of input) (facts_of by.now)) }
{
    if is_scalar(&input, context) {
        return Err(PxError::InvalidOperation(InvalidWhy::ScalarOnGroups));
    }
    if !is_boolean(&by.dtype) {
        return Err(PxError::SchemaMismatch);
    }
    Ok(Typed {
        dtype: input.dtype,
        is_unit: false,
        is_literal: input.is_literal && by.is_literal,
        has_implode: input.has_implode || by.has_implode,
    })
}

pub(crate) fn infer_slice(
    input: Typed,
    offset: &Typed,
    length: &Typed,
    context: Context,
) -> Px<Typed>
    ensures { AnswersBy facts_of result (slice_facts context (facts_of input) (facts_of offset.now) (facts_of length.now)) }
{
    let has_implode = input.has_implode || offset.has_implode || length.has_implode;
    if context.is_on_groups() && has_implode {
        return Err(PxError::InvalidOperation(InvalidWhy::AggAboveImplode));
    }
    if is_scalar(&input, context) {
        return Err(PxError::InvalidOperation(InvalidWhy::ScalarOnGroups));
    }
    if !is_integer_or_null(&offset.dtype) || !is_integer_or_null(&length.dtype) {
        return Err(PxError::InvalidOperation(InvalidWhy::Types));
    }
    Ok(Typed {
        dtype: input.dtype,
        is_unit: false,
        is_literal: input.is_literal && offset.is_literal && length.is_literal,
        has_implode,
    })
}

pub(crate) fn infer_gather(
    input: Typed,
    idx: &Typed,
    returns_scalar: bool,
    context: Context,
) -> Px<Typed>
    ensures { AnswersBy facts_of result (gather_facts context (facts_of input) (facts_of idx.now) returns_scalar) }
{
    if is_scalar(&input, context) {
        return Err(PxError::InvalidOperation(InvalidWhy::ScalarOnGroups));
    }
    if !is_integer(&idx.dtype) {
        return Err(PxError::InvalidOperation(InvalidWhy::Types));
    }
    if returns_scalar && !idx.is_unit {
        return Err(PxError::ComputeError(ComputeWhy::SingleIndex));
    }
    Ok(Typed {
        dtype: input.dtype,
        is_unit: returns_scalar,
        is_literal: input.is_literal && idx.is_literal,
        has_implode: input.has_implode || idx.has_implode,
    })
}

pub(crate) fn infer_sort(input: Typed, context: Context) -> Px<Typed>
    ensures { AnswersBy facts_of result (sort_facts context (facts_of input)) }
{
    if is_scalar(&input, context) {
        return Err(PxError::InvalidOperation(InvalidWhy::ScalarOnGroups));
    }
    if input.dtype.is_list() {
        return Err(PxError::InvalidOperation(InvalidWhy::ListKey));
    }
    Ok(Typed {
        dtype: input.dtype,
        is_unit: false,
        is_literal: input.is_literal,
        has_implode: input.has_implode,
    })
}

pub(crate) fn infer_sort_by(input: Typed, by: &[Typed], context: Context) -> Px<Typed>
    ensures { AnswersBy facts_of result (sort_by_facts context (facts_of input) (all_facts_of by.now)) }
{
    if is_scalar(&input, context) {
        return Err(PxError::InvalidOperation(InvalidWhy::ScalarOnGroups));
    }
    if have_list(by) {
        return Err(PxError::InvalidOperation(InvalidWhy::ListKey));
    }
    Ok(Typed {
        dtype: input.dtype,
        is_unit: false,
        is_literal: input.is_literal && all_literals(by),
        has_implode: input.has_implode || any_implode(by),
    })
}

pub(crate) fn infer_agg(
    alloc: Global,
    method: GroupByMethod,
    input: Typed,
    context: Context,
) -> Px<Typed>
    ensures { AnswersBy facts_of result (agg_facts context method (facts_of input)) }
{
    let is_implode = method == GroupByMethod::Implode;
    if context.is_on_groups() {
        if input.has_implode {
            return Err(PxError::InvalidOperation(InvalidWhy::AggAboveImplode));
        }
        if input.is_literal {
            return Err(PxError::ComputeError(ComputeWhy::AggLiteral));
        }
        if input.is_unit && !is_implode {
            return Err(PxError::ComputeError(ComputeWhy::AggScalar));
        }
    }
    Ok(Typed {
        dtype: reduced_type(alloc, method, input.dtype)?,
        is_unit: !is_implode,
        is_literal: input.is_literal,
        has_implode: is_implode || input.has_implode,
    })
}

pub(crate) fn infer_len() -> Typed
    ensures { facts_of result ≡ len_facts }
{
    Typed {
        dtype: DataType::UInt32,
        is_unit: true,
        is_literal: false,
        has_implode: false,
    }
}

fn is_list_order(order: &Option<Typed>) -> bool
    ensures { result ≡ is_list_order (option_map facts_of order.now) }
{
    match order {
        None => false,
        Some(key) => key.dtype.is_list(),
    }
}

fn is_literal_key(order: &Option<Typed>) -> bool
    ensures { result ≡ is_literal_key (option_map facts_of order.now) }
{
    match order {
        None => true,
        Some(key) => key.is_literal,
    }
}

fn is_implode_key(order: &Option<Typed>) -> bool
    ensures { result ≡ is_implode_key (option_map facts_of order.now) }
{
    match order {
        None => false,
        Some(key) => key.has_implode,
    }
}

pub(crate) fn infer_window(
    alloc: Global,
    options: WindowType,
    function: Typed,
    keys: &[Typed],
    order: Option<Typed>,
    context: Context,
) -> Px<Typed>
    ensures { AnswersBy facts_of result (window_facts context (mapping_of options) (facts_of function) (all_facts_of keys.now) (option_map facts_of order)) }
{
    if context.is_on_groups() {
        return Err(PxError::InvalidOperation(InvalidWhy::WindowOnGroups));
    }
    if keys.is_empty() {
        return Err(PxError::ComputeError(ComputeWhy::NoKey));
    }
    if have_list(keys) || is_list_order(&order) {
        return Err(PxError::InvalidOperation(InvalidWhy::ListKey));
    }
    let WindowType::Over(mapping) = options;
    Ok(Typed {
        dtype: window_type(alloc, mapping, function.is_unit, function.dtype)?,
        is_unit: false,
        is_literal: function.is_literal && all_literals(keys) && is_literal_key(&order),
        has_implode: function.has_implode || any_implode(keys) || is_implode_key(&order),
    })
}
