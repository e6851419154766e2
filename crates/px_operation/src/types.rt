//! The types that operations take, and the types of their results.
ghost use Rattle.std.specs.Prelude.{◌≡◌, Ok, Err, if◌then◌else◌, option_map};
ghost use Rattle.px_value.specs.Answer.{AnswersBy};
ghost use Rattle.px_operation.specs.Cast.{is_cast, is_binary_kind, cast_kind};
ghost use Rattle.px_value.specs.Kind.{kind_eq};
ghost use Rattle.px_value.specs.KindView.{kind_of};
ghost use Rattle.px_operation.specs.Operator.{is_integer_kind, is_boolean_kind, is_string_kind, is_comparison, kind_where, operated_kind, operator_kind};
ghost use Rattle.px_operation.specs.Reduction.{reduced_kind};
ghost use Rattle.px_operation.specs.Sum.{sum_kind};
ghost use Rattle.px_value.specs.declared.error.PxError.TheVariants.{InvalidOperation};
ghost use Rattle.px_value.specs.declared.error.InvalidWhy.TheVariants.{ListKey};

use px_value::{DataType, GroupByMethod, InvalidWhy, Operator, Px, PxError};
use std::alloc::Global;
use std::rc::Rc;

/// Whether it is a type of integers.
pub fn is_integer(dtype: &DataType) -> bool
    ensures { result ≡ is_integer_kind (kind_of dtype.now) }
{
    matches!(
        dtype,
        DataType::Int8
            | DataType::Int16
            | DataType::Int32
            | DataType::Int64
            | DataType::UInt8
            | DataType::UInt16
            | DataType::UInt32
            | DataType::UInt64
    )
}

/// Whether it is the type of truths.
pub fn is_boolean(dtype: &DataType) -> bool
    ensures { result ≡ is_boolean_kind (kind_of dtype.now) }
{
    matches!(dtype, DataType::Boolean)
}

fn is_string(dtype: &DataType) -> bool
    ensures { result ≡ is_string_kind (kind_of dtype.now) }
{
    matches!(dtype, DataType::String)
}

fn is_binary(dtype: &DataType) -> bool
    ensures { result ≡ is_binary_kind (kind_of dtype.now) }
{
    matches!(dtype, DataType::Binary)
}

/// Whether two types are the same.
pub fn same_type(left: &DataType, right: &DataType) -> bool
    ensures { result ≡ kind_eq (kind_of left.now) (kind_of right.now) }
{
    match (left, right) {
        (DataType::Boolean, DataType::Boolean)
        | (DataType::Int8, DataType::Int8)
        | (DataType::Int16, DataType::Int16)
        | (DataType::Int32, DataType::Int32)
        | (DataType::Int64, DataType::Int64)
        | (DataType::UInt8, DataType::UInt8)
        | (DataType::UInt16, DataType::UInt16)
        | (DataType::UInt32, DataType::UInt32)
        | (DataType::UInt64, DataType::UInt64)
        | (DataType::String, DataType::String)
        | (DataType::Binary, DataType::Binary)
        | (DataType::Null, DataType::Null) => true,
        (DataType::List(left), DataType::List(right)) => same_type(left, right),
        _ => false,
    }
}

/// Whether values of a type are cast to another.
pub fn is_cast(from: &DataType, to: &DataType) -> bool
    ensures { result ≡ is_cast (kind_of from.now) (kind_of to.now) }
{
    match from {
        DataType::Null => true,
        DataType::Boolean => is_boolean(to) || is_integer(to) || is_string(to),
        DataType::String => is_string(to) || is_integer(to) || is_binary(to),
        DataType::Binary => is_binary(to),
        DataType::List(from) => match to {
            DataType::List(to) => is_cast(from, to),
            _ => false,
        },
        _ => is_integer(to) || is_boolean(to) || is_string(to),
    }
}

/// The type where the test holds, else `Types`.
pub fn type_where(holds: bool, dtype: DataType) -> Px<DataType>
    ensures { AnswersBy kind_of result (kind_where holds (kind_of dtype)) }
{
    if holds {
        Ok(dtype)
    } else {
        Err(PxError::InvalidOperation(InvalidWhy::Types))
    }
}

fn is_comparison(op: Operator) -> bool
    ensures { result ≡ is_comparison op }
{
    matches!(
        op,
        Operator::Eq
            | Operator::EqValidity
            | Operator::NotEq
            | Operator::NotEqValidity
            | Operator::Lt
            | Operator::LtEq
            | Operator::Gt
            | Operator::GtEq
    )
}

fn operated_type(op: Operator, dtype: DataType) -> Px<DataType>
    ensures { AnswersBy kind_of result (operated_kind op (kind_of dtype)) }
{
    let is_integer = is_integer(&dtype);
    let is_boolean = is_boolean(&dtype);
    let is_string = is_string(&dtype);
    match op {
        Operator::Plus => type_where(is_integer || is_string, dtype),
        Operator::Minus
        | Operator::Multiply
        | Operator::Divide
        | Operator::FloorDivide
        | Operator::Modulus => type_where(is_integer, dtype),
        Operator::And | Operator::Or | Operator::Xor => type_where(is_boolean || is_integer, dtype),
        Operator::LogicalAnd | Operator::LogicalOr => {
            type_where(is_boolean || is_integer, DataType::Boolean)
        }
        _ => Ok(DataType::Boolean),
    }
}

/// The type of the result of an operator: `ListKey` where a comparison has a list, `Types` where the
/// operands' types differ or the operator does not take them.
pub fn operator_type(op: Operator, left: DataType, right: &DataType) -> Px<DataType>
    ensures { AnswersBy kind_of result (operator_kind op (kind_of left) (kind_of right.now)) }
{
    let is_same = same_type(&left, right);
    if is_comparison(op) {
        if left.is_list() || right.is_list() {
            return Err(PxError::InvalidOperation(InvalidWhy::ListKey));
        }
        return type_where(is_same, DataType::Boolean);
    }
    if is_same {
        operated_type(op, left)
    } else {
        Err(PxError::InvalidOperation(InvalidWhy::Types))
    }
}

/// The type of a cast, or `Types` where there is no such cast.
pub fn cast_type(alloc: Global, from: &DataType, to: &DataType) -> Px<DataType>
    ensures { AnswersBy kind_of result (cast_kind (kind_of from.now) (kind_of to.now)) }
{
    if is_cast(from, to) {
        to.try_clone(alloc)
    } else {
        Err(PxError::InvalidOperation(InvalidWhy::Types))
    }
}

/// The type where it is no list, else `ListKey`.
fn unless_list(is_list: bool, dtype: DataType) -> Px<DataType>
    ensures { AnswersBy kind_of result (if is_list then Err (InvalidOperation ListKey) else Ok (kind_of dtype)) }
{
    if is_list {
        Err(PxError::InvalidOperation(InvalidWhy::ListKey))
    } else {
        Ok(dtype)
    }
}

/// The type of a sum of such values, `None` where they cannot be summed.
pub fn sum_type(dtype: &DataType) -> Option<DataType>
    ensures { option_map kind_of result ≡ sum_kind (kind_of dtype.now) }
{
    match dtype {
        DataType::Boolean | DataType::UInt32 => Some(DataType::UInt32),
        DataType::Int8 | DataType::Int16 | DataType::UInt8 | DataType::UInt16 | DataType::Int64 => {
            Some(DataType::Int64)
        }
        DataType::Int32 => Some(DataType::Int32),
        DataType::UInt64 => Some(DataType::UInt64),
        _ => None,
    }
}

/// The type of a reduction: `ListKey` where lists are compared, `Types` where values cannot be
/// summed.
pub fn reduced_type(alloc: Global, method: GroupByMethod, dtype: DataType) -> Px<DataType>
    ensures { AnswersBy kind_of result (reduced_kind method (kind_of dtype)) }
{
    let is_list = dtype.is_list();
    match method {
        GroupByMethod::Min | GroupByMethod::Max => unless_list(is_list, dtype),
        GroupByMethod::Sum => match sum_type(&dtype) {
            None => Err(PxError::InvalidOperation(InvalidWhy::Types)),
            Some(dtype) => Ok(dtype),
        },
        GroupByMethod::First | GroupByMethod::Last => Ok(dtype),
        GroupByMethod::NUnique => unless_list(is_list, DataType::UInt32),
        GroupByMethod::Count { .. } => Ok(DataType::UInt32),
        GroupByMethod::Implode => Ok(DataType::List(Rc::new(alloc, dtype)?)),
    }
}
