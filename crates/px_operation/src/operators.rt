//! What operators make of two values (polars `Operator`): comparisons, arithmetic, logic, and texts put together.
ghost use Rattle.std.specs.Prelude.{◌≡◌, Ok, ◌++◌, true};
ghost use Rattle.px_value.specs.Answer.{AnswersBy};
ghost use Rattle.px_value.specs.Datum.{text};
ghost use Rattle.px_value.specs.Kind.{slot_fits};
ghost use Rattle.px_value.specs.KindView.{kind_of};
ghost use Rattle.px_value.specs.LentView.{slot_of_ref};
ghost use Rattle.px_value.specs.View.{datum_of, slot_of};
ghost use Rattle.px_operation.specs.Operate.{is_bitwise};
ghost use Rattle.px_operation.specs.Operator.{operated, plus_slot};

mod bits;
mod comparison;
mod number;
mod truth;

use crate::types::is_boolean;
use bits::bit_by_bit;
pub(crate) use comparison::compare_slots;
use number::arithmetic;
pub(crate) use number::number_in;
use px_value::{DataType, Name, Operator, Px, Value, ValueRef};
use std::alloc::Global;
pub(crate) use truth::{both, truth, truth_of};
use truth::{either, exactly_one};

/// One text followed by the other.
fn append_texts(alloc: Global, left: &str, right: &str) -> Px<Value>
    ensures { AnswersBy datum_of result (Ok (text (left.now ++ right.now))) }
{
    let mut all = String::from_str(alloc, left)?;
    all.push_str(right)?;
    Ok(Value::Text(Name::new(alloc, all.as_str())?))
}

/// The sum of two integers, or one text followed by the other; nothing where one is missing.
fn sum(
    alloc: Global,
    dtype: &DataType,
    left: Option<ValueRef<'_>>,
    right: Option<ValueRef<'_>>,
) -> Px<Option<Value>>
    requires left { slot_fits (kind_of dtype.now) (slot_of_ref left) ≡ true }
    requires right { slot_fits (kind_of dtype.now) (slot_of_ref right) ≡ true }
    ensures { AnswersBy slot_of result (Ok (plus_slot (kind_of dtype.now) (slot_of_ref left.entry) (slot_of_ref right.entry))) }
{
    match (left, right) {
        (Some(ValueRef::Text(s)), Some(ValueRef::Text(t))) => Ok(Some(append_texts(alloc, s, t)?)),
        _ => Ok(arithmetic(dtype, Operator::Plus, left, right)),
    }
}

/// Logic on two slots: on truths, or on integers bit by bit.
fn logic(
    dtype: &DataType,
    op: Operator,
    left: Option<ValueRef<'_>>,
    right: Option<ValueRef<'_>>,
) -> Option<Value>
    requires { is_bitwise op ≡ true }
    ensures { slot_of result ≡ operated (kind_of dtype.now) op (slot_of_ref left.entry) (slot_of_ref right.entry) }
{
    if !is_boolean(dtype) {
        return bit_by_bit(dtype, op, left, right);
    }
    match op {
        Operator::And => both(truth_of(left), truth_of(right)),
        Operator::Or => either(truth_of(left), truth_of(right)),
        _ => exactly_one(left, right),
    }
}

/// What an operator makes of two slots that fit a type (polars `apply_operator`, on single values). Integers
/// wrap in the type, a division by zero gives a null, and a null gives a null, but where the other
/// operand decides alone and in `EqValidity` and `NotEqValidity`. An operator that does not take
/// values of the type gives a null.
pub fn operate(
    alloc: Global,
    dtype: &DataType,
    op: Operator,
    left: Option<ValueRef<'_>>,
    right: Option<ValueRef<'_>>,
) -> Px<Option<Value>>
    requires left { slot_fits (kind_of dtype.now) (slot_of_ref left) ≡ true }
    requires right { slot_fits (kind_of dtype.now) (slot_of_ref right) ≡ true }
    ensures { AnswersBy slot_of result (Ok (operated (kind_of dtype.now) op (slot_of_ref left.entry) (slot_of_ref right.entry))) }
{
    match op {
        Operator::Plus => sum(alloc, dtype, left, right),
        Operator::Minus
        | Operator::Multiply
        | Operator::Divide
        | Operator::FloorDivide
        | Operator::Modulus => Ok(arithmetic(dtype, op, left, right)),
        Operator::And | Operator::Or | Operator::Xor => Ok(logic(dtype, op, left, right)),
        Operator::LogicalAnd => Ok(both(truth_of(left), truth_of(right))),
        Operator::LogicalOr => Ok(either(truth_of(left), truth_of(right))),
        _ => Ok(compare_slots(op, left, right)),
    }
}
