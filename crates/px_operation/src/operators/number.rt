//! Arithmetic on two integers of one type, in which the result wraps.
ghost use Rattle.std.specs.Prelude.{◌≡◌, ◌≢◌, pos, true, int_div};
ghost use Rattle.px_value.specs.Datum.{integer};
ghost use Rattle.px_value.specs.Kind.{fits, slot_fits};
ghost use Rattle.px_value.specs.KindView.{kind_of};
ghost use Rattle.px_value.specs.LentView.{slot_of_ref};
ghost use Rattle.px_value.specs.View.{slot_of};
ghost use Rattle.px_operation.specs.Operate.{is_arithmetic, is_division, operated_numbers, IsWord};
ghost use Rattle.px_operation.specs.Operator.{floor_div, floor_rem, number_in, of_numbers};

use crate::wrapping::wrap;
use px_value::{DataType, Operator, Value, ValueRef};

/// The quotient toward minus infinity, with both signs turned for a negative divisor.
fn floor_quotient(x: i128, y: i128) -> i128
    requires left { IsWord x }
    requires right { IsWord y }
    requires nonzero { y ≢ pos 0 }
    ensures { result ≡ floor_div x y }
{
    if y > 0 {
        x.div_euclid(y)
    } else {
        (-x).div_euclid(-y)
    }
}

/// What the floored quotient leaves, with the divisor's sign.
fn floor_rest(x: i128, y: i128) -> i128
    requires left { IsWord x }
    requires right { IsWord y }
    requires nonzero { y ≢ pos 0 }
    ensures { result ≡ floor_rem x y }
{
    if y > 0 {
        x.rem_euclid(y)
    } else {
        -(-x).rem_euclid(-y)
    }
}

/// The quotient toward zero.
fn quotient(x: i128, y: i128) -> i128
    requires left { IsWord x }
    requires right { IsWord y }
    requires nonzero { y ≢ pos 0 }
    ensures { result ≡ int_div x y }
{
    x / y
}

/// A number as a value of an integer type, in which it wraps.
pub(crate) fn number_in(dtype: &DataType, z: i128) -> Option<Value>
    ensures { slot_of result ≡ number_in (kind_of dtype.now) z }
{
    Some(Value::Int(wrap(dtype, z)))
}

/// A quotient or what it leaves; nothing for a divisor of zero.
fn divide(dtype: &DataType, op: Operator, x: i128, y: i128) -> Option<Value>
    requires op { is_division op ≡ true }
    requires left { IsWord x }
    requires right { IsWord y }
    ensures { slot_of result ≡ operated_numbers (kind_of dtype.now) op x y }
{
    if y == 0 {
        return None;
    }
    match op {
        Operator::Divide => number_in(dtype, quotient(x, y)),
        Operator::FloorDivide => number_in(dtype, floor_quotient(x, y)),
        _ => number_in(dtype, floor_rest(x, y)),
    }
}

/// What arithmetic makes of two integers of a type. It is done in 128 bits; what is lost there of a
/// product is lost in the type as well.
fn calculate(dtype: &DataType, op: Operator, x: i128, y: i128) -> Option<Value>
    requires op { is_arithmetic op ≡ true }
    requires left { fits (kind_of dtype.now) (integer x) ≡ true }
    requires right { fits (kind_of dtype.now) (integer y) ≡ true }
    ensures { slot_of result ≡ operated_numbers (kind_of dtype.now) op x y }
{
    match op {
        Operator::Plus => number_in(dtype, x + y),
        Operator::Minus => number_in(dtype, x - y),
        Operator::Multiply => number_in(dtype, x.wrapping_mul(y)),
        _ => divide(dtype, op, x, y),
    }
}

/// What arithmetic makes of two slots of a type; nothing where one holds no integer.
pub(crate) fn arithmetic(
    dtype: &DataType,
    op: Operator,
    left: Option<ValueRef<'_>>,
    right: Option<ValueRef<'_>>,
) -> Option<Value>
    requires op { is_arithmetic op ≡ true }
    requires left { slot_fits (kind_of dtype.now) (slot_of_ref left) ≡ true }
    requires right { slot_fits (kind_of dtype.now) (slot_of_ref right) ≡ true }
    ensures { slot_of result ≡ of_numbers (operated_numbers (kind_of dtype.now) op) (slot_of_ref left.entry) (slot_of_ref right.entry) }
{
    match (left, right) {
        (Some(ValueRef::Int(x)), Some(ValueRef::Int(y))) => calculate(dtype, op, x, y),
        _ => None,
    }
}
