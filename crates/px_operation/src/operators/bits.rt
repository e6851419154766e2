//! Two integers of one type bit by bit.
ghost use Rattle.std.specs.Prelude.{◌≡◌, false, true};
ghost use Rattle.px_value.specs.KindView.{kind_of};
ghost use Rattle.px_value.specs.LentView.{slot_of_ref};
ghost use Rattle.px_value.specs.View.{slot_of};
ghost use Rattle.px_operation.specs.Operate.{is_bitwise, operated_numbers};
ghost use Rattle.px_operation.specs.Operator.{is_boolean_kind, of_numbers};

use super::number::number_in;
use px_value::{DataType, Operator, Value, ValueRef};

/// The bits of both, of one of the two, or of exactly one.
fn combine_bits(dtype: &DataType, op: Operator, x: i128, y: i128) -> Option<Value>
    requires op { is_bitwise op ≡ true }
    requires kind { is_boolean_kind (kind_of dtype.now) ≡ false }
    ensures { slot_of result ≡ operated_numbers (kind_of dtype.now) op x y }
{
    match op {
        Operator::And => number_in(dtype, x & y),
        Operator::Or => number_in(dtype, x | y),
        _ => number_in(dtype, x ^ y),
    }
}

/// The bits of two slots; nothing where one holds no integer.
pub(crate) fn bit_by_bit(
    dtype: &DataType,
    op: Operator,
    left: Option<ValueRef<'_>>,
    right: Option<ValueRef<'_>>,
) -> Option<Value>
    requires op { is_bitwise op ≡ true }
    requires kind { is_boolean_kind (kind_of dtype.now) ≡ false }
    ensures { slot_of result ≡ of_numbers (operated_numbers (kind_of dtype.now) op) (slot_of_ref left.entry) (slot_of_ref right.entry) }
{
    match (left, right) {
        (Some(ValueRef::Int(x)), Some(ValueRef::Int(y))) => combine_bits(dtype, op, x, y),
        _ => None,
    }
}
