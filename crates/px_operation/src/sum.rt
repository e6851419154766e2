//! Sums of values, which wrap in the result's type.
ghost use Rattle.std.specs.Prelude.{◌≡◌, true};
ghost use Rattle.px_value.specs.Datum.{integer};
ghost use Rattle.px_value.specs.Kind.{fits};
ghost use Rattle.px_value.specs.KindView.{kind_of};
ghost use Rattle.px_value.specs.LentView.{slot_of_ref};
ghost use Rattle.px_value.specs.View.{datum_of};
ghost use Rattle.px_operation.specs.Sum.{addend, is_sum_kind};
ghost use Rattle.px_operation.specs.Wrap.{wrapped_in};

use crate::wrapping::wrap;
use px_value::{DataType, Value, ValueRef};

/// What is left of a whole sum in the bits of a sum's type.
pub fn wrap_sum(dtype: &DataType, sum: i128) -> Value
    requires { is_sum_kind (kind_of dtype.now) ≡ true }
    ensures value { datum_of result ≡ integer (wrapped_in (kind_of dtype.now) sum) }
    ensures fits { fits (kind_of dtype.now) (datum_of result) ≡ true }
{
    Value::Int(wrap(dtype, sum))
}

/// What a value adds to a sum: its number, 1 for true, else 0.
pub fn number(value: Option<ValueRef<'_>>) -> i128
    ensures { result ≡ addend (slot_of_ref value.entry) }
{
    match value {
        Some(ValueRef::Int(z)) => z,
        Some(ValueRef::Boolean(true)) => 1,
        _ => 0,
    }
}
