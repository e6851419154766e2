//! Casts of values that are no lists.
ghost use Rattle.std.specs.Prelude.{◌≡◌};
ghost use Rattle.px_value.specs.Answer.{AnswersBy};
ghost use Rattle.px_value.specs.KindView.{kind_of};
ghost use Rattle.px_value.specs.View.{slot_of};
ghost use Rattle.px_operation.specs.Cast.{boolean_cast, bytes_cast, integer_cast, text_cast, truth_text};

use super::number::{number_cast, written_cast};
use super::written::number_written;
use crate::types::is_integer;
use itoa::Buffer;
use px_value::{ByteString, CastOptions, DataType, InvalidWhy, Name, Px, PxError, Value};
use std::alloc::Global;

/// A truth as a text.
fn truth_text(holds: bool) -> &'static str
    ensures { result.now ≡ truth_text holds }
{
    if holds { "true" } else { "false" }
}

/// A truth in each type that it is cast to.
pub(super) fn boolean_cast(alloc: Global, to: &DataType, holds: bool) -> Px<Option<Value>>
    ensures { AnswersBy slot_of result (boolean_cast (kind_of to.now) holds) }
{
    match to {
        DataType::Boolean => Ok(Some(Value::Boolean(holds))),
        DataType::String => Ok(Some(Value::Text(Name::new(alloc, truth_text(holds))?))),
        to if is_integer(to) => Ok(Some(Value::Int(holds as i128))),
        _ => Err(PxError::InvalidOperation(InvalidWhy::Types)),
    }
}

/// A number in each type that it is cast to.
pub(super) fn integer_cast(
    alloc: Global,
    to: &DataType,
    options: CastOptions,
    z: i128,
) -> Px<Option<Value>>
    ensures { AnswersBy slot_of result (integer_cast (kind_of to.now) options z) }
{
    match to {
        DataType::Boolean => Ok(Some(Value::Boolean(z != 0))),
        DataType::String => Ok(Some(Value::Text(Name::new(alloc, Buffer::new().format(z))?))),
        to if is_integer(to) => number_cast(to, options, z),
        _ => Err(PxError::InvalidOperation(InvalidWhy::Types)),
    }
}

/// A text in each type that it is cast to.
pub(super) fn text_cast(
    alloc: Global,
    to: &DataType,
    options: CastOptions,
    text: &str,
) -> Px<Option<Value>>
    ensures { AnswersBy slot_of result (text_cast (kind_of to.now) options text.now) }
{
    match to {
        DataType::String => Ok(Some(Value::Text(Name::new(alloc, text)?))),
        DataType::Binary => Ok(Some(Value::Bytes(ByteString::from_slice(alloc, text.as_bytes())?))),
        to if is_integer(to) => written_cast(to, options, number_written(text.as_bytes())),
        _ => Err(PxError::InvalidOperation(InvalidWhy::Types)),
    }
}

/// Bytes, which are cast to bytes alone.
pub(super) fn bytes_cast(alloc: Global, to: &DataType, bytes: &[u8]) -> Px<Option<Value>>
    ensures { AnswersBy slot_of result (bytes_cast (kind_of to.now) bytes.now) }
{
    match to {
        DataType::Binary => Ok(Some(Value::Bytes(ByteString::from_slice(alloc, bytes)?))),
        _ => Err(PxError::InvalidOperation(InvalidWhy::Types)),
    }
}
