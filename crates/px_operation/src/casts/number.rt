//! Numbers as values of the integer types.
ghost use Rattle.px_value.specs.Answer.{AnswersBy};
ghost use Rattle.px_value.specs.KindView.{kind_of};
ghost use Rattle.px_value.specs.View.{slot_of};
ghost use Rattle.px_operation.specs.Cast.{lost, number_cast, written_cast};

use crate::operators::number_in;
use px_value::{CastOptions, DataType, InvalidWhy, Px, PxError, Value};

/// What becomes of a value that the new type does not have, of which this is left when it wraps.
fn loss(options: CastOptions, left: Option<Value>) -> Px<Option<Value>>
    ensures { AnswersBy slot_of result (lost options (slot_of left)) }
{
    match options {
        CastOptions::Strict => Err(PxError::InvalidOperation(InvalidWhy::CastLost)),
        CastOptions::NonStrict => Ok(None),
        CastOptions::Overflowing => Ok(left),
    }
}

/// A number as a value of an integer type.
pub(super) fn number_cast(to: &DataType, options: CastOptions, z: i128) -> Px<Option<Value>>
    ensures { AnswersBy slot_of result (number_cast (kind_of to.now) options z) }
{
    let value = Value::Int(z);
    if value.fits(to) {
        Ok(Some(value))
    } else {
        loss(options, number_in(to, z))
    }
}

/// The number that a text writes as a value of an integer type, where the text writes one.
pub(super) fn written_cast(
    to: &DataType,
    options: CastOptions,
    written: Option<i128>,
) -> Px<Option<Value>>
    ensures { AnswersBy slot_of result (written_cast (kind_of to.now) options written) }
{
    match written {
        None => loss(options, None),
        Some(z) => number_cast(to, options, z),
    }
}
