//! What casts make of single values (polars `cast` with its `CastOptions`).
ghost use Rattle.std.specs.Prelude.{◌≡◌};
ghost use Rattle.px_value.specs.Answer.{AnswersBy};
ghost use Rattle.px_value.specs.Datum.{slots};
ghost use Rattle.px_value.specs.Kind.{Kind};
ghost use Rattle.px_value.specs.KindView.{kind_of};
ghost use Rattle.px_value.specs.LentView.{datum_of_ref, slot_of_ref};
ghost use Rattle.px_value.specs.View.{slot_of};
ghost use Rattle.px_operation.specs.Cast.{cast_slot, datum_cast, items_cast};

mod number;
mod single;
mod written;

use px_value::{CastOptions, DataType, InvalidWhy, Px, PxError, Value, ValueRef, Values};
use single::{boolean_cast, bytes_cast, integer_cast, text_cast};
use std::alloc::Global;

/// A value in another type.
#[cycle(cast)]
fn datum_cast(
    alloc: Global,
    to: &DataType,
    options: CastOptions,
    value: ValueRef<'_>,
) -> Px<Option<Value>>
    ensures { AnswersBy slot_of result (datum_cast (kind_of to.now) options (datum_of_ref value.entry)) }
{
    match value {
        ValueRef::Boolean(b) => boolean_cast(alloc, to, b),
        ValueRef::Int(z) => integer_cast(alloc, to, options, z),
        ValueRef::Text(s) => text_cast(alloc, to, options, s),
        ValueRef::Bytes(s) => bytes_cast(alloc, to, s),
        ValueRef::List(all) => match to {
            DataType::List(of) => Ok(Some(Value::List(items_cast(alloc, of, options, all)?))),
            _ => Err(PxError::InvalidOperation(InvalidWhy::Types)),
        },
    }
}

/// The elements of a list in another type, one by one, or the first refusal.
#[cycle(cast)]
fn items_cast(alloc: Global, to: &DataType, options: CastOptions, values: &Values) -> Px<Values>
    ensures { AnswersBy slots result (items_cast (kind_of to.now) options (slots values.now)) }
{
    let mut items = Vec::with_capacity(alloc, values.len() as usize)?;
    let mut i = 0;
    while i < values.len() {
        items.push(cast_value(alloc, to, options, values.get(i))?)?;
        i += 1;
    }
    Ok(Values::from_vec(items))
}

/// A value that may be missing in another type (polars `cast_with_options`, on single values). A null
/// stays a null, and a list is cast element by element. A value that the type does not have is refused
/// with `CastLost` under `Strict`, becomes a null under `NonStrict`, and wraps under `Overflowing`,
/// where a text that is no number becomes a null. `Types` where a value is not cast to the type.
#[cycle(cast)]
pub fn cast_value(
    alloc: Global,
    to: &DataType,
    options: CastOptions,
    slot: Option<ValueRef<'_>>,
) -> Px<Option<Value>>
    ensures { (from : Kind) → AnswersBy slot_of result (cast_slot from (kind_of to.now) options (slot_of_ref slot.entry)) }
{
    match slot {
        None => Ok(None),
        Some(value) => datum_cast(alloc, to, options, value),
    }
}
