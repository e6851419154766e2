//! Reading the values of columns and lists.
ghost use Rattle.std.specs.Prelude.{◌≡◌, map, option_map, option_and_then};
ghost use Rattle.serde_json.specs.Find.{as_number, as_str, as_integer};
ghost use Rattle.serde_json.specs.View.{view};
ghost use Rattle.px_column.specs.Prelude.{kind_of, datum_of, slot_of, slots_of};
ghost use Rattle.px_document.specs.Document.{bytes_of_hex, short_list, place_of};
ghost use Rattle.px_document.specs.Form.{Reads, ReadsBy, items};
ghost use Rattle.px_column.specs.Option.{each};

use crate::document::fault::DocumentFault;
use crate::document::fields::{items, read_text};
use crate::document::hexadecimal::read_hexadecimal;
use px_column::{ByteString, DataType, Value as Datum, Values};
use serde_json::Value;
use std::alloc::Global;

fn read_integer(value: &Value) -> Result<i128, DocumentFault>
    ensures { Reads result (option_and_then as_integer (as_number (view value.now))) }
{
    match value {
        Value::Number(number) => number.as_i128().ok_or(DocumentFault::BadDocument),
        _ => Err(DocumentFault::BadDocument),
    }
}

fn read_bytes(alloc: Global, value: &Value) -> Result<ByteString, DocumentFault>
    ensures { Reads result (option_and_then bytes_of_hex (as_str (view value.now))) }
{
    let text = value.as_str().ok_or(DocumentFault::BadDocument)?;
    let bytes = read_hexadecimal(alloc, text.as_bytes())?;
    Ok(ByteString::from_vec(bytes)?)
}

fn short_list(places: Vec<Option<Datum>>) -> Result<Datum, DocumentFault>
    ensures { ReadsBy datum_of result (short_list (slots_of places.items)) }
{
    if places.len() >= 1 << 32 {
        return Err(DocumentFault::BadDocument);
    }
    Ok(Datum::List(Values::from_vec(places)))
}

/// A place of a type: a null, or a value of its kind. Whether an integer is in the type's range is
/// not told here.
#[cycle(place)]
#[tactic(auto, using(crate::proofs::Readings::place_of_null))]
pub(crate) fn read_place(
    alloc: Global,
    dtype: &DataType,
    value: &Value,
) -> Result<Option<Datum>, DocumentFault>
    ensures { ReadsBy slot_of result (place_of (kind_of dtype.now) (view value.now)) }
{
    if value.is_null() {
        return Ok(None);
    }
    match dtype {
        DataType::Boolean => {
            let truth = value.as_bool().ok_or(DocumentFault::BadDocument)?;
            Ok(Some(Datum::Boolean(truth)))
        }
        DataType::String => Ok(Some(Datum::Text(read_text(alloc, value)?))),
        DataType::Binary => Ok(Some(Datum::Bytes(read_bytes(alloc, value)?))),
        DataType::Null => Err(DocumentFault::BadDocument),
        DataType::List(of) => Ok(Some(read_list(alloc, of, value)?)),
        _ => Ok(Some(Datum::Int(read_integer(value)?))),
    }
}

#[cycle(place)]
fn read_list(alloc: Global, of: &DataType, value: &Value) -> Result<Datum, DocumentFault>
    ensures { ReadsBy datum_of result (option_and_then short_list (option_and_then (each (place_of (kind_of of.now))) (items (view value.now)))) }
{
    let values = items(value).ok_or(DocumentFault::BadDocument)?;
    short_list(read_places(alloc, of, values)?)
}

/// Each of these a place of the type.
#[cycle(place)]
fn read_places(
    alloc: Global,
    dtype: &DataType,
    values: &[Value],
) -> Result<Vec<Option<Datum>>, DocumentFault>
    ensures { ReadsBy (λ v. slots_of v.items) result (each (place_of (kind_of dtype.now)) (map view values.now)) }
{
    let mut places = Vec::with_capacity(alloc, values.len())?;
    for value in values {
        places.push(read_place(alloc, dtype, value)?)?;
    }
    Ok(places)
}
