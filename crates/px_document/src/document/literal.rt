//! Reading literals.
ghost use Rattle.std.specs.Prelude.{◌≡◌, [], ◌∷◌, None, Some, codes, false, option_and_then, option_map};
ghost use Rattle.serde_json.specs.Find.{as_str};
ghost use Rattle.serde_json.specs.View.{view};
ghost use Rattle.px_column.specs.Prelude.{boolean, bytes, integer, text, is_list_kind, kind_of, datum_of, slot_of};
ghost use Rattle.px_tree.specs.Tree.{literal, series};
ghost use Rattle.px_tree.specs.View.{literal_of, tree};
ghost use Rattle.px_document.specs.Document.{column_of};
ghost use Rattle.px_document.specs.ExprForm.{int64_of, literal_parts, range_parts, single_of};
ghost use Rattle.px_document.specs.Form.{Reads, ReadsBy, fields};

use crate::document::column::read_column;
use crate::document::fault::DocumentFault;
use crate::document::fields::{three_fields, two_fields};
use crate::document::place::read_place;
use crate::document::type_name::read_type;
use px_column::{ByteString, DataType, Name, Value as Datum};
use px_tree::{Expr, LiteralValue};
use serde_json::Value;
use std::alloc::Global;

/// An integer of a type, where it is in the type's range.
fn integer_of(dtype: &DataType, z: i128) -> Option<LiteralValue>
    ensures { option_map literal_of result ≡ single_of (kind_of dtype.now) (Some (integer z)) }
{
    match dtype {
        DataType::Int8 => Some(LiteralValue::Int8(i8::try_from(z).ok()?)),
        DataType::Int16 => Some(LiteralValue::Int16(i16::try_from(z).ok()?)),
        DataType::Int32 => Some(LiteralValue::Int32(i32::try_from(z).ok()?)),
        DataType::Int64 => Some(LiteralValue::Int64(i64::try_from(z).ok()?)),
        DataType::UInt8 => Some(LiteralValue::UInt8(u8::try_from(z).ok()?)),
        DataType::UInt16 => Some(LiteralValue::UInt16(u16::try_from(z).ok()?)),
        DataType::UInt32 => Some(LiteralValue::UInt32(u32::try_from(z).ok()?)),
        DataType::UInt64 => Some(LiteralValue::UInt64(u64::try_from(z).ok()?)),
        _ => None,
    }
}

fn boolean_of(dtype: &DataType, truth: bool) -> Option<LiteralValue>
    ensures { option_map literal_of result ≡ single_of (kind_of dtype.now) (Some (boolean truth)) }
{
    match dtype {
        DataType::Boolean => Some(LiteralValue::Boolean(truth)),
        _ => None,
    }
}

fn text_of(dtype: &DataType, value: Name) -> Option<LiteralValue>
    ensures { option_map literal_of result ≡ single_of (kind_of dtype.now) (Some (text value)) }
{
    match dtype {
        DataType::String => Some(LiteralValue::String(value)),
        _ => None,
    }
}

fn bytes_of(dtype: &DataType, value: ByteString) -> Option<LiteralValue>
    ensures { option_map literal_of result ≡ single_of (kind_of dtype.now) (Some (bytes value)) }
{
    match dtype {
        DataType::Binary => Some(LiteralValue::Binary(value)),
        _ => None,
    }
}

fn null_of(dtype: &DataType) -> Option<LiteralValue>
    ensures { option_map literal_of result ≡ single_of (kind_of dtype.now) None }
{
    match dtype {
        DataType::Null => Some(LiteralValue::Null),
        _ => None,
    }
}

/// A value of a type that is no list, where it fits the type.
fn value_of(dtype: &DataType, value: Datum) -> Option<LiteralValue>
    requires { is_list_kind (kind_of dtype.now) ≡ false }
    ensures { option_map literal_of result ≡ single_of (kind_of dtype.now) (Some (datum_of value)) }
{
    match value {
        Datum::Boolean(truth) => boolean_of(dtype, truth),
        Datum::Int(z) => integer_of(dtype, z),
        Datum::Text(text) => text_of(dtype, text),
        Datum::Bytes(bytes) => bytes_of(dtype, bytes),
        Datum::List(_) => None,
    }
}

/// The literal of a place of a type that is no list: a value that fits it, or the null of type Null.
fn single_of(dtype: &DataType, place: Option<Datum>) -> Option<LiteralValue>
    requires { is_list_kind (kind_of dtype.now) ≡ false }
    ensures { option_map literal_of result ≡ single_of (kind_of dtype.now) (slot_of place) }
{
    match place {
        Some(value) => value_of(dtype, value),
        None => null_of(dtype),
    }
}

/// A single literal: `{"type": text, "value": value}`, a value that fits the type, which is no list; a
/// null is of type Null alone.
fn read_single(alloc: Global, value: &Value) -> Result<LiteralValue, DocumentFault>
    ensures { ReadsBy literal_of result (option_and_then literal_parts (fields (codes "type" ∷ codes "value" ∷ []) (view value.now))) }
{
    let parts = two_fields(value, "type", "value");
    let (dtype, value) = parts.ok_or(DocumentFault::BadDocument)?;
    let dtype = read_type(alloc, dtype)?;
    if dtype.is_list() {
        return Err(DocumentFault::BadDocument);
    }
    let place = read_place(alloc, &dtype, value)?;
    single_of(&dtype, place).ok_or(DocumentFault::BadDocument)
}

/// An integer of 64 bits.
pub(crate) fn read_int64(value: &Value) -> Result<i64, DocumentFault>
    ensures { Reads result (int64_of (view value.now)) }
{
    value.as_i64().ok_or(DocumentFault::BadDocument)
}

/// A range of integers: `{"low": integer, "high": integer, "type": text}`, the bounds of 64 bits.
fn read_range(alloc: Global, value: &Value) -> Result<LiteralValue, DocumentFault>
    ensures { ReadsBy literal_of result (option_and_then range_parts (fields (codes "low" ∷ codes "high" ∷ codes "type" ∷ []) (view value.now))) }
{
    let parts = three_fields(value, "low", "high", "type");
    let (low, high, dtype) = parts.ok_or(DocumentFault::BadDocument)?;
    let low = read_int64(low)?;
    let high = read_int64(high)?;
    let dtype = read_type(alloc, dtype)?;
    Ok(LiteralValue::Range { low, high, dtype })
}

/// A literal of one value.
pub(crate) fn read_literal(alloc: Global, value: &Value) -> Result<Expr, DocumentFault>
    ensures { ReadsBy tree result (option_map literal (option_and_then literal_parts (fields (codes "type" ∷ codes "value" ∷ []) (view value.now)))) }
{
    Ok(Expr::Literal(read_single(alloc, value)?))
}

/// A literal of the integers of a range.
pub(crate) fn read_integers(alloc: Global, value: &Value) -> Result<Expr, DocumentFault>
    ensures { ReadsBy tree result (option_map literal (option_and_then range_parts (fields (codes "low" ∷ codes "high" ∷ codes "type" ∷ []) (view value.now)))) }
{
    Ok(Expr::Literal(read_range(alloc, value)?))
}

/// A literal of a column.
pub(crate) fn read_series(alloc: Global, value: &Value) -> Result<Expr, DocumentFault>
    ensures { ReadsBy tree result (option_map (λ s. literal (series s)) (column_of (view value.now))) }
{
    let column = read_column(alloc, value)?;
    Ok(Expr::Literal(LiteralValue::Series(column)))
}
