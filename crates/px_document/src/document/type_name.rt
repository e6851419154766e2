//! Reading the names of types.
ghost use Rattle.std.specs.Prelude.{◌≡◌, option_map, option_and_then};
ghost use Rattle.serde_json.specs.Find.{as_str};
ghost use Rattle.serde_json.specs.View.{view};
ghost use Rattle.px_column.specs.Prelude.{kind_of};
ghost use Rattle.px_document.specs.Document.{in_list, kind_named, kind_within, simple_kind};
ghost use Rattle.px_document.specs.Form.{ReadsBy};

use crate::document::fault::DocumentFault;
use px_column::DataType;
use serde_json::Value;
use std::alloc::Global;
use std::rc::Rc;

/// At most this many `List(` stand around one another.
const DEPTH_LIMIT: u32 = 16;

fn simple_type(name: &[u8]) -> Option<DataType>
    ensures { option_map kind_of result ≡ simple_kind name.now }
{
    if name == b"Boolean".as_slice() {
        Some(DataType::Boolean)
    } else if name == b"Int8".as_slice() {
        Some(DataType::Int8)
    } else if name == b"Int16".as_slice() {
        Some(DataType::Int16)
    } else if name == b"Int32".as_slice() {
        Some(DataType::Int32)
    } else if name == b"Int64".as_slice() {
        Some(DataType::Int64)
    } else if name == b"UInt8".as_slice() {
        Some(DataType::UInt8)
    } else if name == b"UInt16".as_slice() {
        Some(DataType::UInt16)
    } else if name == b"UInt32".as_slice() {
        Some(DataType::UInt32)
    } else if name == b"UInt64".as_slice() {
        Some(DataType::UInt64)
    } else if name == b"String".as_slice() {
        Some(DataType::String)
    } else if name == b"Binary".as_slice() {
        Some(DataType::Binary)
    } else if name == b"Null".as_slice() {
        Some(DataType::Null)
    } else {
        None
    }
}

/// What stands between `List(` and `)`.
fn in_list(name: &[u8]) -> Option<&[u8]>
    ensures { option_map (λ t. t.now) result ≡ in_list name.now }
{
    let inside = name.strip_prefix(b"List(".as_slice())?;
    inside.strip_suffix(b")".as_slice())
}

#[tactic(auto, using(crate::proofs::Readings::kind_within_more))]
fn type_within(alloc: Global, depth: u32, name: &[u8]) -> Result<DataType, DocumentFault>
    ensures { ReadsBy kind_of result (kind_within depth name.now) }
{
    if let Some(dtype) = simple_type(name) {
        return Ok(dtype);
    }
    if depth == 0 {
        return Err(DocumentFault::BadDocument);
    }
    let inside = in_list(name).ok_or(DocumentFault::BadDocument)?;
    let items = type_within(alloc, depth - 1, inside)?;
    Ok(DataType::List(Rc::new(alloc, items)?))
}

/// The type of a name: `Boolean`, `Int8`, `Int16`, `Int32`, `Int64`, `UInt8`, `UInt16`, `UInt32`,
/// `UInt64`, `String`, `Binary`, `Null`, or `List(` type `)` with at most 16 lists around one another.
pub(crate) fn read_type_name(alloc: Global, name: &str) -> Result<DataType, DocumentFault>
    ensures { ReadsBy kind_of result (kind_named name.now) }
{
    type_within(alloc, DEPTH_LIMIT, name.as_bytes())
}

/// The type whose name a value is.
pub(crate) fn read_type(alloc: Global, value: &Value) -> Result<DataType, DocumentFault>
    ensures { ReadsBy kind_of result (option_and_then kind_named (as_str (view value.now))) }
{
    let name = value.as_str().ok_or(DocumentFault::BadDocument)?;
    read_type_name(alloc, name)
}
