//! Documents in the usual order, read along the tokens of their text with no JSON value made of a row:
//! columns before steps, and in a column its name, its type and its values. A call answers `None` where
//! the text goes on otherwise; what it says is then told by a JSON value of all of it.
ghost use Rattle.std.specs.Prelude.{◌≡◌, ℕ, List, IfSome, IsTrue, Ok, Some, length, map, option_and_then, true};
ghost use Rattle.json.specs.Json.{after_end_array};
ghost use Rattle.serde_json.specs.Read.{converted, read};
ghost use Rattle.serde_json.specs.View.{view};
ghost use Rattle.px_column.specs.Prelude.{kind_of};
ghost use Rattle.px_document.specs.Document.{column_of, doc_view, kind_named};
ghost use Rattle.px_document.specs.Form.{IfRead};
ghost use Rattle.px_document.specs.StepForm.{any_document_of, steps_of};
ghost use Rattle.px_document.specs.Tokens.{IsRowsOf, column_head, document_head, first_data, items_made, only_data};
ghost use Rattle.px_tree.specs.Step.{step_view};

use crate::document::fault::DocumentFault;
use crate::document::fields::items;
use crate::document::parsed::Parsed;
use crate::document::row::push_token;
use crate::document::step::read_steps;
use crate::document::tokens::{
    take_begin_array, take_begin_object, take_end_object, take_key, take_text,
};
use crate::document::type_name::read_type_name;
use json::{Reader, Scratch};
use px_column::{Column, ColumnBuilder, DataType, Name};
use px_tree::Step;
use serde_json::Value;
use std::alloc::Global;

/// The rows up to the end of an array, as a column of this name and type.
#[tactic(auto, using(crate::proofs::Tokens::follows_start, crate::proofs::Tokens::follows_next, crate::proofs::Tokens::follows_end))]
fn read_rows(
    alloc: Global,
    name: &str,
    dtype: &DataType,
    reader: &mut Reader<'_>,
) -> Result<Option<Column>, DocumentFault>
    ensures { IfRead result (λ c. IsRowsOf name.now (kind_of dtype.now) c reader.old reader.new) }
{
    let mut rows = ColumnBuilder::new(alloc, Name::new(alloc, name)?, dtype.try_clone(alloc)?, 0)?;
    for _row in 0..u32::MAX {
        if reader.take_end_array() {
            return Ok(Some(rows.finish()?));
        }
        let Some(token) = reader.next() else {
            return Ok(None);
        };
        let Some(()) = push_token(&mut rows, dtype, token)? else {
            return Ok(None);
        };
    }
    Ok(None)
}

/// What was read, or `None` where the text says no such thing.
fn unless_bad<X: Drop>(answer: Result<X, DocumentFault>) -> Result<Option<X>, DocumentFault>
    ensures { IfRead result (λ x. answer ≡ Ok x) }
{
    match answer {
        Ok(value) => Ok(Some(value)),
        Err(DocumentFault::BadDocument) => Ok(None),
        Err(DocumentFault::OutOfMemory) => Err(DocumentFault::OutOfMemory),
    }
}

/// Takes what stands before the values of a column, `{"name": text, "type": text, "values": [`: its name
/// and that of its type.
fn take_head<'t>(reader: &mut Reader<'t>) -> Option<(&'t str, &'t str)>
    ensures { IfSome result (λ h. reader.old ≡ column_head h.0.now h.1.now reader.new) }
{
    if !take_begin_object(reader) || !take_key(reader, "name") {
        return None;
    }
    let name = take_text(reader)?;
    if !take_key(reader, "type") {
        return None;
    }
    let type_name = take_text(reader)?;
    if !take_key(reader, "values") || !take_begin_array(reader) {
        return None;
    }
    Some((name, type_name))
}

/// A column: `{"name": text, "type": text, "values": [..]}`, in this order.
fn read_column(alloc: Global, reader: &mut Reader<'_>) -> Result<Option<Column>, DocumentFault>
    ensures { IfRead result (λ c. converted column_of (first_data 125 reader.old) ≡ Some (c, reader.new)) }
{
    let Some((name, type_name)) = take_head(reader) else {
        return Ok(None);
    };
    let Some(dtype) = unless_bad(read_type_name(alloc, type_name))? else {
        return Ok(None);
    };
    let Some(column) = read_rows(alloc, name, &dtype, reader)? else {
        return Ok(None);
    };
    if take_end_object(reader) {
        Ok(Some(column))
    } else {
        Ok(None)
    }
}

/// The columns up to the end of an array.
fn read_columns(
    alloc: Global,
    reader: &mut Reader<'_>,
) -> Result<Option<Vec<Column>>, DocumentFault>
    ensures { IfRead result (λ v. items_made column_of 125 (length reader.old) reader.old ≡ Some (v.items, reader.new)) }
{
    let mut columns = Vec::new(alloc);
    while !reader.take_end_array() {
        let Some(column) = read_column(alloc, reader)? else {
            return Ok(None);
        };
        columns.push(column)?;
    }
    Ok(Some(columns))
}

/// The JSON value that comes next, in `serde_json`'s form: it is written, and read again by itself.
#[tactic(auto, using(crate::proofs::Tokens::value_again))]
fn next_value(alloc: Global, reader: &mut Reader<'_>) -> Result<Option<Value>, DocumentFault>
    ensures { IfRead result (λ v. first_data 126 reader.old ≡ Some (view v, reader.new)) }
{
    let value = match json::Value::read(alloc, reader, 126) {
        Ok(value) => value,
        Err(json::Error::OutOfMemory) => return Err(DocumentFault::OutOfMemory),
        Err(_) => return Ok(None),
    };
    let text = json::to_vec(alloc, &value)?;
    match Value::from_slice(alloc, &text) {
        Ok(value) => Ok(Some(value)),
        Err(e) if e.is_memory() => Err(DocumentFault::OutOfMemory),
        Err(_) => Ok(None),
    }
}

/// The steps that come next, as an array.
fn next_steps(alloc: Global, reader: &mut Reader<'_>) -> Result<Option<Vec<Step>>, DocumentFault>
    ensures { IfRead result (λ v. converted steps_of (first_data 126 reader.old) ≡ Some (map step_view v.items, reader.new)) }
{
    let Some(value) = next_value(alloc, reader)? else {
        return Ok(None);
    };
    let Some(values) = items(&value) else {
        return Ok(None);
    };
    unless_bad(read_steps(alloc, values))
}

/// Takes as many tokens as stand before the columns of a document, and tells whether they are
/// `{"columns": [`.
fn take_document_head(reader: &mut Reader<'_>) -> bool
    ensures { IsTrue result → reader.old ≡ document_head reader.new }
{
    take_begin_object(reader) && take_key(reader, "columns") && take_begin_array(reader)
}

/// A document: `{"columns": [..], "steps": [..]}`, in this order, and nothing behind it.
fn read_parts(alloc: Global, reader: &mut Reader<'_>) -> Result<Option<Parsed>, DocumentFault>
    ensures { IfRead result (λ p. option_and_then any_document_of (only_data reader.old) ≡ Some (doc_view p)) }
{
    if !take_document_head(reader) {
        return Ok(None);
    }
    let Some(columns) = read_columns(alloc, reader)? else {
        return Ok(None);
    };
    if !take_key(reader, "steps") {
        return Ok(None);
    }
    let Some(steps) = next_steps(alloc, reader)? else {
        return Ok(None);
    };
    if take_end_object(reader) && reader.next().is_none() {
        Ok(Some(Parsed { columns, steps }))
    } else {
        Ok(None)
    }
}

/// The columns and steps that a text says in the usual order: its columns before its steps, and of a
/// column its name, its type and its values, which are nulls, truths, integers or texts.
pub(crate) fn read_in_order(alloc: Global, text: &str) -> Result<Option<Parsed>, DocumentFault>
    ensures { IfRead result (λ p. option_and_then any_document_of (read text.now) ≡ Some (doc_view p)) }
{
    let mut scratch = Scratch::new(alloc);
    let mut reader = Reader::new(text, &mut scratch)?;
    read_parts(alloc, &mut reader)
}
