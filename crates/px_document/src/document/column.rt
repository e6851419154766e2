//! Reading columns.
ghost use Rattle.std.specs.Prelude.{◌≡◌, ◌<◌, ◌^◌, IfOk, length, map, option_and_then, option_map, true};
ghost use Rattle.serde_json.specs.View.{view};
ghost use Rattle.px_column.specs.Prelude.{kind_of, slot_fits, slot_of};
ghost use Rattle.px_document.specs.Document.{column_of, column_with, fitting_place, place_of, rows_under};
ghost use Rattle.px_document.specs.Form.{Reads, ReadsBy};
ghost use Rattle.px_column.specs.Option.{each};

use crate::document::fault::DocumentFault;
use crate::document::fields::{items, read_text, three_fields};
use crate::document::place::read_place;
use crate::document::type_name::read_type;
use px_column::{Column, ColumnBuilder, DataType, Name, Value as Datum};
use px_value::{lend, slot_fits};
use serde_json::Value;
use std::alloc::Global;

/// A place whose value fits the type.
fn read_fitting(
    alloc: Global,
    dtype: &DataType,
    value: &Value,
) -> Result<Option<Datum>, DocumentFault>
    ensures place { ReadsBy slot_of result (fitting_place (kind_of dtype.now) (view value.now)) }
    ensures fits { IfOk result (λ s. slot_fits (kind_of dtype.now) (slot_of s) ≡ true) }
{
    let slot = read_place(alloc, dtype, value)?;
    if !slot_fits(dtype, lend(&slot)) {
        return Err(DocumentFault::BadDocument);
    }
    Ok(slot)
}

/// The column of these places, each of which fits the type.
fn read_fitting_rows(
    alloc: Global,
    name: Name,
    dtype: &DataType,
    values: &[Value],
) -> Result<Column, DocumentFault>
    requires { length values.now < 2 ^ 32 }
    ensures { Reads result (option_map (rows_under name (kind_of dtype.now)) (each (fitting_place (kind_of dtype.now)) (map view values.now))) }
{
    let mut rows = ColumnBuilder::new(alloc, name, dtype.try_clone(alloc)?, values.len() as u32)?;
    for value in values {
        rows.push(read_fitting(alloc, dtype, value)?)?;
    }
    Ok(rows.finish()?)
}

/// The column of these places, where each fits the type and there are fewer than 2^32 of them.
#[tactic(auto, using(crate::proofs::Fitting::fitting_rows, crate::proofs::Fitting::too_many_rows))]
fn read_rows(
    alloc: Global,
    name: Name,
    dtype: &DataType,
    values: &[Value],
) -> Result<Column, DocumentFault>
    ensures { Reads result (option_and_then (column_with name (kind_of dtype.now)) (each (place_of (kind_of dtype.now)) (map view values.now))) }
{
    if values.len() >= 1 << 32 {
        return Err(DocumentFault::BadDocument);
    }
    read_fitting_rows(alloc, name, dtype, values)
}

/// A column: `{"name": text, "type": text, "values": [..]}`, each value a null or a value that fits
/// the type.
pub(crate) fn read_column(alloc: Global, value: &Value) -> Result<Column, DocumentFault>
    ensures { Reads result (column_of (view value.now)) }
{
    let fields = three_fields(value, "name", "type", "values");
    let (name, dtype, values) = fields.ok_or(DocumentFault::BadDocument)?;
    let name = read_text(alloc, name)?;
    let dtype = read_type(alloc, dtype)?;
    let values = items(values).ok_or(DocumentFault::BadDocument)?;
    read_rows(alloc, name, &dtype, values)
}

/// Each of these a column.
pub(crate) fn read_columns(alloc: Global, values: &[Value]) -> Result<Vec<Column>, DocumentFault>
    ensures { ReadsBy (λ v. v.items) result (each column_of (map view values.now)) }
{
    let mut columns = Vec::with_capacity(alloc, values.len())?;
    for value in values {
        columns.push(read_column(alloc, value)?)?;
    }
    Ok(columns)
}
