//! Generated columns of small values, each told by its place among some values of its type.

use px_column::{Column, Px};
use px_trial_texts::column;
use rand_core::Rng;
use rand_pcg::Pcg32;
use std::alloc::Global;

pub(crate) const TYPES: [&str; 13] = [
    "Boolean",
    "Int8",
    "Int16",
    "Int32",
    "Int64",
    "UInt8",
    "UInt16",
    "UInt32",
    "UInt64",
    "String",
    "Binary",
    "Null",
    "List(Int64)",
];

/// Some values of a type in their order, as a document says them. Those of Binary are the bytes of those
/// of String.
pub(crate) fn values_of(dtype: &str) -> &'static [&'static str] {
    match dtype {
        "Boolean" => &["false", "true"],
        "Int8" | "Int16" | "Int32" | "Int64" => &["-128", "-1", "0", "127"],
        "UInt8" | "UInt16" | "UInt32" | "UInt64" => &["0", "1", "9", "255"],
        "String" => &["\"\"", "\"-1\"", "\"300\"", "\"b\""],
        "Binary" => &["\"\"", "\"2d31\"", "\"333030\"", "\"62\""],
        "Null" => &[],
        _ => &["[]", "[null]", "[1,null,300]"],
    }
}

/// The value at a place of a table, a null where there is none.
pub(crate) fn text_at(table: &[&'static str], place: Option<u32>) -> &'static str {
    let Some(place) = place else {
        return "null";
    };
    match table.get(place as usize) {
        Some(text) => text,
        None => "null",
    }
}

/// The number that a value is or writes: one for true, zero for false.
pub(crate) fn number_at(dtype: &str, place: Option<u32>) -> Option<i128> {
    let numbers: [Option<i128>; 4] = match dtype {
        "Boolean" => [Some(0), Some(1), None, None],
        "Int8" | "Int16" | "Int32" | "Int64" => [Some(-128), Some(-1), Some(0), Some(127)],
        "UInt8" | "UInt16" | "UInt32" | "UInt64" => [Some(0), Some(1), Some(9), Some(255)],
        "String" => [None, Some(-1), Some(300), None],
        _ => [None, None, None, None],
    };
    numbers.get(place? as usize).copied().flatten()
}

/// The places of values among those of their type, `None` for a null.
pub(crate) type Places = Vec<Option<u32>>;

pub(crate) fn random_places(alloc: Global, rng: &mut Pcg32, len: u32, count: usize) -> Px<Places> {
    let mut rows = Vec::new(alloc);
    for _ in 0..len {
        let place = rng.next_u32() % 5;
        rows.push(if (place as usize) < count {
            Some(place)
        } else {
            None
        })?;
    }
    Ok(rows)
}

/// One more value behind those of a list.
pub(crate) fn push_cell(cells: &mut String, cell: &str) -> Px<()> {
    cells.push_str(if cells.is_empty() { "[" } else { "," })?;
    cells.push_str(cell)?;
    Ok(())
}

/// The list is at its end.
pub(crate) fn close(cells: &mut String) -> Px<()> {
    cells.push_str(if cells.is_empty() { "[]" } else { "]" })?;
    Ok(())
}

/// The column of a type with the values at these places.
pub(crate) fn column_at(alloc: Global, dtype: &str, places: &[Option<u32>]) -> Px<Column> {
    let values = values_of(dtype);
    let mut cells = String::new(alloc);
    for place in places {
        push_cell(&mut cells, text_at(values, *place))?;
    }
    close(&mut cells)?;
    column(alloc, dtype, &cells)
}
