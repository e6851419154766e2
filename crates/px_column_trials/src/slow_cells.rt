//! Slow programs that make new values: operators, casts and reductions, in plain loops over whole numbers
//! and texts.

use crate::generated::{close, number_at, push_cell, text_at, values_of};
use crate::slow_rows::{distinct, present};
use px_column::{CastOptions, GroupByMethod, InvalidWhy, Name, Operator, Px, PxError};
use std::alloc::Global;

/// The least number of an integer type, and how many numbers it has.
fn numbers_of(dtype: &str) -> (i128, i128) {
    match dtype {
        "Int8" => (-(1 << 7), 1 << 8),
        "Int16" => (-(1 << 15), 1 << 16),
        "Int32" => (-(1 << 31), 1 << 32),
        "Int64" => (-(1 << 63), 1 << 64),
        "UInt8" => (0, 1 << 8),
        "UInt16" => (0, 1 << 16),
        "UInt32" => (0, 1 << 32),
        _ => (0, 1 << 64),
    }
}

/// What a floored division leaves.
fn modulus(x: i128, y: i128) -> Option<i128> {
    let rest = x.checked_rem(y)?;
    if rest != 0 && (rest < 0) != (y < 0) {
        rest.checked_add(y)
    } else {
        Some(rest)
    }
}

/// A number in an integer type, wrapped where the type does not have it.
fn wrap(dtype: &str, number: i128) -> Option<i128> {
    let (least, count) = numbers_of(dtype);
    modulus(number.checked_sub(least)?, count)?.checked_add(least)
}

fn push_number(alloc: Global, cells: &mut String, number: Option<i128>) -> Px<()> {
    match number {
        Some(number) => push_cell(cells, &format!(in alloc; "{number}")?),
        None => push_cell(cells, "null"),
    }
}

fn calculate(op: Operator, x: i128, y: i128) -> Option<i128> {
    match op {
        Operator::Plus => x.checked_add(y),
        Operator::Minus => x.checked_sub(y),
        Operator::Multiply => x.checked_mul(y),
        Operator::Divide => x.checked_div(y),
        Operator::FloorDivide => x.checked_sub(modulus(x, y)?)?.checked_div(y),
        Operator::Modulus => modulus(x, y),
        Operator::And => Some(x & y),
        Operator::Or => Some(x | y),
        Operator::Xor => Some(x ^ y),
        _ => None,
    }
}

fn result_of(op: Operator, dtype: &str, left: Option<u32>, right: Option<u32>) -> Option<i128> {
    let number = calculate(op, number_at(dtype, left)?, number_at(dtype, right)?)?;
    wrap(dtype, number)
}

/// The letters of a text.
fn letters(place: Option<u32>) -> Option<&'static str> {
    match place? {
        0 => Some(""),
        1 => Some("-1"),
        2 => Some("300"),
        _ => Some("b"),
    }
}

/// Numbers, or the letters of two texts one after another.
pub(crate) fn push_result(
    alloc: Global,
    cells: &mut String,
    op: Operator,
    dtype: &str,
    left: Option<u32>,
    right: Option<u32>,
) -> Px<()> {
    if dtype != "String" {
        return push_number(alloc, cells, result_of(op, dtype, left, right));
    }
    match (letters(left), letters(right)) {
        (Some(left), Some(right)) => { push_cell(cells, &format!(in alloc; "\"{left}{right}\"")?) }
        _ => push_cell(cells, "null"),
    }
}

fn push_lost(cells: &mut String, options: CastOptions, left: &str) -> Px<()> {
    match options {
        CastOptions::Strict => Err(PxError::InvalidOperation(InvalidWhy::CastLost)),
        CastOptions::NonStrict => push_cell(cells, "null"),
        CastOptions::Overflowing => push_cell(cells, left),
    }
}

fn push_number_cast(
    alloc: Global,
    cells: &mut String,
    to: &str,
    options: CastOptions,
    number: Option<i128>,
) -> Px<()> {
    let Some(number) = number else {
        return push_lost(cells, options, "null");
    };
    let left = wrap(to, number).unwrap_or(number);
    let text = format!(in alloc; "{left}")?;
    if left == number {
        push_cell(cells, &text)
    } else {
        push_lost(cells, options, &text)
    }
}

/// A value as text: quotes stand around what is no text already.
fn push_text(alloc: Global, cells: &mut String, from: &str, place: Option<u32>) -> Px<()> {
    let value = text_at(values_of(from), place);
    if from == "String" {
        push_cell(cells, value)
    } else {
        push_cell(cells, &format!(in alloc; "\"{value}\"")?)
    }
}

/// The last of the three lists has a number that UInt8 has not.
fn push_list_cast(cells: &mut String, options: CastOptions, place: Option<u32>) -> Px<()> {
    if place == Some(2) {
        return match options {
            CastOptions::NonStrict => push_cell(cells, "[1,null,null]"),
            _ => push_lost(cells, options, "[1,null,44]"),
        };
    }
    push_cell(cells, text_at(values_of("List(Int64)"), place))
}

/// A value in another type, or the refusal of a strict cast that would lose it.
pub(crate) fn push_cast(
    alloc: Global,
    cells: &mut String,
    from: &str,
    to: &str,
    options: CastOptions,
    place: Option<u32>,
) -> Px<()> {
    if place.is_none() {
        return push_cell(cells, "null");
    }
    match to {
        "Boolean" => push_cell(
            cells,
            if number_at(from, place) == Some(0) {
                "false"
            } else {
                "true"
            },
        ),
        "String" => push_text(alloc, cells, from, place),
        "Binary" => push_cell(cells, text_at(values_of("Binary"), place)),
        "List(UInt8)" => push_list_cast(cells, options, place),
        _ => push_number_cast(alloc, cells, to, options, number_at(from, place)),
    }
}

/// The type of sums.
fn sum_type(dtype: &str) -> &str {
    match dtype {
        "Int8" | "Int16" | "UInt8" | "UInt16" => "Int64",
        "Boolean" => "UInt32",
        _ => dtype,
    }
}

/// The type of a reduction.
pub(crate) fn reduced_type(alloc: Global, dtype: &str, method: GroupByMethod) -> Px<Name> {
    match method {
        GroupByMethod::Sum => Name::new(alloc, sum_type(dtype)),
        GroupByMethod::NUnique | GroupByMethod::Count { .. } => Name::new(alloc, "UInt32"),
        GroupByMethod::Implode => {
            let list = format!(in alloc; "List({dtype})")?;
            Name::new(alloc, &list)
        }
        _ => Name::new(alloc, dtype),
    }
}

fn total(dtype: &str, rows: &[Option<u32>]) -> Option<i128> {
    let mut total: i128 = 0;
    for row in rows {
        if row.is_some() {
            total = total.checked_add(number_at(dtype, *row)?)?;
        }
    }
    wrap(sum_type(dtype), total)
}

fn list_of(alloc: Global, dtype: &str, rows: &[Option<u32>]) -> Px<String> {
    let mut list = String::new(alloc);
    for row in rows {
        push_cell(&mut list, text_at(values_of(dtype), *row))?;
    }
    close(&mut list)?;
    Ok(list)
}

/// One value of some rows.
pub(crate) fn push_reduction(
    alloc: Global,
    cells: &mut String,
    dtype: &str,
    method: GroupByMethod,
    rows: &[Option<u32>],
) -> Px<()> {
    let values = present(alloc, rows)?;
    let place = match method {
        GroupByMethod::Sum => return push_number(alloc, cells, total(dtype, rows)),
        GroupByMethod::Implode => return push_cell(cells, &list_of(alloc, dtype, rows)?),
        GroupByMethod::NUnique => return push_count(alloc, cells, distinct(alloc, rows)?.len()),
        GroupByMethod::Count {
            include_nulls: true,
        } => return push_count(alloc, cells, rows.len()),
        GroupByMethod::Count { .. } => return push_count(alloc, cells, values.len()),
        GroupByMethod::Min => values.iter().min().copied().flatten(),
        GroupByMethod::Max => values.iter().max().copied().flatten(),
        GroupByMethod::First => rows.first().copied().flatten(),
        GroupByMethod::Last => rows.last().copied().flatten(),
    };
    push_cell(cells, text_at(values_of(dtype), place))
}

fn push_count(alloc: Global, cells: &mut String, count: usize) -> Px<()> {
    push_number(alloc, cells, Some(count as i128))
}

/// What a list holds; an empty one and a null give a null.
pub(crate) fn push_exploded(cells: &mut String, place: Option<u32>) -> Px<()> {
    push_cell(
        cells,
        if place == Some(2) {
            "1,null,300"
        } else {
            "null"
        },
    )
}
