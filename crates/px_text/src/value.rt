//! The text of values.
ghost use Rattle.std.specs.Prelude.{◌≡◌, ◌<◌, ◌++◌, OnOk};
ghost use Rattle.std.specs.Fmt.{decimal, signed_decimal};
ghost use Rattle.px_column.specs.Prelude.{slots, datum_of_ref, slot_of_ref};
ghost use Rattle.px_text.specs.Text.{array, datum_text, item_texts, slot_text};

use crate::json::{push_comma, push_hexadecimal, push_quoted};
use itoa::Buffer;
use px_column::{ValueRef, Values};
use std::alloc::AllocError;

#[inline(always)]
#[tactic(auto, using(std::proofs::lemmas::Fmt::decimal_digit))]
fn push_digit(out: &mut Vec<u8>, digit: u8) -> Result<(), AllocError>
    requires { digit < 10 }
    ensures { OnOk result (out.new.items ≡ out.old.items ++ decimal digit) }
{
    out.push(b'0' + digit)?;
    Ok(())
}

#[inline(always)]
fn push_digits(out: &mut Vec<u8>, value: i128) -> Result<(), AllocError>
    ensures { OnOk result (out.new.items ≡ out.old.items ++ signed_decimal value) }
{
    let mut buffer = Buffer::new();
    match i64::try_from(value) {
        Ok(value) => out.extend_from_slice(buffer.format(value).as_bytes()),
        Err(_) => out.extend_from_slice(buffer.format(value).as_bytes()),
    }
}

/// Appends an integer in decimal digits.
#[inline(always)]
fn push_integer(out: &mut Vec<u8>, value: i128) -> Result<(), AllocError>
    ensures { OnOk result (out.new.items ≡ out.old.items ++ signed_decimal value) }
{
    match u8::try_from(value) {
        Ok(digit) if digit < 10 => push_digit(out, digit),
        _ => push_digits(out, value),
    }
}

#[cycle(push)]
fn push_value(out: &mut Vec<u8>, value: ValueRef<'_>) -> Result<(), AllocError>
    ensures { OnOk result (out.new.items ≡ out.old.items ++ datum_text (datum_of_ref value.entry)) }
{
    match value {
        ValueRef::Boolean(true) => out.extend_from_slice(b"true"),
        ValueRef::Boolean(false) => out.extend_from_slice(b"false"),
        ValueRef::Int(z) => push_integer(out, z),
        ValueRef::Text(s) => push_quoted(out, s),
        ValueRef::Bytes(s) => push_hexadecimal(out, s),
        ValueRef::List(all) => push_values(out, all),
    }
}

#[cycle(push)]
#[tactic(auto, using(crate::proofs::Separated::separated_joins, crate::proofs::Separated::slot_weight_at))]
fn push_values(out: &mut Vec<u8>, values: &Values) -> Result<(), AllocError>
    ensures { OnOk result (out.new.items ≡ out.old.items ++ array (item_texts (slots values.now))) }
{
    out.push(b'[')?;
    for i in 0..values.len() {
        push_comma(out, i as usize)?;
        push_slot(out, values.get(i))?;
    }
    out.push(b']')?;
    Ok(())
}

/// Appends what a place holds, as one JSON value.
#[cycle(push)]
pub(crate) fn push_slot(out: &mut Vec<u8>, slot: Option<ValueRef<'_>>) -> Result<(), AllocError>
    ensures { OnOk result (out.new.items ≡ out.old.items ++ slot_text (slot_of_ref slot.entry)) }
{
    match slot {
        None => out.extend_from_slice(b"null"),
        Some(value) => push_value(out, value),
    }
}

/// Appends what a row of a column holds, as one JSON value; an integer takes no further call.
#[inline(always)]
pub(crate) fn push_row_value(
    out: &mut Vec<u8>,
    slot: Option<ValueRef<'_>>,
) -> Result<(), AllocError>
    ensures { OnOk result (out.new.items ≡ out.old.items ++ slot_text (slot_of_ref slot.entry)) }
{
    match slot {
        Some(ValueRef::Int(z)) => push_integer(out, z),
        _ => push_slot(out, slot),
    }
}
