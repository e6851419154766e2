//! Rows of a column that are pushed as tokens say them.
ghost use Rattle.std.specs.Prelude.{◌≡◌, ◌+◌, ◌<◌, ◌^◌, length};
ghost use Rattle.json.specs.Reads.{token_of};
ghost use Rattle.px_column.specs.Prelude.{kind_of, slot_of_ref};
ghost use Rattle.px_document.specs.Form.{IfRead};
ghost use Rattle.px_document.specs.Tokens.{IsPushed, IsTokenPushed};

use crate::document::fault::DocumentFault;
use crate::document::tokens::{integer_at, token_place};
use json::Token;
use px_column::{ColumnBuilder, DataType, ValueRef};
use px_value::slot_fits;

/// One row more, if it fits the type of the rows.
#[inline(always)]
fn push_fitting(
    rows: &mut ColumnBuilder,
    dtype: &DataType,
    slot: Option<ValueRef<'_>>,
) -> Result<Option<()>, DocumentFault>
    requires kind { rows.old.kind ≡ kind_of dtype.now }
    requires room { length rows.old.slots + 1 < 2 ^ 32 }
    ensures { IfRead result (λ _. IsPushed (slot_of_ref slot.entry) rows.old rows.new) }
{
    if !slot_fits(dtype, slot) {
        return Ok(None);
    }
    rows.push_ref(slot)?;
    Ok(Some(()))
}

/// One row more: what any token says, if it fits the type of the rows.
fn push_place(
    rows: &mut ColumnBuilder,
    dtype: &DataType,
    token: Token<'_>,
) -> Result<Option<()>, DocumentFault>
    requires kind { rows.old.kind ≡ kind_of dtype.now }
    requires room { length rows.old.slots + 1 < 2 ^ 32 }
    ensures { IfRead result (λ _. IsTokenPushed (token_of token.entry) rows.old rows.new) }
{
    match token_place(token) {
        Some(slot) => push_fitting(rows, dtype, slot),
        None => Ok(None),
    }
}

/// One row more: what a token says, if it fits the type of the rows. An integer takes no further call.
#[inline(always)]
pub(crate) fn push_token(
    rows: &mut ColumnBuilder,
    dtype: &DataType,
    token: Token<'_>,
) -> Result<Option<()>, DocumentFault>
    requires kind { rows.old.kind ≡ kind_of dtype.now }
    requires room { length rows.old.slots + 1 < 2 ^ 32 }
    ensures { IfRead result (λ _. IsTokenPushed (token_of token.entry) rows.old rows.new) }
{
    match token {
        Token::Number(text) => match integer_at(text) {
            Some(number) => push_fitting(rows, dtype, Some(ValueRef::Int(number))),
            None => Ok(None),
        },
        _ => push_place(rows, dtype, token),
    }
}
