//! The text of a frame.
ghost use Rattle.std.specs.Prelude.{◌≡◌, ◌<◌, [], ◌∷◌, ◌++◌, All, OnOk, Ok, length};
ghost use Rattle.px_column.specs.Prelude.{Answers};
ghost use Rattle.px_frame.specs.Frame.{height_of};
ghost use Rattle.px_text.specs.Text.{names_line, row_line, rows_text, text_of, types_line};

use crate::data_type::push_type;
use crate::json::{push_comma, push_quoted};
use crate::value::push_row_value;
use px_column::{ByteString, Column, Px};
use px_frame::DataFrame;
use std::alloc::{AllocError, Global};

fn push_line_end(out: &mut Vec<u8>) -> Result<(), AllocError>
    ensures { OnOk result (out.new.items ≡ out.old.items ++ 93 ∷ 10 ∷ []) }
{
    out.extend_from_slice(b"]\n")
}

#[tactic(auto, using(crate::proofs::Separated::separated_joins))]
fn push_names(out: &mut Vec<u8>, columns: &[Column]) -> Result<(), AllocError>
    ensures { OnOk result (out.new.items ≡ out.old.items ++ names_line columns.now) }
{
    out.push(b'[')?;
    for (i, column) in columns.iter().enumerate() {
        push_comma(out, i)?;
        push_quoted(out, column.name().as_str())?;
    }
    push_line_end(out)
}

#[tactic(auto, using(crate::proofs::Separated::separated_joins))]
fn push_types(out: &mut Vec<u8>, columns: &[Column]) -> Result<(), AllocError>
    ensures { OnOk result (out.new.items ≡ out.old.items ++ types_line columns.now) }
{
    out.push(b'[')?;
    for (i, column) in columns.iter().enumerate() {
        push_comma(out, i)?;
        push_type(out, column.dtype())?;
    }
    push_line_end(out)
}

#[tactic(auto, using(crate::proofs::Separated::separated_joins))]
fn push_row(out: &mut Vec<u8>, columns: &[Column], row: u32) -> Result<(), AllocError>
    requires { All (λ s. row < length s.slots) columns.now }
    ensures { OnOk result (out.new.items ≡ out.old.items ++ row_line columns.now row) }
{
    out.push(b'[')?;
    for (i, column) in columns.iter().enumerate() {
        push_comma(out, i)?;
        push_row_value(out, column.get(row))?;
    }
    push_line_end(out)
}

fn push_rows(out: &mut Vec<u8>, columns: &[Column], height: u32) -> Result<(), AllocError>
    requires { All (λ s. length s.slots ≡ height) columns.now }
    ensures { OnOk result (out.new.items ≡ out.old.items ++ rows_text columns.now height) }
{
    for row in 0..height {
        push_row(out, columns, row)?;
    }
    Ok(())
}

/// The text of a frame of these columns, which have `height` rows each: a line of their names, a line
/// of their types and a line for each row, each a JSON array (RFC 8259) without spaces.
fn columns_text(alloc: Global, columns: &[Column], height: u32) -> Px<ByteString>
    requires { All (λ s. length s.slots ≡ height) columns.now }
    ensures { Answers result (Ok (text_of columns.now height)) }
{
    let mut out = Vec::new(alloc);
    push_names(&mut out, columns)?;
    push_types(&mut out, columns)?;
    push_rows(&mut out, columns, height)?;
    ByteString::from_vec(out)
}

/// The text of a frame: a line of its names, a line of its types and a line for each row, each a JSON
/// array (RFC 8259) without spaces.
pub fn frame_text(alloc: Global, frame: &DataFrame) -> Px<ByteString>
    ensures { Answers result (Ok (text_of frame.now (height_of frame.now))) }
{
    columns_text(alloc, frame.get_columns(), frame.height())
}
