//! Reading what is made row by row: names, operators, choices and casts.
ghost use Rattle.std.specs.Prelude.{[], ◌∷◌, option_and_then};
ghost use Rattle.serde_json.specs.View.{view};
ghost use Rattle.px_tree.specs.View.{tree};
ghost use Rattle.px_document.specs.ExprForm.{alias_parts, binary_parts, cast_parts, expr_within, ternary_parts};
ghost use Rattle.px_document.specs.Form.{ReadsBy, items};

use crate::document::expr::read_input;
use crate::document::fault::DocumentFault;
use crate::document::fields::{items, read_text};
use crate::document::names::{read_cast_options, read_operator};
use crate::document::type_name::read_type;
use px_tree::Expr;
use serde_json::Value;
use std::alloc::Global;

/// An expression and another name: `[e, text]`.
#[cycle(expr)]
pub(crate) fn read_alias(alloc: Global, levels: u32, value: &Value) -> Result<Expr, DocumentFault>
    ensures { ReadsBy tree result (option_and_then (alias_parts (expr_within levels)) (items (view value.now))) }
{
    let Some([input, name]) = items(value) else {
        return Err(DocumentFault::BadDocument);
    };
    let input = read_input(alloc, levels, input)?;
    let name = read_text(alloc, name)?;
    Ok(Expr::Alias(input, name))
}

/// An operator and what stands at its left and its right: `[text, e, e]`.
#[cycle(expr)]
pub(crate) fn read_binary(alloc: Global, levels: u32, value: &Value) -> Result<Expr, DocumentFault>
    ensures { ReadsBy tree result (option_and_then (binary_parts (expr_within levels)) (items (view value.now))) }
{
    let Some([operator, left, right]) = items(value) else {
        return Err(DocumentFault::BadDocument);
    };
    let op = read_operator(operator)?;
    let left = read_input(alloc, levels, left)?;
    let right = read_input(alloc, levels, right)?;
    Ok(Expr::BinaryExpr { left, op, right })
}

/// A choice: the predicate, what stands where it is true, and what stands elsewhere: `[e, e, e]`.
#[cycle(expr)]
pub(crate) fn read_ternary(alloc: Global, levels: u32, value: &Value) -> Result<Expr, DocumentFault>
    ensures { ReadsBy tree result (option_and_then (ternary_parts (expr_within levels)) (items (view value.now))) }
{
    let Some([predicate, truthy, falsy]) = items(value) else {
        return Err(DocumentFault::BadDocument);
    };
    let predicate = read_input(alloc, levels, predicate)?;
    let truthy = read_input(alloc, levels, truthy)?;
    let falsy = read_input(alloc, levels, falsy)?;
    Ok(Expr::Ternary {
        predicate,
        truthy,
        falsy,
    })
}

#[cycle(expr)]
fn read_cast_parts(
    alloc: Global,
    levels: u32,
    input: &Value,
    dtype: &Value,
    options: &Value,
) -> Result<Expr, DocumentFault>
    ensures { ReadsBy tree result (cast_parts (expr_within levels) (view input.now ∷ view dtype.now ∷ view options.now ∷ [])) }
{
    let expr = read_input(alloc, levels, input)?;
    let dtype = read_type(alloc, dtype)?;
    let options = read_cast_options(options)?;
    Ok(Expr::Cast {
        expr,
        dtype,
        options,
    })
}

/// An expression, the type of its cast and what is done with a value that is lost: `[e, text, text]`.
#[cycle(expr)]
pub(crate) fn read_cast(alloc: Global, levels: u32, value: &Value) -> Result<Expr, DocumentFault>
    ensures { ReadsBy tree result (option_and_then (cast_parts (expr_within levels)) (items (view value.now))) }
{
    match items(value) {
        Some([input, dtype, options]) => read_cast_parts(alloc, levels, input, dtype, options),
        _ => Err(DocumentFault::BadDocument),
    }
}
