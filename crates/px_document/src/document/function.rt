//! Reading functions of expressions.
ghost use Rattle.std.specs.Prelude.{[], ◌∷◌, map, option_and_then, option_map};
ghost use Rattle.serde_json.specs.View.{view};
ghost use Rattle.px_tree.specs.Tree.{as_explode, function, no_trees, one_tree};
ghost use Rattle.px_tree.specs.View.{tree};
ghost use Rattle.px_document.specs.ExprForm.{call_of, closed_named, expr_within, function_parts, int64_of};
ghost use Rattle.px_tree.specs.declared.function.FunctionExpr.TheVariants.{IsBetween, Shift};
ghost use Rattle.serde_json.specs.Find.{as_str};
ghost use Rattle.px_document.specs.Form.{ReadsBy, items};

use crate::document::expr::{read_input, read_within, share_exprs};
use crate::document::fault::DocumentFault;
use crate::document::fields::items;
use crate::document::literal::read_int64;
use crate::document::names::{is_text, read_closed, read_function_name};
use px_tree::{Expr, FunctionExpr};
use serde_json::Value;
use std::alloc::Global;

/// A function of this kind over these inputs.
#[cycle(expr)]
fn read_call(
    alloc: Global,
    levels: u32,
    kind: FunctionExpr,
    inputs: &[&Value],
) -> Result<Expr, DocumentFault>
    ensures { ReadsBy tree result (call_of (expr_within levels) kind (map (λ v. view v.now) inputs.now)) }
{
    let mut exprs = Vec::with_capacity(alloc, inputs.len())?;
    for input in inputs {
        exprs.push(read_within(alloc, levels, input)?)?;
    }
    Ok(Expr::Function {
        input: share_exprs(alloc, exprs)?,
        function: kind,
    })
}

/// The values in an expression's lists.
#[cycle(expr)]
pub(crate) fn read_explode(alloc: Global, levels: u32, value: &Value) -> Result<Expr, DocumentFault>
    ensures { ReadsBy tree result (option_map (λ e. function (one_tree e no_trees) as_explode) (expr_within levels (view value.now))) }
{
    Ok(Expr::Explode(read_input(alloc, levels, value)?))
}

/// A function of one input that takes nothing else.
#[cycle(expr)]
fn read_plain_call(
    alloc: Global,
    levels: u32,
    name: &Value,
    input: &Value,
) -> Result<Expr, DocumentFault>
    ensures { ReadsBy tree result (function_parts (expr_within levels) (view name.now ∷ view input.now ∷ [])) }
{
    let function = read_function_name(name)?;
    read_call(alloc, levels, function, &[input])
}

/// The rows of an expression, so many places later.
#[cycle(expr)]
fn read_shift(
    alloc: Global,
    levels: u32,
    periods: &Value,
    input: &Value,
) -> Result<Expr, DocumentFault>
    ensures { ReadsBy tree result (option_and_then (λ periods. call_of (expr_within levels) (Shift periods) (view input.now ∷ [])) (int64_of (view periods.now))) }
{
    let periods = read_int64(periods)?;
    read_call(alloc, levels, FunctionExpr::Shift(periods), &[input])
}

/// Whether the rows of one expression lie between those of two others.
#[cycle(expr)]
fn read_is_between(
    alloc: Global,
    levels: u32,
    closed: &Value,
    input: &Value,
    low: &Value,
    high: &Value,
) -> Result<Expr, DocumentFault>
    ensures { ReadsBy tree result (option_and_then (λ ends. call_of (expr_within levels) (IsBetween ends) (view input.now ∷ view low.now ∷ view high.now ∷ [])) (option_and_then closed_named (as_str (view closed.now)))) }
{
    let closed = read_closed(closed)?;
    read_call(
        alloc,
        levels,
        FunctionExpr::IsBetween { closed },
        &[input, low, high],
    )
}

/// A function and its inputs: `[text, e]`, `["IsIn", e, e]`, `["Shift", integer, e]` or
/// `["IsBetween", text, e, e, e]`.
#[cycle(expr)]
pub(crate) fn read_function(
    alloc: Global,
    levels: u32,
    value: &Value,
) -> Result<Expr, DocumentFault>
    ensures { ReadsBy tree result (option_and_then (function_parts (expr_within levels)) (items (view value.now))) }
{
    match items(value) {
        Some([name, input]) => read_plain_call(alloc, levels, name, input),
        Some([name, input, others]) if is_text("IsIn", name) => {
            read_call(alloc, levels, FunctionExpr::IsIn, &[input, others])
        }
        Some([name, periods, input]) if is_text("Shift", name) => {
            read_shift(alloc, levels, periods, input)
        }
        Some([name, closed, input, low, high]) if is_text("IsBetween", name) => {
            read_is_between(alloc, levels, closed, input, low, high)
        }
        _ => Err(DocumentFault::BadDocument),
    }
}
