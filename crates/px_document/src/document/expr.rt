//! Reading expressions.
ghost use Rattle.std.specs.Prelude.{Some, map, option_and_then, option_map};
ghost use Rattle.serde_json.specs.Find.{as_null, as_str};
ghost use Rattle.serde_json.specs.View.{view};
ghost use Rattle.px_column.specs.Option.{each};
ghost use Rattle.px_tree.specs.Tree.{column, len, trees_of};
ghost use Rattle.px_tree.specs.View.{tree, trees};
ghost use Rattle.px_document.specs.ExprForm.{expr_form, expr_of, expr_within, row_form, whole_form};
ghost use Rattle.px_document.specs.Form.{ReadsBy, items, single_member};

use crate::document::fault::DocumentFault;
use crate::document::fields::{items, only_member, read_text};
use crate::document::function::{read_explode, read_function};
use crate::document::literal::{read_integers, read_literal, read_series};
use crate::document::reduction::read_reduction;
use crate::document::row_wise::{read_alias, read_binary, read_cast, read_ternary};
use crate::document::selection::{read_filter, read_gather, read_slice, read_sort, read_sort_by};
use crate::document::window::read_window;
use px_tree::{Expr, Exprs};
use serde_json::Value;
use std::alloc::Global;
use std::rc::Rc;

/// At most this many expressions stand inside one another.
const LEVELS: u32 = 128;

fn read_name(alloc: Global, value: &Value) -> Result<Expr, DocumentFault>
    ensures { ReadsBy tree result (option_map column (as_str (view value.now))) }
{
    Ok(Expr::Column(read_text(alloc, value)?))
}

fn read_length(value: &Value) -> Result<Expr, DocumentFault>
    ensures { ReadsBy tree result (option_map (λ _. len) (as_null (view value.now))) }
{
    if value.is_null() {
        Ok(Expr::Len)
    } else {
        Err(DocumentFault::BadDocument)
    }
}

/// The expression that stands under this key, where it is made of all the rows of others.
#[cycle(expr)]
fn read_whole_form(
    alloc: Global,
    levels: u32,
    key: &str,
    value: &Value,
) -> Result<Expr, DocumentFault>
    ensures { ReadsBy tree result (whole_form (expr_within levels) (single_member key.now (view value.now))) }
{
    match key {
        "filter" => read_filter(alloc, levels, value),
        "slice" => read_slice(alloc, levels, value),
        "gather" => read_gather(alloc, levels, value),
        "sort" => read_sort(alloc, levels, value),
        "sort_by" => read_sort_by(alloc, levels, value),
        "agg" => read_reduction(alloc, levels, value),
        "len" => read_length(value),
        "over" => read_window(alloc, levels, value),
        _ => Err(DocumentFault::BadDocument),
    }
}

/// The expression that stands under this key, where it is made of others.
#[cycle(expr)]
fn read_row_form(
    alloc: Global,
    levels: u32,
    key: &str,
    value: &Value,
) -> Result<Expr, DocumentFault>
    ensures { ReadsBy tree result (row_form (expr_within levels) (single_member key.now (view value.now))) }
{
    match key {
        "alias" => read_alias(alloc, levels, value),
        "bin" => read_binary(alloc, levels, value),
        "when" => read_ternary(alloc, levels, value),
        "cast" => read_cast(alloc, levels, value),
        "fn" => read_function(alloc, levels, value),
        "explode" => read_explode(alloc, levels, value),
        _ => read_whole_form(alloc, levels, key, value),
    }
}

/// The expression that stands under this key.
#[cycle(expr)]
fn read_form(alloc: Global, levels: u32, key: &str, value: &Value) -> Result<Expr, DocumentFault>
    ensures { ReadsBy tree result (expr_form (expr_within levels) (single_member key.now (view value.now))) }
{
    match key {
        "col" => read_name(alloc, value),
        "lit" => read_literal(alloc, value),
        "range" => read_integers(alloc, value),
        "series" => read_series(alloc, value),
        _ => read_row_form(alloc, levels, key, value),
    }
}

/// An expression, with at most this many inside one another.
#[cycle(expr)]
#[tactic(auto, using(crate::proofs::Forms::unkeyed))]
pub(crate) fn read_within(alloc: Global, levels: u32, value: &Value) -> Result<Expr, DocumentFault>
    ensures { ReadsBy tree result (expr_within levels (view value.now)) }
{
    if levels == 0 {
        return Err(DocumentFault::BadDocument);
    }
    let (key, value) = only_member(value).ok_or(DocumentFault::BadDocument)?;
    read_form(alloc, levels - 1, key, value)
}

/// An expression that another one holds.
#[cycle(expr)]
pub(crate) fn read_input(
    alloc: Global,
    levels: u32,
    value: &Value,
) -> Result<Rc<Expr>, DocumentFault>
    ensures { ReadsBy (λ e. tree e.value) result (expr_within levels (view value.now)) }
{
    let expr = read_within(alloc, levels, value)?;
    Ok(Rc::new(alloc, expr)?)
}

/// An array of expressions.
#[cycle(expr)]
pub(crate) fn read_list(
    alloc: Global,
    levels: u32,
    value: &Value,
) -> Result<Vec<Expr>, DocumentFault>
    ensures { ReadsBy (λ v. map tree v.items) result (option_and_then (each (expr_within levels)) (items (view value.now))) }
{
    let values = items(value).ok_or(DocumentFault::BadDocument)?;
    let mut exprs = Vec::with_capacity(alloc, values.len())?;
    for value in values {
        exprs.push(read_within(alloc, levels, value)?)?;
    }
    Ok(exprs)
}

/// These expressions as a list that its copies share.
pub(crate) fn share_exprs(alloc: Global, exprs: Vec<Expr>) -> Result<Exprs, DocumentFault>
    ensures { ReadsBy trees result (Some (trees_of (map tree exprs.items))) }
{
    Ok(Exprs {
        items: Rc::new(alloc, exprs)?,
    })
}

/// An expression.
#[tactic(auto, unfolding(crate::specs::ExprForm::expr_of))]
pub(crate) fn read_expr(alloc: Global, value: &Value) -> Result<Expr, DocumentFault>
    ensures { ReadsBy tree result (expr_of (view value.now)) }
{
    read_within(alloc, LEVELS, value)
}

/// An array of expressions.
#[tactic(auto, unfolding(crate::specs::ExprForm::expr_of))]
pub(crate) fn read_exprs(alloc: Global, value: &Value) -> Result<Vec<Expr>, DocumentFault>
    ensures { ReadsBy (λ v. map tree v.items) result (option_and_then (each expr_of) (items (view value.now))) }
{
    read_list(alloc, LEVELS, value)
}
