//! Reading which rows are taken, and in what order.
ghost use Rattle.std.specs.Prelude.{option_and_then};
ghost use Rattle.serde_json.specs.View.{view};
ghost use Rattle.px_tree.specs.View.{tree};
ghost use Rattle.px_document.specs.ExprForm.{expr_within, filter_parts, gather_parts, slice_parts, sort_by_parts, sort_parts};
ghost use Rattle.px_document.specs.Form.{ReadsBy, items};

use crate::document::expr::{read_input, read_list, share_exprs};
use crate::document::fault::DocumentFault;
use crate::document::fields::items;
use crate::document::options::{read_flags, read_options, read_truth};
use px_tree::Expr;
use serde_json::Value;
use std::alloc::Global;

/// An expression and the mask of the rows that stay: `[e, e]`.
#[cycle(expr)]
pub(crate) fn read_filter(alloc: Global, levels: u32, value: &Value) -> Result<Expr, DocumentFault>
    ensures { ReadsBy tree result (option_and_then (filter_parts (expr_within levels)) (items (view value.now))) }
{
    let Some([input, mask]) = items(value) else {
        return Err(DocumentFault::BadDocument);
    };
    let input = read_input(alloc, levels, input)?;
    let by = read_input(alloc, levels, mask)?;
    Ok(Expr::Filter { input, by })
}

/// An expression, the first row that is taken and how many: `[e, e, e]`.
#[cycle(expr)]
pub(crate) fn read_slice(alloc: Global, levels: u32, value: &Value) -> Result<Expr, DocumentFault>
    ensures { ReadsBy tree result (option_and_then (slice_parts (expr_within levels)) (items (view value.now))) }
{
    let Some([input, offset, length]) = items(value) else {
        return Err(DocumentFault::BadDocument);
    };
    let input = read_input(alloc, levels, input)?;
    let offset = read_input(alloc, levels, offset)?;
    let length = read_input(alloc, levels, length)?;
    Ok(Expr::Slice {
        input,
        offset,
        length,
    })
}

/// An expression, the places of the rows that are taken, and whether it is the one row at one place:
/// `[e, e, truth]`.
#[cycle(expr)]
pub(crate) fn read_gather(alloc: Global, levels: u32, value: &Value) -> Result<Expr, DocumentFault>
    ensures { ReadsBy tree result (option_and_then (gather_parts (expr_within levels)) (items (view value.now))) }
{
    let Some([input, index, one]) = items(value) else {
        return Err(DocumentFault::BadDocument);
    };
    let expr = read_input(alloc, levels, input)?;
    let idx = read_input(alloc, levels, index)?;
    let returns_scalar = read_truth(one)?;
    Ok(Expr::Gather {
        expr,
        idx,
        returns_scalar,
    })
}

/// An expression and how its rows are sorted: `[e, options]`.
#[cycle(expr)]
pub(crate) fn read_sort(alloc: Global, levels: u32, value: &Value) -> Result<Expr, DocumentFault>
    ensures { ReadsBy tree result (option_and_then (sort_parts (expr_within levels)) (items (view value.now))) }
{
    let Some([input, options]) = items(value) else {
        return Err(DocumentFault::BadDocument);
    };
    let expr = read_input(alloc, levels, input)?;
    let options = read_options(options)?;
    Ok(Expr::Sort { expr, options })
}

/// An expression, what its rows are sorted by, and how: `[e, [e..], options]`.
#[cycle(expr)]
pub(crate) fn read_sort_by(alloc: Global, levels: u32, value: &Value) -> Result<Expr, DocumentFault>
    ensures { ReadsBy tree result (option_and_then (sort_by_parts (expr_within levels)) (items (view value.now))) }
{
    let Some([input, by, options]) = items(value) else {
        return Err(DocumentFault::BadDocument);
    };
    let expr = read_input(alloc, levels, input)?;
    let by = share_exprs(alloc, read_list(alloc, levels, by)?)?;
    let sort_options = read_flags(alloc, options)?;
    Ok(Expr::SortBy {
        expr,
        by,
        sort_options,
    })
}
