//! Reading windows.
ghost use Rattle.std.specs.Prelude.{[], ◌∷◌, codes, option_and_then};
ghost use Rattle.serde_json.specs.View.{view};
ghost use Rattle.px_tree.specs.View.{order_tree, tree};
ghost use Rattle.px_document.specs.ExprForm.{expr_within, order_of, over_parts};
ghost use Rattle.px_document.specs.Form.{ReadsBy, fields};

use crate::document::expr::{read_input, read_list, share_exprs};
use crate::document::fault::DocumentFault;
use crate::document::fields::{four_fields, items};
use crate::document::names::read_mapping;
use crate::document::options::read_options;
use px_column::SortOptions;
use px_tree::{Expr, WindowType};
use serde_json::Value;
use std::alloc::Global;
use std::rc::Rc;

/// What the rows of a part are ordered by: `null`, or `[e, options]`.
#[cycle(expr)]
fn read_order(
    alloc: Global,
    levels: u32,
    value: &Value,
) -> Result<Option<(Rc<Expr>, SortOptions)>, DocumentFault>
    ensures { ReadsBy order_tree result (order_of (expr_within levels) (view value.now)) }
{
    if value.is_null() {
        return Ok(None);
    }
    let Some([key, options]) = items(value) else {
        return Err(DocumentFault::BadDocument);
    };
    let key = read_input(alloc, levels, key)?;
    let options = read_options(options)?;
    Ok(Some((key, options)))
}

/// A function of each part of the rows by keys: `{"function": e, "keys": [e..], "order": order,
/// "mapping": text}`.
#[cycle(expr)]
pub(crate) fn read_window(alloc: Global, levels: u32, value: &Value) -> Result<Expr, DocumentFault>
    ensures { ReadsBy tree result (option_and_then (over_parts (expr_within levels)) (fields (codes "function" ∷ codes "keys" ∷ codes "order" ∷ codes "mapping" ∷ []) (view value.now))) }
{
    let parts = four_fields(value, "function", "keys", "order", "mapping");
    let (function, keys, order, mapping) = parts.ok_or(DocumentFault::BadDocument)?;
    let function = read_input(alloc, levels, function)?;
    let partition_by = share_exprs(alloc, read_list(alloc, levels, keys)?)?;
    let order_by = read_order(alloc, levels, order)?;
    let options = WindowType::Over(read_mapping(mapping)?);
    Ok(Expr::Window {
        function,
        partition_by,
        order_by,
        options,
    })
}
