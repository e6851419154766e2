//! Reading how rows are sorted.
ghost use Rattle.std.specs.Prelude.{map, option_and_then};
ghost use Rattle.serde_json.specs.Find.{as_bool};
ghost use Rattle.serde_json.specs.View.{view};
ghost use Rattle.px_column.specs.Option.{each};
ghost use Rattle.px_document.specs.ExprForm.{flags_of, options_of};
ghost use Rattle.px_document.specs.Form.{Reads, ReadsBy, items};

use crate::document::fault::DocumentFault;
use crate::document::fields::{items, two_fields};
use px_column::{Flags, SortMultipleOptions, SortOptions};
use serde_json::Value;
use std::alloc::Global;

/// A truth.
pub(crate) fn read_truth(value: &Value) -> Result<bool, DocumentFault>
    ensures { Reads result (as_bool (view value.now)) }
{
    value.as_bool().ok_or(DocumentFault::BadDocument)
}

/// How rows are sorted by one key: `{"descending": truth, "nulls_last": truth}`.
pub(crate) fn read_options(value: &Value) -> Result<SortOptions, DocumentFault>
    ensures { Reads result (options_of (view value.now)) }
{
    let parts = two_fields(value, "descending", "nulls_last");
    let (descending, nulls_last) = parts.ok_or(DocumentFault::BadDocument)?;
    let descending = read_truth(descending)?;
    let nulls_last = read_truth(nulls_last)?;
    Ok(SortOptions {
        descending,
        nulls_last,
    })
}

fn read_truths(alloc: Global, values: &[Value]) -> Result<Vec<bool>, DocumentFault>
    ensures { ReadsBy (λ v. v.items) result (each as_bool (map view values.now)) }
{
    let mut truths = Vec::with_capacity(alloc, values.len())?;
    for value in values {
        truths.push(read_truth(value)?)?;
    }
    Ok(truths)
}

/// One truth for each key: `[truth..]`.
fn read_flag_list(alloc: Global, value: &Value) -> Result<Flags, DocumentFault>
    ensures { Reads result (option_and_then (each as_bool) (items (view value.now))) }
{
    let values = items(value).ok_or(DocumentFault::BadDocument)?;
    Ok(Flags::from_vec(read_truths(alloc, values)?))
}

/// How rows are sorted by several keys: `{"descending": [truth..], "nulls_last": [truth..]}`.
pub(crate) fn read_flags(alloc: Global, value: &Value) -> Result<SortMultipleOptions, DocumentFault>
    ensures { Reads result (flags_of (view value.now)) }
{
    let parts = two_fields(value, "descending", "nulls_last");
    let (descending, nulls_last) = parts.ok_or(DocumentFault::BadDocument)?;
    let descending = read_flag_list(alloc, descending)?;
    let nulls_last = read_flag_list(alloc, nulls_last)?;
    Ok(SortMultipleOptions {
        descending,
        nulls_last,
    })
}
