//! Reading steps.
ghost use Rattle.std.specs.Prelude.{[], ◌∷◌, codes, map, option_and_then, option_map};
ghost use Rattle.serde_json.specs.View.{view};
ghost use Rattle.px_column.specs.Option.{each};
ghost use Rattle.px_document.specs.ExprForm.{expr_of};
ghost use Rattle.px_document.specs.Form.{Reads, ReadsBy, fields, items};
ghost use Rattle.px_tree.specs.Step.{filter, select, step_view};
ghost use Rattle.px_document.specs.StepForm.{any_step_of, any_steps_of, chunk_length_of, chunks_of, group_parts};

use crate::document::expr::{read_expr, read_exprs};
use crate::document::fault::DocumentFault;
use crate::document::fields::{items, only_member, three_fields};
use px_tree::Step;
use serde_json::Value;
use std::alloc::Global;

/// A document has at most this many steps.
const STEP_LIMIT: usize = 64;

/// The expressions of a select step: `[e..]`.
fn read_select(alloc: Global, value: &Value) -> Result<Step, DocumentFault>
    ensures { ReadsBy step_view result (option_map select (option_and_then (each expr_of) (items (view value.now)))) }
{
    Ok(Step::Select(read_exprs(alloc, value)?))
}

/// The mask of a filter step: an expression.
fn read_filter(alloc: Global, value: &Value) -> Result<Step, DocumentFault>
    ensures { ReadsBy step_view result (option_map filter (expr_of (view value.now))) }
{
    Ok(Step::Filter(read_expr(alloc, value)?))
}

/// The length of a chunk of rows: a whole number below 2^32.
fn read_chunk_length(value: &Value) -> Result<u32, DocumentFault>
    ensures { Reads result (chunk_length_of (view value.now)) }
{
    let length = value.as_u64().ok_or(DocumentFault::BadDocument)?;
    u32::try_from(length).ok().ok_or(DocumentFault::BadDocument)
}

fn read_chunk_lengths(alloc: Global, values: &[Value]) -> Result<Vec<u32>, DocumentFault>
    ensures { ReadsBy (λ v. v.items) result (each chunk_length_of (map view values.now)) }
{
    let mut lengths = Vec::with_capacity(alloc, values.len())?;
    for value in values {
        lengths.push(read_chunk_length(value)?)?;
    }
    Ok(lengths)
}

/// The lengths of the chunks of rows, where they are told: `null`, or `[integer..]`.
fn read_chunks(alloc: Global, value: &Value) -> Result<Option<Vec<u32>>, DocumentFault>
    ensures { ReadsBy (λ o. option_map (λ v. v.items) o) result (chunks_of (view value.now)) }
{
    if value.is_null() {
        return Ok(None);
    }
    let values = items(value).ok_or(DocumentFault::BadDocument)?;
    Ok(Some(read_chunk_lengths(alloc, values)?))
}

/// The parts of a group step: `{"keys": [e..], "aggs": [e..], "chunks": chunks}`.
fn read_group(alloc: Global, value: &Value) -> Result<Step, DocumentFault>
    ensures { ReadsBy step_view result (option_and_then group_parts (fields (codes "keys" ∷ codes "aggs" ∷ codes "chunks" ∷ []) (view value.now))) }
{
    let parts = three_fields(value, "keys", "aggs", "chunks");
    let (keys, aggs, chunks) = parts.ok_or(DocumentFault::BadDocument)?;
    let keys = read_exprs(alloc, keys)?;
    let aggs = read_exprs(alloc, aggs)?;
    let chunks = read_chunks(alloc, chunks)?;
    Ok(Step::GroupAgg { keys, aggs, chunks })
}

/// A step: `{"select": [..]}`, `{"filter": e}` or `{"group": {..}}`.
#[tactic(auto, using(crate::proofs::StepForms::no_step))]
fn read_step(alloc: Global, value: &Value) -> Result<Step, DocumentFault>
    ensures { ReadsBy step_view result (any_step_of (view value.now)) }
{
    let (key, value) = only_member(value).ok_or(DocumentFault::BadDocument)?;
    match key {
        "select" => read_select(alloc, value),
        "filter" => read_filter(alloc, value),
        "group" => read_group(alloc, value),
        _ => Err(DocumentFault::BadDocument),
    }
}

fn read_each(alloc: Global, values: &[Value]) -> Result<Vec<Step>, DocumentFault>
    ensures { ReadsBy (λ v. map step_view v.items) result (each any_step_of (map view values.now)) }
{
    let mut steps = Vec::with_capacity(alloc, values.len())?;
    for value in values {
        steps.push(read_step(alloc, value)?)?;
    }
    Ok(steps)
}

/// Each of these a step, of which there are at most 64.
#[tactic(auto, using(crate::proofs::StepForms::many_steps))]
pub(crate) fn read_steps(alloc: Global, values: &[Value]) -> Result<Vec<Step>, DocumentFault>
    ensures { ReadsBy (λ v. map step_view v.items) result (any_steps_of (map view values.now)) }
{
    if values.len() > STEP_LIMIT {
        return Err(DocumentFault::BadDocument);
    }
    read_each(alloc, values)
}
