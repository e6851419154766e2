//! Documents: a frame's columns and the steps that are done with it, as one JSON text.
ghost use Rattle.std.specs.Prelude.{◌≡◌, IfOk, Ok, Err, Some, None, IsUtf8, option_and_then};
ghost use Rattle.serde_json.specs.Read.{read as read_text};
ghost use Rattle.serde_json.specs.View.{view};
ghost use Rattle.px_document.specs.Document.{Doc, doc_view};
ghost use Rattle.px_document.specs.DocumentText.{IsDocument, IsDocumentText};
ghost use Rattle.px_document.specs.Form.{ReadsBy};
ghost use Rattle.px_document.specs.DocumentView.{document_view};
ghost use Rattle.px_document.specs.Readable.{is_readable_document};
ghost use Rattle.px_document.specs.StepForm.{any_document_of};
ghost use Rattle.px_document.specs.declared.document.fault.DocumentFault.TheVariants.{BadDocument};

mod column;
mod expr;
mod fault;
mod fields;
mod function;
mod hexadecimal;
mod in_order;
mod literal;
mod names;
mod options;
mod parsed;
mod place;
mod reduction;
mod row;
mod row_wise;
mod selection;
mod step;
mod tokens;
mod type_name;
mod window;

use column::read_columns;
pub use fault::DocumentFault;
use fields::{items, two_fields};
use in_order::read_in_order;
use parsed::Parsed;
use px_frame::DataFrame;
use px_tree::{Step, are_unchunked};
use serde_json::Value;
use std::alloc::Global;
use step::read_steps;

/// A frame, and the steps that are done with it.
#[derive(Drop)]
pub struct Document {
    /// The frame that the first step is done with.
    pub frame: DataFrame,
    /// The steps in their order.
    pub steps: Vec<Step>,
}

/// The longest text that is read has one byte less.
const SIZE_LIMIT: usize = 1 << 26;

fn read_json(alloc: Global, text: &str) -> Result<Value, DocumentFault>
    ensures { ReadsBy view result (read_text text.now) }
{
    match Value::from_str(alloc, text) {
        Ok(value) => Ok(value),
        Err(e) if e.is_memory() => Err(DocumentFault::OutOfMemory),
        Err(_) => Err(DocumentFault::BadDocument),
    }
}

fn read_parts(alloc: Global, value: &Value) -> Result<Parsed, DocumentFault>
    ensures { ReadsBy doc_view result (any_document_of (view value.now)) }
{
    let fields = two_fields(value, "columns", "steps");
    let (columns, steps) = fields.ok_or(DocumentFault::BadDocument)?;
    let columns = read_columns(alloc, items(columns).ok_or(DocumentFault::BadDocument)?)?;
    let steps = read_steps(alloc, items(steps).ok_or(DocumentFault::BadDocument)?)?;
    Ok(Parsed { columns, steps })
}

/// The columns and steps that a text says: along the text where it says them in the usual order, else
/// by way of one JSON value of all of it.
fn read_any(alloc: Global, text: &str) -> Result<Parsed, DocumentFault>
    ensures { ReadsBy doc_view result (option_and_then any_document_of (read_text text.now)) }
{
    if let Some(parsed) = read_in_order(alloc, text)? {
        return Ok(parsed);
    }
    let value = read_json(alloc, text)?;
    read_parts(alloc, &value)
}

/// The columns and steps that a text says: JSON in UTF-8, of fewer than 2^26 bytes, with exactly the
/// members that are told; else `BadDocument`.
fn parse_document(alloc: Global, bytes: &[u8]) -> Result<Parsed, DocumentFault>
    // What is read is what the text says.
    ensures found { IfOk result (λ p. IsDocumentText bytes.now (doc_view p)) }
    // A text that is refused says nothing.
    ensures refused { result ≡ Err BadDocument → (d : Doc) → IsDocumentText bytes.now d → ⊥ }
{
    if bytes.len() >= SIZE_LIMIT {
        return Err(DocumentFault::BadDocument);
    }
    let Ok(text) = str::from_utf8(bytes) else {
        return Err(DocumentFault::BadDocument);
    };
    let parsed = read_any(alloc, text)?;
    if !are_unchunked(&parsed.steps) {
        return Err(DocumentFault::BadDocument);
    }
    Ok(parsed)
}

/// The document that some bytes say: JSON in UTF-8 (RFC 8259), of fewer than 2^26 bytes, with exactly
/// the members of a document, and columns of distinct names and one length; else `BadDocument`.
pub fn read_document(alloc: Global, bytes: &[u8]) -> Result<Document, DocumentFault>
    ensures found { IfOk result (λ d. IsDocument bytes.now (document_view d)) }
    ensures refused { result ≡ Err BadDocument → (d : Doc) → IsDocument bytes.now d → ⊥ }
{
    let parsed = parse_document(alloc, bytes)?;
    Ok(Document {
        frame: DataFrame::new(alloc, parsed.columns)?,
        steps: parsed.steps,
    })
}
