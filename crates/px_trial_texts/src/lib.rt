//! Columns and frames for the trials, and what calls answer, as text. Trials alone stand on this crate.
#![tactic(auto)]

use px_column::{Column, Name, Px, PxError};
use px_document::read_document;
use px_frame::DataFrame;
use px_text::{error_line, frame_text};
use std::alloc::Global;

/// The frame of some columns, as a document says them: the text of its list `columns`. `OutOfBounds` where
/// that cannot be read.
pub fn frame(alloc: Global, columns: &str) -> Px<DataFrame> {
    let text = format!(in alloc; "{{\"columns\":{columns},\"steps\":[]}}")?;
    match read_document(alloc, text.as_bytes()) {
        Ok(document) => Ok(document.frame),
        Err(_) => Err(PxError::OutOfBounds),
    }
}

/// The column `x` of a type and of these values, as a document says them. `OutOfBounds` where that cannot
/// be read.
pub fn column(alloc: Global, dtype: &str, values: &str) -> Px<Column> {
    let text = format!(in alloc; "[{{\"name\":\"x\",\"type\":\"{dtype}\",\"values\":{values}}}]")?;
    let frame = frame(alloc, &text)?;
    match frame.get_columns() {
        [column, ..] => column.try_clone(alloc),
        [] => Err(PxError::OutOfBounds),
    }
}

/// Two such columns of one type.
pub fn pair(alloc: Global, dtype: &str, left: &str, right: &str) -> Px<(Column, Column)> {
    let left = column(alloc, dtype, left)?;
    Ok((left, column(alloc, dtype, right)?))
}

/// Four rows of `k` and `x`.
pub fn four_rows(alloc: Global) -> Px<DataFrame> {
    frame(
        alloc,
        r#"[{"name":"k","type":"Int64","values":[7,9,7,7]},{"name":"x","type":"Int64","values":[0,1,2,3]}]"#,
    )
}

fn text_of(alloc: Global, bytes: &[u8]) -> Px<Name> {
    match str::from_utf8(bytes) {
        Ok(text) => Name::new(alloc, text),
        Err(_) => Err(PxError::OutOfBounds),
    }
}

/// The line of a refusal.
pub fn text_of_refusal(alloc: Global, error: PxError) -> Px<Name> {
    let line = error_line(alloc, &error)?;
    text_of(alloc, line.as_slice())
}

/// The text of a frame, or the line of a refusal.
pub fn text_of_frame(alloc: Global, answer: Px<DataFrame>) -> Px<Name> {
    match answer {
        Ok(frame) => {
            let text = frame_text(alloc, &frame)?;
            text_of(alloc, text.as_slice())
        }
        Err(error) => text_of_refusal(alloc, error),
    }
}

/// The text of a column as a frame of its own, or the line of a refusal.
pub fn text_of_column(alloc: Global, answer: Px<Column>) -> Px<Name> {
    match answer {
        Ok(column) => text_of_frame(alloc, DataFrame::new(alloc, vec![in alloc; column]?)),
        Err(error) => text_of_refusal(alloc, error),
    }
}

/// Whether an answer is this text.
pub fn is_text(answer: Px<Name>, text: &str) -> Px<bool> {
    Ok(answer?.as_str() == text)
}
