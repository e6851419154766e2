//! Documents that are generated.
ghost use Rattle.std.specs.Prelude.{◌≤◌, Ok};
ghost use Rattle.px_column.specs.Prelude.{AnswersBy};
ghost use Rattle.px_document.specs.DocumentView.{document_view};
ghost use Rattle.px_generated.specs.Generated.{generated};

use crate::columns::{keys, values};
use crate::steps::steps;
use px_column::Px;
use px_document::Document;
use px_frame::DataFrame;
use std::alloc::Global;

/// The document of `n`, which is at most 1,000,000: the Int64 columns `k`, with `i` mod 8 at row `i`, and
/// `x`, with `i`, of `n` rows; and three steps: the sum of `x` over `k` beside each row as `s`; for each `k`
/// the sum of `x`, the first `s` and the number of rows, in chunks of half the rows, of none, and of the
/// rest; the rows whose `x` and `s` are the same.
pub fn generated(alloc: Global, n: u32) -> Px<Document>
    requires { n ≤ 1000000 }
    ensures { AnswersBy document_view result (Ok (generated n)) }
{
    let columns = vec![in alloc; keys(alloc, n)?, values(alloc, n)?]?;
    Ok(Document {
        frame: DataFrame::new(alloc, columns)?,
        steps: steps(alloc, n)?,
    })
}
