//! Rows of a column by their numbers.
ghost use Rattle.std.specs.Prelude.{◌≡◌, ◌<◌, ◌^◌, Ok, Some, length, map, true};
ghost use Rattle.px_column.specs.Prelude.{Answers, AnswersBy};
ghost use Rattle.px_frame.specs.Frame.{are_below, series_at};

use px_column::{Column, Px};
use std::alloc::Global;

/// The numbers of rows, each as one that is asked for.
pub(crate) fn all_some(alloc: Global, rows: &[u32]) -> Px<Vec<Option<u32>>>
    ensures { AnswersBy (λ v. v.items) result (Ok (map Some rows.now)) }
{
    let mut indices = Vec::with_capacity(alloc, rows.len())?;
    for row in rows {
        indices.push(Some(*row))?;
    }
    Ok(indices)
}

/// These rows of a column in this order, each of which is there (polars `take_unchecked`).
pub fn take_rows(alloc: Global, column: &Column, rows: &[u32]) -> Px<Column>
    requires few { length rows.now < 2 ^ 32 }
    requires below { are_below (length column.now.slots) rows.now ≡ true }
    ensures { Answers result (Ok (series_at rows.now column.now)) }
{
    let indices = all_some(alloc, rows)?;
    column.take(alloc, &indices)
}
