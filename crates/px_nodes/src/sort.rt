//! Rows in the order of their values.
ghost use Rattle.std.specs.Prelude.{◌≡◌, ◌+◌, ◌≤◌};
ghost use Rattle.px_column.specs.Prelude.{Answers, AnswersBy};
ghost use Rattle.px_frame.specs.CellView.{named_cell};
ghost use Rattle.px_nodes.specs.Named.{sort_named, sorted_column};

use crate::answer::into_cell;
use px_column::{Column, Px, SortOptions, Steps};
use px_frame::{Cell, take_rows};
use std::alloc::Global;
use std::sync::ledger::Ledger;

/// The rows in the order of their values.
fn sort_column<L: Ledger>(
    alloc: Global,
    column: &Column,
    options: SortOptions,
    kernels: &mut Steps<L>,
) -> Px<Column>
    ensures answer { Answers result (sorted_column options column.now) }
    ensures ticks { kernels.new ≡ kernels.old + 1 }
{
    // A column has fewer than 2^32 rows.
    let _ = column.rows();
    let rows = column.arg_sort(alloc, options, kernels)?;
    take_rows(alloc, column, &rows)
}

/// The rows in the order of their values, equal ones as they stand, as a list; `ListKey` where the
/// values are lists.
pub fn sort_cells<L: Ledger>(
    alloc: Global,
    input: Cell,
    options: SortOptions,
    kernels: &mut Steps<L>,
) -> Px<Cell>
    ensures answer { AnswersBy named_cell result (sort_named options (named_cell input)) }
    ensures most { kernels.new ≤ kernels.old + 1 }
    ensures rises { kernels.old ≤ kernels.new }
{
    into_cell(
        sort_column(alloc, input.as_column(), options, kernels),
        false,
    )
}
