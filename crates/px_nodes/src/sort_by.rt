//! Rows in the order of some keys.
ghost use Rattle.std.specs.Prelude.{◌≡◌, ◌+◌, ◌≤◌, ◌==◌, Ok, length, map, true, false};
ghost use Rattle.std.specs.List.{list_all, list_any};
ghost use Rattle.px_column.specs.Prelude.{Answers, AnswersBy, is_list_kind};
ghost use Rattle.px_frame.specs.CellView.{named_cell};
ghost use Rattle.px_nodes.specs.Named.{kinds_of, sort_by_named, sorted_column_by};

use crate::answer::into_cell;
use px_column::{Column, InvalidWhy, Px, PxError, SortMultipleOptions, Steps};
use px_frame::{Cell, spread_each, take_rows};
use std::alloc::Global;
use std::sync::ledger::Ledger;

/// Whether one of the keys has lists.
fn has_lists(keys: &[Cell]) -> bool
    ensures { result ≡ list_any is_list_kind (kinds_of (map named_cell keys.now)) }
{
    for key in keys {
        if key.as_column().dtype().is_list() {
            return true;
        }
    }
    false
}

/// The rows in the order of keys of the column's length, which are no lists; as they are without keys.
fn sort_column_by<L: Ledger>(
    alloc: Global,
    column: &Column,
    keys: &[Column],
    options: &SortMultipleOptions,
    kernels: &mut Steps<L>,
) -> Px<Column>
    requires kinds { list_any (λ s. is_list_kind s.kind) keys.now ≡ false }
    requires lengths { list_all (λ s. length s.slots == length column.now.slots) keys.now ≡ true }
    ensures answer { Answers result (Ok (sorted_column_by options.now column.now keys.now)) }
    ensures most { kernels.new ≤ kernels.old + 1 }
    ensures rises { kernels.old ≤ kernels.new }
{
    match keys {
        [] => column.try_clone(alloc),
        [first, rest @ ..] => {
            // A column has fewer than 2^32 rows.
            let _ = column.rows();
            let rows = Column::arg_sort_multiple(alloc, first, rest, options, kernels)?;
            take_rows(alloc, column, &rows)
        }
    }
}

/// The rows in the order of some keys in turn, equal ones as they stand, as a list; without keys as
/// they are. The flags are brought to the number of keys as `prepare_bool_vec` does, and a unit key
/// stands at each row. `ListKey` where a key has lists, then `ShapeMismatch` where one is a list of
/// another length.
pub fn sort_by_cells<L: Ledger>(
    alloc: Global,
    input: Cell,
    by: Vec<Cell>,
    sort_options: &SortMultipleOptions,
    kernels: &mut Steps<L>,
) -> Px<Cell>
    ensures answer { AnswersBy named_cell result (sort_by_named sort_options.now (named_cell input) (map named_cell by.items)) }
    ensures most { kernels.new ≤ kernels.old + 1 }
    ensures rises { kernels.old ≤ kernels.new }
{
    if has_lists(&by) {
        return Err(PxError::InvalidOperation(InvalidWhy::ListKey));
    }
    let column = input.as_column();
    let keys = spread_each(alloc, by, column.len())?;
    into_cell(
        sort_column_by(alloc, column, &keys, sort_options, kernels),
        false,
    )
}
