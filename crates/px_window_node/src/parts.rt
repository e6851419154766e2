//! The groups of a window.
ghost use Rattle.std.specs.Prelude.{◌≡◌, ◌+◌, ◌≤◌, IfOk, None, OnOk, map};
ghost use Rattle.px_column.specs.Prelude.{Answers};
ghost use Rattle.px_frame.specs.CellView.{named_cell};
ghost use Rattle.px_tree.specs.Window.{order_column};
ghost use Rattle.px_window.specs.Places.{HoldsEachRowOnce};
ghost use Rattle.px_window_node.specs.Grouped.{order_cell, part_count, window_groups};

use px_column::{Column, Px, SortOptions, Steps};
use px_frame::{Cell, GroupPositions, spread, spread_each};
use px_window::{CacheKey, ordered_groups};
use std::alloc::Global;
use std::sync::ledger::Ledger;

/// The order as a column of `height` rows, where there is one.
fn spread_order(
    alloc: Global,
    order: Option<(Cell, SortOptions)>,
    height: u32,
) -> Px<Option<(Column, SortOptions)>>
    ensures { Answers result (order_column height (order_cell order)) }
{
    match order {
        None => Ok(None),
        Some((cell, options)) => Ok(Some((spread(alloc, cell, height)?, options))),
    }
}

/// The groups of `height` rows by some keys, each with its rows in the order of a cell, where there is
/// one; a unit stands at each row. `ShapeMismatch` where a key or the order has another number of rows,
/// then `NoKey` without a key, then `ListKey` where one of them or the order is of a List type. Rows are
/// grouped once; a kernel runs at most once for each group, and none without an order.
pub fn window_parts<L: Ledger, M: Ledger>(
    alloc: Global,
    height: u32,
    branch: u64,
    keys: Vec<Cell>,
    order: Option<(Cell, SortOptions)>,
    kernels: &mut Steps<L>,
    groupings: &mut Steps<M>,
) -> Px<GroupPositions>
    ensures answer { Answers result (window_groups height (map named_cell keys.items) (order_cell order)) }
    ensures height { IfOk result (λ g. g.height ≡ height) }
    ensures once { IfOk result HoldsEachRowOnce }
    ensures most { kernels.new ≤ kernels.old + part_count height (map named_cell keys.items) (order_cell order) }
    ensures rises { kernels.old ≤ kernels.new }
    ensures unordered { order_cell order ≡ None → kernels.new ≡ kernels.old }
    ensures grouped_once { OnOk result (groupings.new ≡ groupings.old + 1) }
    ensures grouped_most { groupings.new ≤ groupings.old + 1 }
    ensures grouped_rises { groupings.old ≤ groupings.new }
{
    let by = spread_each(alloc, keys, height)?;
    let column = spread_order(alloc, order, height)?;
    let key = CacheKey::new(branch, by, column);
    ordered_groups(alloc, height, &key, kernels, groupings)
}
