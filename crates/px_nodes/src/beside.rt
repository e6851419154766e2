//! Cells side by side: a unit stands beside each row, and lists have one length.
ghost use Rattle.std.specs.Prelude.{◌≡◌};
ghost use Rattle.px_frame.specs.CellView.{named_cell};
ghost use Rattle.px_nodes.specs.Together.{are_three_beside, are_three_units, are_two_beside, are_two_units, rows_or, stands_at};

use px_frame::Cell;

/// The number of rows of a list, for a unit that of what stands beside it.
fn rows_or(others: u32, cell: &Cell) -> u32
    ensures { result ≡ rows_or others (named_cell cell.now).cell }
{
    match cell {
        Cell::Unit(_) => others,
        Cell::Rows(column) => column.len(),
    }
}

/// Whether a cell has a value at each of `height` rows: a unit, or a list of as many.
pub(crate) fn stands_at(height: u32, cell: &Cell) -> bool
    ensures { result ≡ stands_at height (named_cell cell.now).cell }
{
    match cell {
        Cell::Unit(_) => true,
        Cell::Rows(column) => column.len() == height,
    }
}

/// Whether two cells stand side by side. A list of one row is as long as it is, and is not repeated.
pub(crate) fn are_two_beside(left: &Cell, right: &Cell) -> bool
    ensures { result ≡ are_two_beside (named_cell left.now).cell (named_cell right.now).cell }
{
    let height = rows_or(rows_or(1, right), left);
    stands_at(height, left) && stands_at(height, right)
}

/// Whether three cells stand side by side.
pub(crate) fn are_three_beside(first: &Cell, second: &Cell, third: &Cell) -> bool
    ensures { result ≡ are_three_beside (named_cell first.now).cell (named_cell second.now).cell (named_cell third.now).cell }
{
    let height = rows_or(rows_or(rows_or(1, third), second), first);
    stands_at(height, first) && stands_at(height, second) && stands_at(height, third)
}

/// Whether two cells are units.
pub(crate) fn are_two_units(left: &Cell, right: &Cell) -> bool
    ensures { result ≡ are_two_units (named_cell left.now).cell (named_cell right.now).cell }
{
    left.is_unit() && right.is_unit()
}

/// Whether three cells are units.
pub(crate) fn are_three_units(first: &Cell, second: &Cell, third: &Cell) -> bool
    ensures { result ≡ are_three_units (named_cell first.now).cell (named_cell second.now).cell (named_cell third.now).cell }
{
    first.is_unit() && second.is_unit() && third.is_unit()
}
