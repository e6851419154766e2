//! The values of expressions side by side: units, which take any length, beside lists of one length.
ghost use Rattle.std.specs.Prelude.{◌≡◌, ◌<◌, ◌^◌, [], Ok, IfOk, length, map, true};
ghost use Rattle.px_column.specs.Prelude.{Answers, AnswersBy, slot_at};
ghost use Rattle.px_column.specs.Repeat.{repeated};
ghost use Rattle.px_frame.specs.Cell.{cell_of, is_unit_cell};
ghost use Rattle.px_frame.specs.CellView.{named_cell};
ghost use Rattle.px_frame.specs.Frame.{first_repeat, height_of, unless_repeated};
ghost use Rattle.px_frame.specs.Spread.{assembled, column_of_cell, rows_beside, spread_all, spread_column};

use crate::frame::{DataFrame, add_name};
use indexmap::IndexSet;
use px_column::{Column, Name, Px, PxError};
use std::alloc::Global;
use std::marker::Model;

/// A column of exactly one row (polars `ScalarColumn`), seen as that column.
#[derive(Drop)]
pub struct UnitColumn {
    column: Column,
}

impl Model for UnitColumn {
    ghost use Rattle.px_column.specs.Prelude.{Series};
    ghost use Rattle.px_column.specs.Series.{coded_series};

    ghost Value = { Series };

    ghost coded = { coded_series };

    ghost use Rattle.std.specs.Prelude.{◌≡◌, length};

    ghost view = { λ u. u.column };

    ghost invariant = { λ u. length u.column.slots ≡ 1 };
}

/// The value of an expression on a frame: one value, which stands beside lists of any length, or one
/// for each of some rows.
pub enum Cell {
    /// One value.
    Unit(UnitColumn),
    /// One value for each row. One row is no unit.
    Rows(Column),
}

/// One call where a cell is let go, so that proofs see no more of what is inside.
impl Drop for Cell {
    fn drop(self) {
        match self {
            Cell::Unit(_unit) => {}
            Cell::Rows(_column) => {}
        }
    }
}

impl UnitColumn {
    /// The unit that a column of one row holds.
    pub fn new(column: Column) -> UnitColumn
        requires { length column.slots ≡ 1 }
        ensures { result ≡ column }
    {
        UnitColumn { column }
    }

    /// The column of one row.
    pub fn as_column(&self) -> &Column
        ensures column { result.now ≡ self.now }
        ensures one { length self.now.slots ≡ 1 }
    {
        &self.column
    }

    /// The column of one row.
    fn into_column(self) -> Column
        ensures column { result ≡ self }
        ensures one { length self.slots ≡ 1 }
    {
        self.column
    }

    /// The unit at each of `height` rows.
    fn repeat(&self, alloc: Global, height: u32) -> Px<Column>
        ensures { Answers result (Ok (repeated self.now.name self.now.kind (slot_at self.now.slots 0) height)) }
    {
        self.column.new_from_index(alloc, 0, height)
    }
}

impl Cell {
    /// The values of a column as a cell: one unit where that is asked for, of a column of one row, and
    /// else its rows.
    pub fn new(column: Column, is_unit: bool) -> Cell
        requires { is_unit ≡ true → length column.slots ≡ 1 }
        ensures { named_cell result ≡ record { name = column.name; kind = column.kind; cell = cell_of is_unit column.slots } }
    {
        if is_unit {
            Cell::Unit(UnitColumn::new(column))
        } else {
            Cell::Rows(column)
        }
    }

    /// Whether it is a unit.
    pub fn is_unit(&self) -> bool
        ensures { result ≡ is_unit_cell (named_cell self.now).cell }
    {
        matches!(self, Cell::Unit(_))
    }

    /// The values as a column, a unit as its one row.
    #[tactic(auto, using(crate::proofs::Units::unit_column))]
    pub fn as_column(&self) -> &Column
        ensures { result.now ≡ column_of_cell (named_cell self.now) }
    {
        match self {
            Cell::Unit(unit) => unit.as_column(),
            Cell::Rows(column) => column,
        }
    }

    /// The values as a column, a unit as its one row.
    #[tactic(auto, using(crate::proofs::Units::unit_column))]
    pub fn into_column(self) -> Column
        ensures { result ≡ column_of_cell (named_cell self) }
    {
        match self {
            Cell::Unit(unit) => unit.into_column(),
            Cell::Rows(column) => column,
        }
    }

    /// The name of the values.
    pub fn name(&self) -> &Name
        ensures { result.now ≡ (named_cell self.now).name }
    {
        match self {
            Cell::Unit(unit) => unit.as_column().name(),
            Cell::Rows(column) => column.name(),
        }
    }
}

/// A cell as a column of `height` rows: a unit stands at each, and rows stand as they are, with no
/// copy; `ShapeMismatch` where there is another number of rows, be it one (polars
/// `DataFrame::new_with_broadcast_len`, which repeats lists of one row too).
pub fn spread(alloc: Global, cell: Cell, height: u32) -> Px<Column>
    ensures { Answers result (spread_column height (named_cell cell)) }
{
    match &cell {
        Cell::Unit(unit) => unit.repeat(alloc, height),
        Cell::Rows(column) => {
            if column.len() == height {
                Ok(cell.into_column())
            } else {
                Err(PxError::ShapeMismatch)
            }
        }
    }
}

/// The number of rows of the first list, and 1 without one.
fn rows_beside(cells: &[Cell]) -> u32
    ensures { result ≡ rows_beside (map (λ c. c.cell) (map named_cell cells.now)) }
{
    for cell in cells {
        if let Cell::Rows(column) = cell {
            return column.len();
        }
    }
    1
}

fn distinct_names(alloc: Global, cells: &[Cell]) -> Px<IndexSet<Name>>
    ensures { AnswersBy (λ s. s.keys) result (unless_repeated (first_repeat [] (map (λ c. c.name) (map named_cell cells.now))) (Ok (map (λ c. c.name) (map named_cell cells.now)))) }
{
    let mut names = IndexSet::new(alloc);
    for cell in cells {
        add_name(alloc, &mut names, cell.name())?;
    }
    Ok(names)
}

/// Each cell as a column of `height` rows, in their order, each as `spread` says.
pub fn spread_each(alloc: Global, cells: Vec<Cell>, height: u32) -> Px<Vec<Column>>
    ensures { AnswersBy (λ v. v.items) result (spread_all height (map named_cell cells.items)) }
{
    let mut columns = Vec::with_capacity(alloc, cells.len())?;
    for cell in cells {
        columns.push(spread(alloc, cell, height)?)?;
    }
    Ok(columns)
}

/// The frame of some cells side by side: units take the length of the lists beside them, and have one
/// row without lists; no cell gives no column. `Duplicate` with the first name that stands earlier
/// too, then `ShapeMismatch` where lists differ in length (polars `DataFrame::new_with_broadcast`,
/// which repeats lists of one row too).
pub fn assemble(alloc: Global, cells: Vec<Cell>) -> Px<DataFrame>
    ensures answer { Answers result (assembled (map named_cell cells.items)) }
    ensures short { IfOk result (λ f. height_of f < 2 ^ 32) }
{
    let names = distinct_names(alloc, &cells)?;
    let height = rows_beside(&cells);
    let columns = spread_each(alloc, cells, height)?;
    Ok(DataFrame::from_columns(columns, names))
}
