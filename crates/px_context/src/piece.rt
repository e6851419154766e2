//! The cell of one group, lent.
ghost use Rattle.std.specs.Prelude.{◌≡◌, ◌+◌, ◌<◌, ◌≤◌, ◌^◌, IfSome, Ok, drop, length, take, true};
ghost use Rattle.std.specs.List.{range_with_len};
ghost use Rattle.px_column.specs.Prelude.{Answers, kind_of, slot_at, slot_fits, slot_of_ref, slots_fit};
ghost use Rattle.px_frame.specs.Cell.{unit, rows, count_of, list_of};
ghost use Rattle.px_frame.specs.Frame.{are_below, slots_at};
ghost use Rattle.px_frame.specs.Groups.{is_group};
ghost use Rattle.px_frame.specs.GroupsView.{lent_group};
ghost use Rattle.px_context.specs.Part.{part, is_unit_cell};

use px_column::{Column, ColumnBuilder, DataType, Name, Px, ValueRef, Values};
use px_frame::GroupsIndicator;
use std::alloc::Global;
use std::marker::Model;

/// What a piece lends.
#[derive(Clone, Copy)]
enum Source<'b> {
    /// The rows of a group.
    Rows(&'b Column, GroupsIndicator<'b>),
    /// The items of a list, and their type.
    Items(&'b DataType, &'b Values),
    /// All rows.
    Whole(&'b Column),
    /// One row, as a unit.
    Single(&'b Column, u32),
}

/// The cell of one group, lent; seen as the cell and the type of its values.
#[derive(Drop)]
pub struct GroupPiece<'b> {
    source: Source<'b>,
}

impl<'b> Model for GroupPiece<'b> {
    ghost use Rattle.px_context.specs.Part.{Part, coded_part};

    ghost Value = { Part };

    ghost coded = { coded_part };

    ghost use Rattle.px_context.specs.PieceView.{part_of, IsPiece};

    ghost view = { λ p. part_of p.source };

    ghost invariant = { λ p. IsPiece p.source };
}

/// The first row of a group of rows that stand one after another.
fn first_of(group: GroupsIndicator<'_>) -> Option<u32>
    requires { is_group (2 ^ 32) (lent_group group) ≡ true }
    ensures some { IfSome result (λ a. 0 < length (lent_group group.entry).rows) }
    ensures rows { IfSome result (λ a. (lent_group group.entry).rows ≡ range_with_len a (length (lent_group group.entry).rows)) }
{
    match group {
        GroupsIndicator::Idx(_, rows) => match rows.as_slice() {
            [row] => Some(*row),
            _ => None,
        },
        GroupsIndicator::Slice(range) => if range[1] == 0 { None } else { Some(range[0]) },
    }
}

impl<'b> GroupPiece<'b> {
    /// The rows of a group.
    pub(crate) fn of_rows(column: &'b Column, group: GroupsIndicator<'b>) -> GroupPiece<'b>
        requires group { is_group (2 ^ 32) (lent_group group) ≡ true }
        requires below { are_below (length column.now.slots) (lent_group group).rows ≡ true }
        ensures { result ≡ part column.now.kind (rows (slots_at column.now.slots (lent_group group.entry).rows)) }
    {
        GroupPiece {
            source: Source::Rows(column, group),
        }
    }

    /// The items of a list.
    pub(crate) fn of_items(dtype: &'b DataType, values: &'b Values) -> GroupPiece<'b>
        requires { slots_fit (kind_of dtype.now) values.now ≡ true }
        ensures { result ≡ part (kind_of dtype.now) (rows values.now) }
    {
        GroupPiece {
            source: Source::Items(dtype, values),
        }
    }

    /// All rows of a column.
    pub(crate) fn of_column(column: &'b Column) -> GroupPiece<'b>
        ensures { result ≡ part column.now.kind (rows column.now.slots) }
    {
        GroupPiece {
            source: Source::Whole(column),
        }
    }

    /// One row of a column, as a unit.
    pub(crate) fn of_row(column: &'b Column, row: u32) -> GroupPiece<'b>
        requires { row < length column.now.slots }
        ensures { result ≡ part column.now.kind (unit (slot_at column.now.slots row)) }
    {
        GroupPiece {
            source: Source::Single(column, row),
        }
    }

    /// Whether the cell is a unit.
    pub fn is_unit(&self) -> bool
        ensures { result ≡ is_unit_cell self.now.cell }
    {
        matches!(self.source, Source::Single(_, _))
    }

    /// The number of values, 1 for a unit.
    pub fn len(&self) -> u32
        ensures { result ≡ count_of self.now.cell }
    {
        match self.source {
            Source::Rows(_, group) => group.len(),
            Source::Items(_, values) => values.len(),
            Source::Whole(column) => column.len(),
            Source::Single(_, _) => 1,
        }
    }

    /// The type of the values.
    fn dtype(&self) -> &DataType
        ensures { kind_of result.now ≡ self.now.kind }
    {
        match self.source {
            Source::Rows(column, _) => column.dtype(),
            Source::Items(dtype, _) => dtype,
            Source::Whole(column) => column.dtype(),
            Source::Single(column, _) => column.dtype(),
        }
    }

    /// The value at a place below the number of values, `None` where it is a null.
    pub fn get(&self, index: u32) -> Option<ValueRef<'b>>
        requires { index < count_of self.now.cell }
        ensures value { slot_of_ref result ≡ slot_at (list_of self.now.cell) index }
        ensures fits { slot_fits self.now.kind (slot_of_ref result) ≡ true }
    {
        match self.source {
            Source::Rows(column, group) => column.get(group.row(index)),
            Source::Items(_, values) => values.get(index),
            Source::Whole(column) => column.get(index),
            Source::Single(column, row) => column.get(row),
        }
    }

    /// A column in which the values stand one after another, and from which row on, where they do.
    fn window(&self) -> Option<(&'b Column, u32)>
        ensures kind { IfSome result (λ w. w.0.now.kind ≡ self.now.kind) }
        ensures within { IfSome result (λ w. w.1 + count_of self.now.cell ≤ length w.0.now.slots) }
        ensures same { IfSome result (λ w. take (count_of self.now.cell) (drop w.1 w.0.now.slots) ≡ list_of self.now.cell) }
    {
        match self.source {
            Source::Rows(column, group) => Some((column, first_of(group)?)),
            Source::Items(_, _) => None,
            Source::Whole(column) => Some((column, 0)),
            Source::Single(column, row) => Some((column, row)),
        }
    }

    /// The values as a column of this name, copied.
    fn copy_values(&self, alloc: Global, name: Name) -> Px<Column>
        ensures { Answers result (Ok (record { name = name; kind = self.now.kind; slots = list_of self.now.cell })) }
    {
        let dtype = self.dtype().try_clone(alloc)?;
        let mut rows = ColumnBuilder::new(alloc, name, dtype, self.len())?;
        for index in 0..self.len() {
            rows.push_ref(self.get(index))?;
        }
        rows.finish()
    }

    /// The values as a column of this name, which shares them where they stand one after another in a
    /// column.
    pub fn to_column(&self, alloc: Global, name: Name) -> Px<Column>
        ensures { Answers result (Ok (record { name = name; kind = self.now.kind; slots = list_of self.now.cell })) }
    {
        match self.window() {
            None => self.copy_values(alloc, name),
            Some((column, first)) => {
                let window = column.window(alloc, first, self.len())?;
                Ok(window.with_name(name))
            }
        }
    }
}
