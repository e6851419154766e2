//! The cells of a context, lent one after another.
ghost use Rattle.std.specs.Prelude.{◌≡◌, ◌<◌, IsTrue, Some, length, true};
ghost use Rattle.std.specs.List.{list_all};
ghost use Rattle.px_column.specs.Prelude.{datum_of_ref, is_list_kind, kind_of, slot_at, slots_fit};
ghost use Rattle.px_context.specs.Context.{HasShape, is_list_slot, item_kind, items_at, items_of};
ghost use Rattle.px_context.specs.Part.{part, parts_in};

use crate::agg_state::Layout;
use crate::piece::GroupPiece;
use px_column::{Column, DataType, ValueRef, Values};
use px_frame::GroupPositions;
use std::iter::ExactSizeIterator;

/// The items of a list.
#[tactic(auto, using(crate::proofs::Reading::slots_back))]
fn list_values<'b>(value: ValueRef<'b>) -> &'b Values
    requires { is_list_slot (Some (datum_of_ref value)) ≡ true }
    ensures { result.now ≡ items_of (datum_of_ref value.entry) }
{
    match value {
        ValueRef::List(values) => values,
        _ => unreachable!(),
    }
}

/// The items of the list at a row.
#[tactic(auto, using(crate::proofs::Reading::fit_items_at))]
pub(crate) fn values_at<'b>(column: &'b Column, row: u32) -> &'b Values
    requires within { row < length column.now.slots }
    requires kind { is_list_kind column.now.kind ≡ true }
    requires list { is_list_slot (slot_at column.now.slots row) ≡ true }
    ensures values { result.now ≡ items_at (slot_at column.now.slots row) }
    ensures fit { slots_fit (item_kind column.now.kind) result.now ≡ true }
{
    match column.get(row) {
        Some(value) => list_values(value),
        None => unreachable!(),
    }
}

/// The type of the items of lists.
pub(crate) fn items_type(dtype: &DataType) -> &DataType
    ensures { kind_of result.now ≡ item_kind (kind_of dtype.now) }
{
    match dtype {
        DataType::List(inner) => inner,
        _ => dtype,
    }
}

/// The cells of a literal that are left: the same for each group (polars `LitIter`).
#[derive(Drop)]
pub struct LitIter<'b> {
    column: &'b Column,
    is_unit: bool,
    left: u32,
    ghost one: { IsTrue is_unit → length column.now.slots ≡ 1 },
}

/// The cells of scalars that are left: a unit for each group (polars `FlatIter`).
#[derive(Drop)]
pub struct FlatIter<'b> {
    column: &'b Column,
    at: u32,
}

/// The cells of lists that are left: the items of a list for each group.
#[derive(Drop)]
pub struct ListIter<'b> {
    column: &'b Column,
    at: u32,
    ghost kind: { is_list_kind column.now.kind ≡ true },
    ghost present: { list_all is_list_slot column.now.slots ≡ true },
}

/// The cells of flat values that are left: the values at the rows of each group.
#[derive(Drop)]
pub struct RowsIter<'b> {
    column: &'b Column,
    groups: &'b GroupPositions,
    at: u32,
    ghost height: { length column.now.slots ≡ groups.now.height },
}

/// The cells of the groups that are left, one for each, by the state of their context.
#[derive(Drop)]
pub enum GroupIter<'b> {
    /// Of a literal.
    Literal(LitIter<'b>),
    /// Of scalars.
    Scalars(FlatIter<'b>),
    /// Of lists.
    Lists(ListIter<'b>),
    /// Of flat values.
    Rows(RowsIter<'b>),
}

impl<'b> Iterator for LitIter<'b> {
    ghost use Rattle.std.specs.Prelude.{◌≡◌, IfSome, Some, length};
    ghost use Rattle.std.specs.Iterator.{UpTo, YieldsFirst, item_count};
    ghost use Rattle.std.specs.Iterator.SizeHint.{IsWithinCount};
    ghost use Rattle.px_context.specs.IterView.{literal_left};

    type Item = GroupPiece<'b>;

    ghost next_gives = { YieldsFirst literal_left };

    ghost remaining = { item_count literal_left };

    fn next(&mut self) -> Option<GroupPiece<'b>> {
        if self.left == 0 {
            return None;
        }
        self.left -= 1;
        if self.is_unit {
            Some(GroupPiece::of_row(self.column, 0))
        } else {
            Some(GroupPiece::of_column(self.column))
        }
    }

    fn size_hint(&self) -> (usize, Option<usize>)
        ensures lower { IsWithinCount result.0 (item_count literal_left self.now) }
        ensures upper { IfSome result.1 (UpTo (item_count literal_left self.now)) }
        ensures exact { result ≡ (length (literal_left self.now), Some (length (literal_left self.now))) }
    {
        let len = self.len();
        (len, Some(len))
    }
}

impl<'b> ExactSizeIterator for LitIter<'b> {
    fn len(&self) -> usize {
        self.left as usize
    }
}

impl<'b> Iterator for FlatIter<'b> {
    ghost use Rattle.std.specs.Prelude.{◌≡◌, IfSome, Some, length};
    ghost use Rattle.std.specs.Iterator.{UpTo, YieldsFirst, item_count};
    ghost use Rattle.std.specs.Iterator.SizeHint.{IsWithinCount};
    ghost use Rattle.px_context.specs.IterView.{scalars_left};

    type Item = GroupPiece<'b>;

    ghost next_gives = { YieldsFirst scalars_left };

    ghost remaining = { item_count scalars_left };

    fn next(&mut self) -> Option<GroupPiece<'b>> {
        if self.at >= self.column.len() {
            return None;
        }
        let piece = GroupPiece::of_row(self.column, self.at);
        self.at += 1;
        Some(piece)
    }

    fn size_hint(&self) -> (usize, Option<usize>)
        ensures lower { IsWithinCount result.0 (item_count scalars_left self.now) }
        ensures upper { IfSome result.1 (UpTo (item_count scalars_left self.now)) }
        ensures exact { result ≡ (length (scalars_left self.now), Some (length (scalars_left self.now))) }
    {
        let len = self.len();
        (len, Some(len))
    }
}

impl<'b> ExactSizeIterator for FlatIter<'b> {
    fn len(&self) -> usize {
        self.column.len().saturating_sub(self.at) as usize
    }
}

impl<'b> Iterator for ListIter<'b> {
    ghost use Rattle.std.specs.Prelude.{◌≡◌, IfSome, Some, length};
    ghost use Rattle.std.specs.Iterator.{UpTo, YieldsFirst, item_count};
    ghost use Rattle.std.specs.Iterator.SizeHint.{IsWithinCount};
    ghost use Rattle.px_context.specs.IterView.{lists_left};

    type Item = GroupPiece<'b>;

    ghost next_gives = { YieldsFirst lists_left };

    ghost remaining = { item_count lists_left };

    fn next(&mut self) -> Option<GroupPiece<'b>> {
        if self.at >= self.column.len() {
            return None;
        }
        let items = values_at(self.column, self.at);
        let piece = GroupPiece::of_items(items_type(self.column.dtype()), items);
        self.at += 1;
        Some(piece)
    }

    fn size_hint(&self) -> (usize, Option<usize>)
        ensures lower { IsWithinCount result.0 (item_count lists_left self.now) }
        ensures upper { IfSome result.1 (UpTo (item_count lists_left self.now)) }
        ensures exact { result ≡ (length (lists_left self.now), Some (length (lists_left self.now))) }
    {
        let len = self.len();
        (len, Some(len))
    }
}

impl<'b> ExactSizeIterator for ListIter<'b> {
    fn len(&self) -> usize {
        self.column.len().saturating_sub(self.at) as usize
    }
}

impl<'b> Iterator for RowsIter<'b> {
    ghost use Rattle.std.specs.Prelude.{◌≡◌, IfSome, Some, length};
    ghost use Rattle.std.specs.Iterator.{UpTo, YieldsFirst, item_count};
    ghost use Rattle.std.specs.Iterator.SizeHint.{IsWithinCount};
    ghost use Rattle.px_context.specs.IterView.{rows_left};

    type Item = GroupPiece<'b>;

    ghost next_gives = { YieldsFirst rows_left };

    ghost remaining = { item_count rows_left };

    fn next(&mut self) -> Option<GroupPiece<'b>> {
        if self.at >= self.groups.len() {
            return None;
        }
        let piece = GroupPiece::of_rows(self.column, self.groups.group(self.at));
        self.at += 1;
        Some(piece)
    }

    fn size_hint(&self) -> (usize, Option<usize>)
        ensures lower { IsWithinCount result.0 (item_count rows_left self.now) }
        ensures upper { IfSome result.1 (UpTo (item_count rows_left self.now)) }
        ensures exact { result ≡ (length (rows_left self.now), Some (length (rows_left self.now))) }
    {
        let len = self.len();
        (len, Some(len))
    }
}

impl<'b> ExactSizeIterator for RowsIter<'b> {
    fn len(&self) -> usize {
        self.groups.len().saturating_sub(self.at) as usize
    }
}

impl<'b> GroupIter<'b> {
    ghost use Rattle.std.specs.Prelude.{map, replicate};
    ghost use Rattle.px_context.specs.IterView.{left_of, literal_cell};

    /// The cells of a literal, one for each of so many groups.
    fn of_literal(column: &'b Column, is_unit: bool, left: u32) -> GroupIter<'b>
        requires { IsTrue is_unit → length column.now.slots ≡ 1 }
        ensures { left_of result ≡ map (part column.now.kind) (replicate left (literal_cell is_unit column.now)) }
    {
        GroupIter::Literal(LitIter {
            column,
            is_unit,
            left,
        })
    }

    /// The cells of all groups.
    pub(crate) fn new(
        column: &'b Column,
        groups: &'b GroupPositions,
        layout: Layout,
    ) -> GroupIter<'b>
        requires { HasShape layout column.now groups.now }
        ensures { left_of result ≡ parts_in layout column.now groups.now }
    {
        let at = 0;
        match layout {
            Layout::Lists => GroupIter::Lists(ListIter { column, at }),
            Layout::Scalars => GroupIter::Scalars(FlatIter { column, at }),
            Layout::Flat => GroupIter::Rows(RowsIter { column, groups, at }),
            Layout::Rows => GroupIter::of_literal(column, false, groups.len()),
            Layout::Unit => GroupIter::of_literal(column, true, groups.len()),
        }
    }
}

impl<'b> Iterator for GroupIter<'b> {
    ghost use Rattle.std.specs.Prelude.{◌≡◌, IfSome, Some, length};
    ghost use Rattle.std.specs.Iterator.{UpTo, YieldsFirst, item_count};
    ghost use Rattle.std.specs.Iterator.SizeHint.{IsWithinCount};
    ghost use Rattle.px_context.specs.IterView.{left_of};

    type Item = GroupPiece<'b>;

    ghost next_gives = { YieldsFirst left_of };

    ghost remaining = { item_count left_of };

    fn next(&mut self) -> Option<GroupPiece<'b>> {
        match self {
            GroupIter::Literal(cells) => cells.next(),
            GroupIter::Scalars(cells) => cells.next(),
            GroupIter::Lists(cells) => cells.next(),
            GroupIter::Rows(cells) => cells.next(),
        }
    }

    fn size_hint(&self) -> (usize, Option<usize>)
        ensures lower { IsWithinCount result.0 (item_count left_of self.now) }
        ensures upper { IfSome result.1 (UpTo (item_count left_of self.now)) }
        ensures exact { result ≡ (length (left_of self.now), Some (length (left_of self.now))) }
    {
        let len = self.len();
        (len, Some(len))
    }
}

impl<'b> ExactSizeIterator for GroupIter<'b> {
    fn len(&self) -> usize {
        match self {
            GroupIter::Literal(cells) => cells.len(),
            GroupIter::Scalars(cells) => cells.len(),
            GroupIter::Lists(cells) => cells.len(),
            GroupIter::Rows(cells) => cells.len(),
        }
    }
}
