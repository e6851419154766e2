//! The cells of a context: their type, their shape, and each of them, lent.
ghost use Rattle.std.specs.Prelude.{◌≡◌, ◌<◌, Some, length, slice_get};
ghost use Rattle.px_column.specs.Prelude.{kind_of};
ghost use Rattle.px_context.specs.Context.{cell_kind, has_units};
ghost use Rattle.px_context.specs.IterView.{left_of};
ghost use Rattle.px_context.specs.Part.{parts_in};

use crate::agg_state::Layout;
use crate::context::AggregationContext;
use crate::group_iter::{GroupIter, items_type, values_at};
use crate::piece::GroupPiece;
use px_column::DataType;

impl<'a> AggregationContext<'a> {
    /// The type of the cells' values.
    pub fn cell_type(&self) -> &DataType
        ensures { kind_of result.now ≡ cell_kind self.now }
    {
        let dtype = self.get_values().dtype();
        match self.layout() {
            Layout::Lists => items_type(dtype),
            Layout::Scalars => dtype,
            Layout::Flat => dtype,
            Layout::Rows => dtype,
            Layout::Unit => dtype,
        }
    }

    /// Whether the cells are units: scalars, or a unit literal.
    pub fn has_units(&self) -> bool
        ensures { result ≡ has_units self.now.layout }
    {
        matches!(self.layout(), Layout::Scalars | Layout::Unit)
    }

    /// The cell of each group in order, lent, as `iter_groups` gives it.
    pub fn pieces(&self) -> GroupIter<'_>
        ensures cells { left_of result ≡ parts_in self.now.layout self.now.values self.now.groups }
        ensures each { length (left_of result) ≡ length self.now.groups.groups }
    {
        let layout = self.layout();
        GroupIter::new(self.get_values(), self.kept_groups(), layout)
    }

    /// The cell of a group, lent.
    pub fn piece(&self, group: u32) -> GroupPiece<'_>
        requires { group < length self.now.groups.groups }
        ensures { slice_get (parts_in self.now.layout self.now.values self.now.groups) group ≡ Some result }
    {
        let column = self.get_values();
        match self.layout() {
            Layout::Lists => {
                GroupPiece::of_items(items_type(column.dtype()), values_at(column, group))
            }
            Layout::Scalars => GroupPiece::of_row(column, group),
            Layout::Flat => GroupPiece::of_rows(column, self.kept_groups().group(group)),
            Layout::Rows => GroupPiece::of_column(column),
            Layout::Unit => GroupPiece::of_row(column, 0),
        }
    }
}
