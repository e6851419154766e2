//! How the values of a context are kept.
ghost use Rattle.std.specs.Prelude.{◌≡◌, Bool, IfOk, Ok};
ghost use Rattle.px_column.specs.Prelude.{AnswersBy};
ghost use Rattle.px_context.specs.Changes.{is_pending};
ghost use Rattle.px_context.specs.LentView.{layout_of, values_of};

use crate::lent::ColRef;
use px_column::{Column, Name, Px};
use std::alloc::Global;

/// How the values of a context are kept (polars `AggState`).
#[derive(Drop)]
pub enum AggState<'a> {
    /// One list for each group.
    AggregatedList(ColRef<'a>),
    /// One value for each group.
    AggregatedScalar(ColRef<'a>),
    /// The rows to which the groups point.
    NotAggregated(ColRef<'a>),
    /// The same for each group.
    Literal(ColRef<'a>),
}

/// What becomes of the groups once they are asked for (polars `UpdateGroups`).
#[derive(Clone, Copy, Debug, PartialEq, Eq)]
pub enum UpdateGroups {
    /// They stay.
    No,
    /// They become slices as long as the lists, since the lists have been made of other groups.
    WithGroupsLen,
    /// They become slices as long as the lists, since the lists have other lengths than the groups.
    WithSeriesLen,
}

/// How a context is laid out: its state, and of a literal whether it is a unit.
#[derive(Clone, Copy, Debug, PartialEq, Eq)]
pub enum Layout {
    /// One list for each group.
    Lists,
    /// One value for each group.
    Scalars,
    /// The rows to which the groups point.
    Flat,
    /// A literal of rows.
    Rows,
    /// A literal of one value.
    Unit,
}

impl<'a> AggState<'a> {
    /// The column of values.
    pub(crate) fn column(&self) -> &Column
        ensures { result.now ≡ values_of self.now }
    {
        match self {
            AggState::AggregatedList(column) => column.get(),
            AggState::AggregatedScalar(column) => column.get(),
            AggState::NotAggregated(column) => column.get(),
            AggState::Literal(column) => column.get(),
        }
    }

    /// The same with the column under another name.
    pub(crate) fn with_name(self, alloc: Global, name: Name) -> Px<AggState<'a>>
        ensures values { AnswersBy values_of result (Ok (record (values_of self.entry) { name = name })) }
        ensures layout { IfOk result (λ s. (unit : Bool) → layout_of unit s ≡ layout_of unit self.entry) }
    {
        match self {
            AggState::AggregatedList(column) => {
                Ok(AggState::AggregatedList(column.with_name(alloc, name)?))
            }
            AggState::AggregatedScalar(column) => {
                Ok(AggState::AggregatedScalar(column.with_name(alloc, name)?))
            }
            AggState::NotAggregated(column) => {
                Ok(AggState::NotAggregated(column.with_name(alloc, name)?))
            }
            AggState::Literal(column) => Ok(AggState::Literal(column.with_name(alloc, name)?)),
        }
    }
}

impl UpdateGroups {
    /// Whether the groups are to be rebuilt.
    pub(crate) fn is_pending(self) -> bool
        ensures { result ≡ is_pending self }
    {
        !matches!(self, UpdateGroups::No)
    }
}
