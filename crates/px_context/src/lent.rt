//! Columns and groups that are lent, or owned.
ghost use Rattle.std.specs.Prelude.{◌≡◌, Ok};
ghost use Rattle.px_column.specs.Prelude.{Answers, AnswersBy};
ghost use Rattle.px_context.specs.LentView.{series_of, groups_in};

use px_column::{Column, Name, Px};
use px_frame::GroupPositions;
use std::alloc::Global;

/// A column that is lent, or owned.
pub enum ColRef<'a> {
    /// A column that another owns.
    Borrowed(&'a Column),
    /// A column of its own.
    Owned(Column),
}

/// One call where a column is let go, so that proofs see no case of it.
impl Drop for ColRef<'_> {
    fn drop(self) {
        match self {
            ColRef::Borrowed(_column) => {}
            ColRef::Owned(_column) => {}
        }
    }
}

/// Groups that are lent, or owned (polars `Cow<'a, GroupPositions>`).
pub enum GroupsRef<'a> {
    /// Groups that another owns.
    Borrowed(&'a GroupPositions),
    /// Groups of its own.
    Owned(GroupPositions),
}

/// One call where groups are let go, so that proofs see no case of them.
impl Drop for GroupsRef<'_> {
    fn drop(self) {
        match self {
            GroupsRef::Borrowed(_groups) => {}
            GroupsRef::Owned(_groups) => {}
        }
    }
}

impl<'a> ColRef<'a> {
    /// The column.
    pub fn get(&self) -> &Column
        ensures { result.now ≡ series_of self.now }
    {
        match self {
            ColRef::Borrowed(column) => column,
            ColRef::Owned(column) => column,
        }
    }

    /// The column, or an equal one where it is lent.
    pub fn into_owned(self, alloc: Global) -> Px<Column>
        ensures { Answers result (Ok (series_of self.entry)) }
    {
        match self {
            ColRef::Borrowed(column) => column.try_clone(alloc),
            ColRef::Owned(column) => Ok(column),
        }
    }

    /// The column under another name.
    pub(crate) fn with_name(self, alloc: Global, name: Name) -> Px<ColRef<'a>>
        ensures { AnswersBy series_of result (Ok (record (series_of self.entry) { name = name })) }
    {
        let column = self.into_owned(alloc)?;
        Ok(ColRef::Owned(column.with_name(name)))
    }
}

impl GroupsRef<'_> {
    /// The groups.
    pub fn get(&self) -> &GroupPositions
        ensures { result.now ≡ groups_in self.now }
    {
        match self {
            GroupsRef::Borrowed(groups) => groups,
            GroupsRef::Owned(groups) => groups,
        }
    }
}
