//! Groups of rows (polars `GroupsType` and `GroupPositions`).
ghost use Rattle.std.specs.Prelude.{◌≡◌, ◌<◌, ◌==◌, ◌^◌, Ok, IfOk, Some, length, map, slice_get, slice_index, true};
ghost use Rattle.px_column.specs.Prelude.{Answers, AnswersBy};
ghost use Rattle.px_frame.specs.Frame.{are_below};
ghost use Rattle.px_frame.specs.Groups.{is_group};
ghost use Rattle.px_frame.specs.InOrder.{IsByFirst};
ghost use Rattle.px_frame.specs.GroupsView.{all_end_within, all_rows_below, idx_group};

use px_column::{Px, PxError};
use smallvec::SmallVec;
use std::alloc::Global;
use std::marker::Model;

/// The row numbers of a group, with room for one inline.
pub type IdxVec = SmallVec<u32, 1>;

/// How groups are kept (polars `GroupsType`).
pub enum GroupsType {
    /// For each group a number `first` and its rows.
    Idx(Vec<(u32, IdxVec)>),
    /// Rows that follow one another.
    Slice {
        /// For each group its first row, which is its number `first`, and the number of its rows.
        groups: Vec<[u32; 2]>,
        /// Whether the slices roll over the rows; changes no result.
        rolling: bool,
    },
}

/// One call where groups are let go, so that proofs see no case of them.
impl Drop for GroupsType {
    fn drop(self) {
        match self {
            GroupsType::Idx(_groups) => {}
            GroupsType::Slice {
                groups: _groups,
                rolling: _,
            } => {}
        }
    }
}

/// Groups with the height that bounds their rows. A group may be empty, may overlap others and may
/// repeat rows. Seen as the height and, for each group, its number `first` and its rows.
pub struct GroupPositions {
    groups: GroupsType,
    height: u32,
}

/// One call where groups are let go, so that proofs see no more of what is inside.
impl Drop for GroupPositions {
    fn drop(self) {
        let GroupPositions {
            groups: _groups,
            height: _,
        } = self;
    }
}

impl Model for GroupPositions {
    ghost use Rattle.px_frame.specs.Groups.{Groups};

    ghost Value = { Groups };

    ghost use Rattle.px_frame.specs.Groups.{IsGroups};
    ghost use Rattle.px_frame.specs.GroupsView.{groups_of};

    ghost view = { λ g. record { height = g.height; groups = groups_of g.groups } };

    ghost invariant = { λ g. IsGroups g.height (groups_of g.groups) };
}

/// One group, lent (polars `GroupsIndicator`).
#[derive(Clone, Copy)]
pub enum GroupsIndicator<'a> {
    /// Its number `first`, and its rows.
    Idx(u32, &'a IdxVec),
    /// Its first row, and the number of its rows.
    Slice([u32; 2]),
}

impl GroupsIndicator<'_> {
    ghost use Rattle.px_frame.specs.GroupsView.{lent_group};

    /// The number of rows, of which there are fewer than 2^32.
    pub fn len(&self) -> u32
        requires { length (lent_group self.now).rows < 2 ^ 32 }
        ensures { result ≡ length (lent_group self.now).rows }
    {
        match self {
            GroupsIndicator::Idx(_, rows) => rows.len() as u32,
            GroupsIndicator::Slice(range) => range[1],
        }
    }

    /// The row at a place below the number of rows, of which each is below 2^32.
    pub fn row(&self, index: u32) -> u32
        requires group { is_group (2 ^ 32) (lent_group self.now) ≡ true }
        requires within { index < length (lent_group self.now).rows }
        ensures { result ≡ slice_index (lent_group self.now).rows index }
    {
        match self {
            GroupsIndicator::Idx(_, rows) => rows.as_slice()[index as usize],
            GroupsIndicator::Slice(range) => range[0] + index,
        }
    }

    /// A copy of the rows in their order.
    pub fn to_rows(&self, alloc: Global) -> Px<Vec<u32>>
        requires { is_group (2 ^ 32) (lent_group self.now) ≡ true }
        ensures { AnswersBy (λ v. v.items) result (Ok (lent_group self.now).rows) }
    {
        let mut rows = Vec::with_capacity(alloc, self.len() as usize)?;
        for index in 0..self.len() {
            rows.push(self.row(index))?;
        }
        Ok(rows)
    }
}

fn are_below(height: u32, rows: &[u32]) -> bool
    ensures { result ≡ are_below height rows.now }
{
    for row in rows {
        if *row >= height {
            return false;
        }
    }
    true
}

/// Whether the rows of each index group are below the height.
fn all_rows_below(height: u32, groups: &[(u32, IdxVec)]) -> bool
    ensures { result ≡ all_rows_below height groups.now }
{
    for group in groups {
        if !are_below(height, group.1.as_slice()) {
            return false;
        }
    }
    true
}

/// Whether each slice ends within the height.
fn all_end_within(height: u32, slices: &[[u32; 2]]) -> bool
    ensures { result ≡ all_end_within height slices.now }
{
    for slice in slices {
        if u64::from(slice[0]) + u64::from(slice[1]) > u64::from(height) {
            return false;
        }
    }
    true
}

/// Index groups with the same rows in lists of their own.
fn copy_lists(alloc: Global, groups: &[(u32, IdxVec)]) -> Px<Vec<(u32, IdxVec)>>
    ensures { AnswersBy (λ v. map idx_group v.items) result (Ok (map idx_group groups.now)) }
{
    let mut copies = Vec::with_capacity(alloc, groups.len())?;
    for group in groups {
        let rows = IdxVec::from_slice(alloc, group.1.as_slice())?;
        copies.push((group.0, rows))?;
    }
    Ok(copies)
}

impl GroupsType {
    ghost use Rattle.px_frame.specs.GroupsView.{groups_of, is_within, lent_group};

    /// The same groups, index lists and slices as they are.
    fn try_clone(&self, alloc: Global) -> Px<GroupsType>
        ensures { AnswersBy groups_of result (Ok (groups_of self.now)) }
    {
        match self {
            GroupsType::Idx(groups) => Ok(GroupsType::Idx(copy_lists(alloc, groups)?)),
            GroupsType::Slice { groups, rolling } => Ok(GroupsType::Slice {
                groups: Vec::from_slice(alloc, groups)?,
                rolling: *rolling,
            }),
        }
    }

    fn is_within(&self, height: u32) -> bool
        ensures { result ≡ is_within height self.now }
    {
        match self {
            GroupsType::Idx(groups) => all_rows_below(height, groups),
            GroupsType::Slice { groups, .. } => all_end_within(height, groups),
        }
    }

    fn group(&self, index: u32) -> GroupsIndicator<'_>
        requires { index < length (groups_of self.now) }
        ensures { slice_get (groups_of self.now) index ≡ Some (lent_group result) }
    {
        match self {
            GroupsType::Idx(groups) => {
                let (first, rows) = &groups[index as usize];
                GroupsIndicator::Idx(*first, rows)
            }
            GroupsType::Slice { groups, .. } => GroupsIndicator::Slice(groups[index as usize]),
        }
    }
}

impl GroupPositions {
    ghost use Rattle.px_frame.specs.Groups.{IsGroups};
    ghost use Rattle.px_frame.specs.GroupsView.{are_short, groups_of, groups_within, idx_group, lent_group, slice_group};

    /// These groups, of which there are fewer than 2^32, each of fewer than 2^32 rows; `OutOfBounds`
    /// where a row is not below the height or a slice ends past it. Takes no memory.
    pub fn new(groups: GroupsType, height: u32) -> Px<GroupPositions>
        requires few { length (groups_of groups) < 2 ^ 32 }
        requires short { are_short groups ≡ true }
        ensures { result ≡ groups_within height groups }
    {
        if groups.is_within(height) {
            Ok(GroupPositions { groups, height })
        } else {
            Err(PxError::OutOfBounds)
        }
    }

    /// Groups that are known to have rows below the height.
    pub(crate) fn from_rows(groups: Vec<(u32, IdxVec)>, height: u32) -> GroupPositions
        requires { IsGroups height (map idx_group groups.items) }
        ensures { result ≡ record { height = height; groups = map idx_group groups.items } }
    {
        GroupPositions {
            groups: GroupsType::Idx(groups),
            height,
        }
    }

    /// Slices that are known to end within the height.
    pub(crate) fn from_slices(groups: Vec<[u32; 2]>, height: u32) -> GroupPositions
        requires { IsGroups height (map slice_group groups.items) }
        ensures { result ≡ record { height = height; groups = map slice_group groups.items } }
    {
        GroupPositions {
            groups: GroupsType::Slice {
                groups,
                rolling: false,
            },
            height,
        }
    }

    /// The number of groups.
    pub fn len(&self) -> u32
        ensures len { result ≡ length self.now.groups }
        ensures groups { IsGroups self.now.height self.now.groups }
    {
        match &self.groups {
            GroupsType::Idx(groups) => groups.len() as u32,
            GroupsType::Slice { groups, .. } => groups.len() as u32,
        }
    }

    /// Whether there is no group.
    pub fn is_empty(&self) -> bool
        ensures { result ≡ (length self.now.groups == 0) }
    {
        self.len() == 0
    }

    /// The height that bounds the rows.
    pub fn height(&self) -> u32
        ensures { result ≡ self.now.height }
    {
        self.height
    }

    /// The group at a place.
    pub fn group(&self, index: u32) -> GroupsIndicator<'_>
        requires { index < length self.now.groups }
        ensures group { slice_get self.now.groups index ≡ Some (lent_group result) }
        ensures short { length (lent_group result).rows < 2 ^ 32 }
        ensures bounded { is_group (2 ^ 32) (lent_group result) ≡ true }
        ensures below { are_below self.now.height (lent_group result).rows ≡ true }
    {
        let _height = self.height;
        self.groups.group(index)
    }

    /// Equal groups, which own copies of the lists and slices (polars `GroupsType::clone`).
    pub fn try_clone(&self, alloc: Global) -> Px<GroupPositions>
        ensures { Answers result (Ok self.now) }
    {
        Ok(GroupPositions {
            groups: self.groups.try_clone(alloc)?,
            height: self.height,
        })
    }

    /// The same groups by their numbers `first`, those of one number in the order in which they stood
    /// (polars `sort_groups`).
    pub fn sort_groups(self, _alloc: Global) -> Px<GroupPositions>
        ensures answer { AnswersBy (λ _. tt {0}) result (Ok (tt {0})) }
        ensures height { IfOk result (λ g. g.height ≡ self.height) }
        ensures sorted { IfOk result (λ g. IsByFirst self.groups g.groups) }
    {
        let GroupPositions { groups, height } = self;
        let groups = groups.order_by_first()?;
        Ok(GroupPositions { groups, height })
    }
}
