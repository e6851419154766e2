//! Groups put in order, and laid out one after another.
ghost use Rattle.std.specs.Prelude.{◌≡◌, ◌<◌, ◌^◌, Ok, IfOk, OnOk, length, map};
ghost use Rattle.px_column.specs.Prelude.{Answers, AnswersBy};
ghost use Rattle.px_frame.specs.Consecutive.{consecutive};
ghost use Rattle.px_frame.specs.Groups.{IsGroups, lengths_of};
ghost use Rattle.px_frame.specs.GroupsView.{groups_of, idx_group, slice_group};
ghost use Rattle.px_frame.specs.InOrder.{IsByFirst};

use crate::groups::{GroupPositions, GroupsType, IdxVec};
use px_column::{ComputeWhy, Px, PxError};
use std::alloc::Global;

fn sort_lists(groups: &mut Vec<(u32, IdxVec)>) -> Px<()>
    ensures answer { Answers result (Ok tt) }
    ensures sorted { OnOk result (IsByFirst (map idx_group groups.old.items) (map idx_group groups.new.items)) }
{
    groups.sort_by_key(|group| group.0)?;
    Ok(())
}

fn sort_slices(slices: &mut Vec<[u32; 2]>) -> Px<()>
    ensures answer { Answers result (Ok tt) }
    ensures sorted { OnOk result (IsByFirst (map slice_group slices.old.items) (map slice_group slices.new.items)) }
{
    slices.sort_by_key(|slice| slice[0])?;
    Ok(())
}

impl GroupsType {
    /// The groups by their numbers `first`, those of one number in the order in which they stood.
    pub(crate) fn order_by_first(mut self) -> Px<GroupsType>
        ensures answer { AnswersBy (λ _. tt {0}) result (Ok (tt {0})) }
        ensures sorted { IfOk result (λ g. IsByFirst (groups_of self) (groups_of g)) }
    {
        match &mut self {
            GroupsType::Idx(groups) => sort_lists(groups)?,
            GroupsType::Slice { groups, .. } => sort_slices(groups)?,
        }
        Ok(self)
    }
}

impl GroupPositions {
    /// Slices of these lengths, one after another from the first row on, with the sum of all lengths as
    /// height; `TooLong` where that reaches 2^32.
    pub fn slices_of_lengths(alloc: Global, lengths: &[u32]) -> Px<GroupPositions>
        requires { length lengths.now < 2 ^ 32 }
        ensures { Answers result (consecutive lengths.now) }
    {
        let mut groups = Vec::with_capacity(alloc, lengths.len())?;
        let mut height = 0u32;
        for len in lengths {
            let Some(end) = height.checked_add(*len) else {
                return Err(PxError::ComputeError(ComputeWhy::TooLong));
            };
            groups.push([height, *len])?;
            height = end;
        }
        Ok(GroupPositions::from_slices(groups, height))
    }

    /// The number of rows of each group, in the order of the groups.
    pub fn lengths(&self, alloc: Global) -> Px<Vec<u32>>
        ensures lengths { AnswersBy (λ v. v.items) result (Ok (lengths_of self.now)) }
        ensures groups { IsGroups self.now.height self.now.groups }
    {
        let mut lengths = Vec::with_capacity(alloc, self.len() as usize)?;
        for index in 0..self.len() {
            lengths.push(self.group(index).len())?;
        }
        Ok(lengths)
    }

    /// Slices as long as these groups, one after another, with the sum of all lengths as height;
    /// `TooLong` where all lengths together reach 2^32 (polars `GroupPositions::unroll`).
    pub fn unroll(self, alloc: Global) -> Px<GroupPositions>
        ensures { Answers result (consecutive (lengths_of self)) }
    {
        let lengths = self.lengths(alloc)?;
        GroupPositions::slices_of_lengths(alloc, &lengths)
    }
}
