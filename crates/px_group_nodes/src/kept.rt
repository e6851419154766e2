//! The groups of the rows that a mask keeps.
ghost use Rattle.std.specs.Prelude.{◌≡◌, ◌^◌, [], Ok, filter, length, map, replicate, true};
ghost use Rattle.std.specs.List.{list_all};
ghost use Rattle.px_column.specs.Prelude.{Answers, AnswersBy, slot_of_ref};
ghost use Rattle.px_column.specs.Rows.{is_true};
ghost use Rattle.px_frame.specs.Cell.{rows};
ghost use Rattle.px_frame.specs.Frame.{are_below};
ghost use Rattle.px_frame.specs.Groups.{IsGroups, first_row, group_of, is_group};
ghost use Rattle.px_frame.specs.GroupsView.{idx_group, lent_group};
ghost use Rattle.px_group_nodes.specs.Kept.{has_one_row, kept_group, kept_groups, truth_at};

use px_column::{Column, Px, ValueRef};
use px_frame::{GroupPositions, GroupsIndicator, GroupsType, IdxVec};
use std::alloc::Global;

/// Whether a place holds true; a null does not.
pub(crate) fn is_true(slot: Option<ValueRef<'_>>) -> bool
    ensures { result ≡ is_true (slot_of_ref slot.entry) }
{
    match slot {
        Some(ValueRef::Boolean(truth)) => truth,
        _ => false,
    }
}

/// Whether a column is true at every row.
pub(crate) fn is_all_true(column: &Column) -> bool
    ensures { result ≡ list_all is_true column.now.slots }
{
    for row in column.rows() {
        if !is_true(row) {
            return false;
        }
    }
    true
}

/// The rows of a group at which a mask is true.
fn keep_rows(alloc: Global, mask: &Column, group: GroupsIndicator<'_>) -> Px<IdxVec>
    requires group { is_group (2 ^ 32) (lent_group group) ≡ true }
    requires below { are_below (length mask.now.slots) (lent_group group).rows ≡ true }
    ensures { AnswersBy (λ v. v.items) result (Ok (filter (truth_at (rows mask.now.slots)) (lent_group group.entry).rows)) }
{
    let mut rows = IdxVec::new(alloc);
    for index in 0..group.len() {
        let row = group.row(index);
        if is_true(mask.get(row)) {
            rows.push(row)?;
        }
    }
    Ok(rows)
}

/// The first row, and 0 where there is none.
pub(crate) fn first_row(rows: &[u32]) -> u32
    ensures { result ≡ first_row rows.now }
{
    match rows.first() {
        None => 0,
        Some(row) => *row,
    }
}

/// The rows of each group at which a mask is true, beside the first of them.
fn keep_each(alloc: Global, mask: &Column, groups: &GroupPositions) -> Px<Vec<(u32, IdxVec)>>
    requires { length mask.now.slots ≡ groups.now.height }
    ensures answer { AnswersBy (λ v. map idx_group v.items) result (Ok (map (kept_group (rows mask.now.slots)) groups.now.groups)) }
    ensures groups { IsGroups groups.now.height groups.now.groups }
{
    let mut kept = Vec::with_capacity(alloc, groups.len() as usize)?;
    for index in 0..groups.len() {
        let rows = keep_rows(alloc, mask, groups.group(index))?;
        kept.push((first_row(rows.as_slice()), rows))?;
    }
    Ok(kept)
}

/// The same groups, each with its rows at which a mask is true.
pub(crate) fn keep_groups(
    alloc: Global,
    mask: &Column,
    groups: &GroupPositions,
) -> Px<GroupPositions>
    requires { length mask.now.slots ≡ groups.now.height }
    ensures { Answers result (Ok (kept_groups (rows mask.now.slots) groups.now)) }
{
    let height = groups.height();
    let kept = keep_each(alloc, mask, groups)?;
    GroupPositions::new(GroupsType::Idx(kept), height)
}

/// Whether each group has one row.
pub(crate) fn have_one_row(groups: &GroupPositions) -> bool
    ensures { result ≡ list_all has_one_row groups.now.groups }
{
    for index in 0..groups.len() {
        if groups.group(index).len() != 1 {
            return false;
        }
    }
    true
}

/// As many groups, without a row.
pub(crate) fn empty_groups(alloc: Global, groups: &GroupPositions) -> Px<GroupPositions>
    ensures { Answers result (Ok (record { height = groups.now.height; groups = replicate (length groups.now.groups) (group_of []) })) }
{
    let mut slices = Vec::with_capacity(alloc, groups.len() as usize)?;
    for _ in 0..groups.len() {
        slices.push([0, 0])?;
    }
    let rolling = false;
    GroupPositions::new(
        GroupsType::Slice {
            groups: slices,
            rolling,
        },
        groups.height(),
    )
}
