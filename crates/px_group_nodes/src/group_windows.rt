//! Groups of some of their rows.
ghost use Rattle.std.specs.Prelude.{◌≡◌, ◌+◌, ◌<◌, ◌≤◌, Some, IfOk, IfErr, IfSome, length, map, slice_get, slice_index, true};
ghost use Rattle.px_value.specs.declared.error.PxError.TheVariants.{OutOfMemory};
ghost use Rattle.px_column.specs.Window.{IsLimit, IsOffset};
ghost use Rattle.px_frame.specs.Groups.{group_of, rows_of};
ghost use Rattle.px_frame.specs.GroupsView.{all_end_within, idx_group, slice_group};
ghost use Rattle.px_group_nodes.specs.Windows.{windows_of};

use crate::kept::first_row;
use px_column::{Px, slice_window};
use px_frame::{GroupPositions, GroupsIndicator, GroupsType, IdxVec};
use std::alloc::Global;

/// The rows of a group from an offset on, so many, where it is a slice; `[0, 0]` where there are none.
fn window_slice(
    groups: &GroupPositions,
    index: u32,
    offset: i128,
    limit: Option<i128>,
) -> Option<[u32; 2]>
    requires index { index < length groups.now.groups }
    requires offset { IsOffset offset }
    requires limit { IsLimit limit }
    ensures rows { IfSome result (λ s. slice_get (map group_of (windows_of offset limit groups.now)) index ≡ Some (slice_group s)) }
    ensures within { IfSome result (λ s. slice_index s 0 + slice_index s 1 ≤ groups.now.height) }
{
    let GroupsIndicator::Slice(range) = groups.group(index) else {
        return None;
    };
    let (start, count) = slice_window(offset, limit, range[1]);
    if count == 0 {
        Some([0, 0])
    } else {
        Some([range[0] + start, count])
    }
}

/// The rows of each group from an offset on, so many, where each is a slice.
fn window_slices(
    alloc: Global,
    groups: &GroupPositions,
    offset: i128,
    limit: Option<i128>,
) -> Px<Option<Vec<[u32; 2]>>>
    requires offset { IsOffset offset }
    requires limit { IsLimit limit }
    ensures rows { IfOk result (λ o. IfSome o (λ v. map slice_group v.items ≡ map group_of (windows_of offset limit groups.now))) }
    ensures within { IfOk result (λ o. IfSome o (λ v. all_end_within groups.now.height v.items ≡ true)) }
    ensures refused { IfErr result (λ e. e ≡ OutOfMemory) }
{
    let mut slices = Vec::with_capacity(alloc, groups.len() as usize)?;
    for index in 0..groups.len() {
        let Some(slice) = window_slice(groups, index, offset, limit) else {
            return Ok(None);
        };
        slices.push(slice)?;
    }
    Ok(Some(slices))
}

/// The rows of a group from an offset on, so many.
fn window_rows(
    alloc: Global,
    groups: &GroupPositions,
    index: u32,
    offset: i128,
    limit: Option<i128>,
) -> Px<IdxVec>
    requires index { index < length groups.now.groups }
    requires offset { IsOffset offset }
    requires limit { IsLimit limit }
    ensures rows { IfOk result (λ v. slice_get (windows_of offset limit groups.now) index ≡ Some v.items) }
    ensures refused { IfErr result (λ e. e ≡ OutOfMemory) }
{
    let group = groups.group(index);
    let (start, count) = slice_window(offset, limit, group.len());
    let mut rows = IdxVec::new(alloc);
    for place in 0..count {
        rows.push(group.row(start + place))?;
    }
    Ok(rows)
}

/// The rows of each group from an offset on, so many, with the first of them as its number.
fn window_lists(
    alloc: Global,
    groups: &GroupPositions,
    offset: i128,
    limit: Option<i128>,
) -> Px<Vec<(u32, IdxVec)>>
    requires offset { IsOffset offset }
    requires limit { IsLimit limit }
    ensures rows { IfOk result (λ v. map idx_group v.items ≡ map group_of (windows_of offset limit groups.now)) }
    ensures refused { IfErr result (λ e. e ≡ OutOfMemory) }
{
    let mut lists = Vec::with_capacity(alloc, groups.len() as usize)?;
    for index in 0..groups.len() {
        let rows = window_rows(alloc, groups, index, offset, limit)?;
        let first = first_row(rows.as_slice());
        lists.push((first, rows))?;
    }
    Ok(lists)
}

/// Groups of the rows of these from an offset on, so many of each: slices where these are, and else
/// lists of rows, of which the first is the group's number.
pub(crate) fn window_groups(
    alloc: Global,
    groups: &GroupPositions,
    offset: i128,
    limit: Option<i128>,
) -> Px<GroupPositions>
    requires offset { IsOffset offset }
    requires limit { IsLimit limit }
    ensures rows { IfOk result (λ g. rows_of g ≡ windows_of offset limit groups.now) }
    ensures height { IfOk result (λ g. g.height ≡ groups.now.height) }
    ensures refused { IfErr result (λ e. e ≡ OutOfMemory) }
{
    // The rows are below the height.
    let _ = groups.len();
    if let Some(slices) = window_slices(alloc, groups, offset, limit)? {
        let slices = GroupsType::Slice {
            groups: slices,
            rolling: false,
        };
        return GroupPositions::new(slices, groups.height());
    }
    let lists = window_lists(alloc, groups, offset, limit)?;
    GroupPositions::new(GroupsType::Idx(lists), groups.height())
}
