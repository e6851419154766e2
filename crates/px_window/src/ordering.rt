//! The groups of a window's key, each in its order.
ghost use Rattle.std.specs.Prelude.{◌≡◌, ◌+◌, ◌≤◌, ◌^◌, None, Ok, IfOk, OnOk, Some, false, length, map, slice_index, true};
ghost use Rattle.px_column.specs.Prelude.{Answers, AnswersBy, is_list_kind};
ghost use Rattle.px_frame.specs.Frame.{are_below};
ghost use Rattle.px_frame.specs.Groups.{IsGroups, first_row, is_group};
ghost use Rattle.px_frame.specs.GroupsView.{idx_group, lent_group};
ghost use Rattle.px_frame.specs.Ordered.{in_order};
ghost use Rattle.px_frame.specs.Parts.{parts_of};
ghost use Rattle.px_window.specs.Key.{grouped_in, ordered_grouped, rows_ordered};
ghost use Rattle.px_window.specs.Places.{HoldsEachRowOnce};

use crate::key::CacheKey;
use px_column::{Column, ComputeWhy, InvalidWhy, Px, PxError, SortOptions, Steps};
use px_frame::{GroupPositions, GroupsIndicator, GroupsType, IdxVec, group_by, take_rows};
use std::alloc::Global;
use std::sync::ledger::Ledger;

/// The rows at some places, each of which is there.
fn rows_at(alloc: Global, rows: &[u32], places: &[u32]) -> Px<IdxVec>
    requires { are_below (length rows.now) places.now ≡ true }
    ensures { AnswersBy (λ v. v.items) result (Ok (map (slice_index rows.now) places.now)) }
{
    let mut found = IdxVec::new(alloc);
    for place in places {
        found.push(rows[*place as usize])?;
    }
    Ok(found)
}

/// The rows of a group as they stand.
fn copy_rows(alloc: Global, group: GroupsIndicator<'_>) -> Px<IdxVec>
    requires { is_group (2 ^ 32) (lent_group group) ≡ true }
    ensures { AnswersBy (λ v. v.items) result (Ok (lent_group group.entry).rows) }
{
    let mut rows = IdxVec::new(alloc);
    for index in 0..group.len() {
        rows.push(group.row(index))?;
    }
    Ok(rows)
}

/// The rows of a group in the order of a column, which is no column of lists.
fn sort_group<L: Ledger>(
    alloc: Global,
    column: &Column,
    options: SortOptions,
    group: GroupsIndicator<'_>,
    kernels: &mut Steps<L>,
) -> Px<IdxVec>
    requires kind { is_list_kind column.now.kind ≡ false }
    requires group { is_group (2 ^ 32) (lent_group group) ≡ true }
    requires below { are_below (length column.now.slots) (lent_group group).rows ≡ true }
    ensures answer { AnswersBy (λ v. v.items) result (Ok (in_order column.now options (lent_group group.entry).rows)) }
    ensures most { kernels.new ≤ kernels.old + 1 }
    ensures rises { kernels.old ≤ kernels.new }
{
    let rows = group.to_rows(alloc)?;
    let part = take_rows(alloc, column, &rows)?;
    let places = part.arg_sort(alloc, options, kernels)?;
    rows_at(alloc, &rows, &places)
}

/// The rows of a group in the order of a column, which is no column of lists; one row is not sorted.
fn order_group<L: Ledger>(
    alloc: Global,
    column: &Column,
    options: SortOptions,
    group: GroupsIndicator<'_>,
    kernels: &mut Steps<L>,
) -> Px<IdxVec>
    requires kind { is_list_kind column.now.kind ≡ false }
    requires group { is_group (2 ^ 32) (lent_group group) ≡ true }
    requires below { are_below (length column.now.slots) (lent_group group).rows ≡ true }
    ensures answer { AnswersBy (λ v. v.items) result (Ok (in_order column.now options (lent_group group.entry).rows)) }
    ensures most { kernels.new ≤ kernels.old + 1 }
    ensures rises { kernels.old ≤ kernels.new }
{
    if group.len() < 2 {
        copy_rows(alloc, group)
    } else {
        sort_group(alloc, column, options, group, kernels)
    }
}

/// The first row, and 0 where there is none.
fn first_of(rows: &[u32]) -> u32
    ensures { result ≡ first_row rows.now }
{
    match rows.first() {
        None => 0,
        Some(row) => *row,
    }
}

/// The rows of each group in the order of a column, beside the first of them.
fn order_each<L: Ledger>(
    alloc: Global,
    groups: &GroupPositions,
    column: &Column,
    options: SortOptions,
    kernels: &mut Steps<L>,
) -> Px<Vec<(u32, IdxVec)>>
    requires kind { is_list_kind column.now.kind ≡ false }
    requires height { length column.now.slots ≡ groups.now.height }
    ensures answer { AnswersBy (λ v. map idx_group v.items) result (Ok (map (rows_ordered column.now options) groups.now.groups)) }
    ensures groups { IsGroups groups.now.height groups.now.groups }
    ensures most { kernels.new ≤ kernels.old + length groups.now.groups }
    ensures rises { kernels.old ≤ kernels.new }
{
    let mut ordered = Vec::with_capacity(alloc, groups.len() as usize)?;
    for index in 0..groups.len() {
        let rows = order_group(alloc, column, options, groups.group(index), kernels)?;
        ordered.push((first_of(rows.as_slice()), rows))?;
    }
    Ok(ordered)
}

/// The same groups, each in the order of a column.
fn order_groups<L: Ledger>(
    alloc: Global,
    groups: &GroupPositions,
    column: &Column,
    options: SortOptions,
    kernels: &mut Steps<L>,
) -> Px<GroupPositions>
    requires kind { is_list_kind column.now.kind ≡ false }
    requires height { length column.now.slots ≡ groups.now.height }
    ensures answer { Answers result (Ok (record { height = groups.now.height; groups = map (rows_ordered column.now options) groups.now.groups })) }
    ensures most { kernels.new ≤ kernels.old + length groups.now.groups }
    ensures rises { kernels.old ≤ kernels.new }
{
    let height = groups.height();
    let ordered = order_each(alloc, groups, column, options, kernels)?;
    GroupPositions::new(GroupsType::Idx(ordered), height)
}

/// The groups of rows by some keys, each in the order of a column.
fn group_in_order<L: Ledger, M: Ledger>(
    alloc: Global,
    height: u32,
    keys: &[Column],
    column: &Column,
    options: SortOptions,
    kernels: &mut Steps<L>,
    groupings: &mut Steps<M>,
) -> Px<GroupPositions>
    ensures answer { Answers result (grouped_in height keys.now (Some (column.now, options))) }
    ensures most { kernels.new ≤ kernels.old + length (parts_of keys.now height) }
    ensures rises { kernels.old ≤ kernels.new }
    ensures grouped_once { OnOk result (groupings.new ≡ groupings.old + 1) }
    ensures grouped_most { groupings.new ≤ groupings.old + 1 }
    ensures grouped_rises { groupings.old ≤ groupings.new }
{
    if keys.is_empty() {
        return Err(PxError::ComputeError(ComputeWhy::NoKey));
    }
    if column.dtype().is_list() {
        return Err(PxError::InvalidOperation(InvalidWhy::ListKey));
    }
    let groups = group_by(alloc, height, keys, groupings)?;
    if column.len() != height {
        return Err(PxError::ShapeMismatch);
    }
    order_groups(alloc, &groups, column, options, kernels)
}

/// The groups of rows by a key's columns, each with its rows in the order of the key, equal ones by their
/// numbers, and its first row as `first`. `NoKey` without a column to group by, then `ListKey` where one
/// of them or the order is a List, then `ShapeMismatch` where one has another height. A key without an
/// order runs no kernel.
pub fn ordered_groups<L: Ledger, M: Ledger>(
    alloc: Global,
    height: u32,
    key: &CacheKey,
    kernels: &mut Steps<L>,
    groupings: &mut Steps<M>,
) -> Px<GroupPositions>
    ensures answer { Answers result (ordered_grouped height key.now) }
    ensures once { IfOk result HoldsEachRowOnce }
    ensures most { kernels.new ≤ kernels.old + length (parts_of key.now.keys height) }
    ensures rises { kernels.old ≤ kernels.new }
    ensures unordered { key.now.order ≡ None → kernels.new ≡ kernels.old }
    ensures grouped_once { OnOk result (groupings.new ≡ groupings.old + 1) }
    ensures grouped_most { groupings.new ≤ groupings.old + 1 }
    ensures grouped_rises { groupings.old ≤ groupings.new }
{
    let keys = key.keys();
    match key.order() {
        None => group_by(alloc, height, keys, groupings),
        Some((column, options)) => group_in_order(
            alloc, height, keys, column, *options, kernels, groupings,
        ),
    }
}
