//! A column reduced at the rows of each group.
ghost use Rattle.std.specs.Prelude.{◌≡◌, ℕ, ◌^◌, [], Bool, Ok, length, map, sum, true};
ghost use Rattle.px_column.specs.Prelude.{Answers, AnswersBy, kind_of, Series, slot_of};
ghost use Rattle.px_column.specs.Reduce.{is_taken};
ghost use Rattle.px_column.specs.Reduction.{reduced_kind};
ghost use Rattle.px_frame.specs.Frame.{are_below};
ghost use Rattle.px_frame.specs.Groups.{Groups, is_group, lengths_of, rows_of};
ghost use Rattle.px_frame.specs.GroupsView.{groups_of, lent_group, with_rolling};
ghost use Rattle.px_frame.specs.declared.groups.GroupsType.{GroupsType};
ghost use Rattle.px_frame.specs.Reduced.{listed_by, reduced_at, reduced_by};

use crate::blocks::{Partial, absorb_blocks};
use crate::groups::{GroupPositions, GroupsIndicator};
use px_column::{
    Column, ColumnBuilder, ComputeWhy, DataType, GroupByMethod, Px, PxError, Value, reduced_type,
};
use px_operation::{ImplodeReduce, Reduce};
use std::alloc::Global;

/// Groups of more rows than this on average are reduced block by block.
const LONG: u32 = 64;

/// The reduction of the values at a group's rows, which a state absorbs one by one.
fn reduce_group<R: Reduce + Drop>(
    alloc: Global,
    values: &Column,
    group: GroupsIndicator<'_>,
) -> Px<Option<Value>>
    requires taken { is_taken R.method values.now.kind ≡ true }
    requires group { is_group (2 ^ 32) (lent_group group) ≡ true }
    requires below { are_below (length values.now.slots) (lent_group group).rows ≡ true }
    ensures { AnswersBy slot_of result (Ok (reduced_at R.method values.now (lent_group group.entry))) }
{
    Partial::<R>::new(alloc, values, group)?.finish(values, group)
}

/// The reduction of the values at each group's rows, which is of the type of the rows to be built, group
/// by group.
fn reduce_each<R: Reduce + Drop>(
    alloc: Global,
    mut rows: ColumnBuilder,
    values: &Column,
    groups: &GroupPositions,
) -> Px<Column>
    requires empty { rows ≡ record { name = values.now.name; kind = rows.kind; slots = [] } }
    requires kind { reduced_kind R.method values.now.kind ≡ Ok rows.kind }
    requires height { length values.now.slots ≡ groups.now.height }
    ensures { Answers result (reduced_by R.method values.now groups.now) }
{
    // Each row fits the type, and so does what they become.
    let _ = values.rows();
    for index in 0..groups.len() {
        rows.push(reduce_group::<R>(alloc, values, groups.group(index))?)?;
    }
    rows.finish()
}

/// The same, block by block.
fn reduce_in_blocks<R: Reduce + Drop>(
    alloc: Global,
    mut rows: ColumnBuilder,
    values: &Column,
    groups: &GroupPositions,
) -> Px<Column>
    requires empty { rows ≡ record { name = values.now.name; kind = rows.kind; slots = [] } }
    requires kind { reduced_kind R.method values.now.kind ≡ Ok rows.kind }
    requires height { length values.now.slots ≡ groups.now.height }
    ensures { Answers result (reduced_by R.method values.now groups.now) }
{
    // Each row fits the type, and so does what they become.
    let _ = values.rows();
    let all = absorb_blocks::<R>(alloc, values, groups)?;
    let mut index = 0;
    for partial in all {
        rows.push(partial.finish(values, groups.group(index))?)?;
        index += 1;
    }
    rows.finish()
}

/// The reduction of the values at each group's rows, which is of the type `dtype`: block by block where
/// groups have many rows each.
fn reduce_groups_as<R: Reduce + Drop>(
    alloc: Global,
    dtype: DataType,
    values: &Column,
    groups: &GroupPositions,
) -> Px<Column>
    requires kind { reduced_kind R.method values.now.kind ≡ Ok (kind_of dtype) }
    requires height { length values.now.slots ≡ groups.now.height }
    ensures { Answers result (reduced_by R.method values.now groups.now) }
{
    let name = values.name().try_clone(alloc)?;
    let rows = ColumnBuilder::new(alloc, name, dtype, groups.len())?;
    if groups.len() < groups.height() / LONG {
        reduce_in_blocks::<R>(alloc, rows, values, groups)
    } else {
        reduce_each::<R>(alloc, rows, values, groups)
    }
}

/// The reduction of the values at each group's rows, or the refusal of its type.
pub(crate) fn reduce_groups<R: Reduce + Drop>(
    alloc: Global,
    method: GroupByMethod,
    values: &Column,
    groups: &GroupPositions,
) -> Px<Column>
    requires method { method ≡ R.method }
    requires height { length values.now.slots ≡ groups.now.height }
    ensures { Answers result (reduced_by method values.now groups.now) }
{
    let dtype = reduced_type(alloc, method, values.dtype().try_clone(alloc)?)?;
    reduce_groups_as::<R>(alloc, dtype, values, groups)
}

/// The number of rows of all groups.
fn total_len(groups: &GroupPositions) -> u64
    ensures { result ≡ sum (lengths_of groups.now) }
{
    let mut total = 0;
    for index in 0..groups.len() {
        total += u64::from(groups.group(index).len());
    }
    total
}

/// The list of each group's values in the order of its rows, under the values' name; the values have
/// the groups' height. `TooLong` where all lists together reach 2^32 values.
pub fn list_groups(alloc: Global, values: &Column, groups: &GroupPositions) -> Px<Column>
    requires { length values.now.slots ≡ groups.now.height }
    ensures { Answers result (listed_by values.now groups.now) }
{
    if total_len(groups) > u64::from(u32::MAX) {
        return Err(PxError::ComputeError(ComputeWhy::TooLong));
    }
    reduce_groups::<ImplodeReduce>(alloc, GroupByMethod::Implode, values, groups)
}

/// Groups of the same rows have the same from each grouped kernel, whether they are kept as slices or as
/// lists of rows, and whatever their numbers `first` are; whether slices roll changes no group.
#[tactic(auto, using(crate::proofs::Reducing::rows_reduce_alike, crate::proofs::Reducing::rows_list_alike, crate::proofs::Reducing::rolling_alike))]
pub fn same_rows_reduce_alike()
    ensures reduced { (method : GroupByMethod) (s : Series) (a b : Groups) → rows_of a ≡ rows_of b → reduced_by method s a ≡ reduced_by method s b }
    ensures listed { (s : Series) (a b : Groups) → rows_of a ≡ rows_of b → listed_by s a ≡ listed_by s b }
    ensures kept { (method : GroupByMethod) (s : Series) (height : ℕ) (one other : GroupsType) → map (λ p. p.rows) (groups_of one) ≡ map (λ p. p.rows) (groups_of other)
        → reduced_by method s (record { height = height; groups = groups_of one }) ≡ reduced_by method s (record { height = height; groups = groups_of other }) }
    ensures rolling { (kept : GroupsType) (rolling : Bool) → groups_of (with_rolling rolling kept) ≡ groups_of kept }
{}
