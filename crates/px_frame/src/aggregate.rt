//! One value for each group: the groups' keys, lengths and reductions (polars `group_count`, `agg_min`
//! and the like).
ghost use Rattle.std.specs.Prelude.{◌≡◌, ◌+◌, ◌<◌, ◌^◌, Ok, Some, IfOk, length, map, true, vec_len};
ghost use Rattle.std.specs.List.{list_all};
ghost use Rattle.px_column.specs.Prelude.{Answers, AnswersBy, slots_fit, uint32s, slots_of};
ghost use Rattle.px_value.specs.declared.method.GroupByMethod.TheVariants.{Min, Max, Sum, First, Last, NUnique, Count};
ghost use Rattle.px_frame.specs.Aggregate.{key_column, has_row, summed_by, counts_of, count_column};
ghost use Rattle.px_frame.specs.Frame.{all_have_height};
ghost use Rattle.px_frame.specs.Groups.{first_row, IsGroups};
ghost use Rattle.px_frame.specs.Reduced.{listed_by, reduced_by};

use crate::distinct::count_distinct_groups;
use crate::frame::take_columns;
use crate::groups::GroupPositions;
use crate::reduce::{list_groups, reduce_groups};
use px_column::{Column, DataType, GroupByMethod, Name, Px, Steps, Value};
use px_operation::{CountReduce, FirstReduce, LastReduce, MaxReduce, MinReduce, SumReduce};
use std::alloc::Global;
use std::sync::ledger::Ledger;

fn first_rows(alloc: Global, groups: &GroupPositions) -> Px<Vec<Option<u32>>>
    requires { list_all has_row groups.now.groups ≡ true }
    ensures rows { AnswersBy (λ v. v.items) result (Ok (map (λ g. Some (first_row g.rows)) groups.now.groups)) }
    ensures groups { IsGroups groups.now.height groups.now.groups }
{
    let mut rows = Vec::with_capacity(alloc, groups.len() as usize)?;
    for index in 0..groups.len() {
        rows.push(Some(groups.group(index).row(0)))?;
    }
    Ok(rows)
}

/// Each key column at each group's first row; the columns have the groups' height, and each group has
/// a row.
pub fn key_rows(alloc: Global, by: &[Column], groups: &GroupPositions) -> Px<Vec<Column>>
    requires height { all_have_height groups.now.height by.now ≡ true }
    requires rows { list_all has_row groups.now.groups ≡ true }
    ensures { AnswersBy (λ v. v.items) result (Ok (map (key_column groups.now.groups) by.now)) }
{
    let rows = first_rows(alloc, groups)?;
    take_columns(alloc, by, &rows)
}

/// The least of each group's present values, a null where there is none, under the values' name and of
/// their type; the values have the groups' height. `ListKey` where the values are lists (polars
/// `agg_min`).
pub fn agg_min<L: Ledger>(
    alloc: Global,
    values: &Column,
    groups: &GroupPositions,
    kernels: &mut Steps<L>,
) -> Px<Column>
    requires { length values.now.slots ≡ groups.now.height }
    ensures answer { Answers result (reduced_by Min values.now groups.now) }
    ensures ticks { kernels.new ≡ kernels.old + 1 }
{
    kernels.tick();
    reduce_groups::<MinReduce>(alloc, GroupByMethod::Min, values, groups)
}

/// The greatest of each group's present values, a null where there is none, under the values' name and
/// of their type; the values have the groups' height. `ListKey` where the values are lists (polars
/// `agg_max`).
pub fn agg_max<L: Ledger>(
    alloc: Global,
    values: &Column,
    groups: &GroupPositions,
    kernels: &mut Steps<L>,
) -> Px<Column>
    requires { length values.now.slots ≡ groups.now.height }
    ensures answer { Answers result (reduced_by Max values.now groups.now) }
    ensures ticks { kernels.new ≡ kernels.old + 1 }
{
    kernels.tick();
    reduce_groups::<MaxReduce>(alloc, GroupByMethod::Max, values, groups)
}

/// The sum of each group's present values, under the values' name and in their type of sums; the values
/// have the groups' height. `Types` where such values cannot be summed (polars `agg_sum`).
#[tactic(auto, using(crate::proofs::Reducing::sums_are_reductions))]
pub fn agg_sum<L: Ledger>(
    alloc: Global,
    values: &Column,
    groups: &GroupPositions,
    kernels: &mut Steps<L>,
) -> Px<Column>
    requires { length values.now.slots ≡ groups.now.height }
    ensures answer { Answers result (summed_by values.now groups.now) }
    ensures reduced { Answers result (reduced_by Sum values.now groups.now) }
    ensures ticks { kernels.new ≡ kernels.old + 1 }
{
    kernels.tick();
    reduce_groups::<SumReduce>(alloc, GroupByMethod::Sum, values, groups)
}

/// The value at each group's first row, null or not, and a null for a group without rows, under the
/// values' name and of their type; the values have the groups' height (polars `agg_first`).
pub fn agg_first<L: Ledger>(
    alloc: Global,
    values: &Column,
    groups: &GroupPositions,
    kernels: &mut Steps<L>,
) -> Px<Column>
    requires { length values.now.slots ≡ groups.now.height }
    ensures answer { Answers result (reduced_by First values.now groups.now) }
    ensures ticks { kernels.new ≡ kernels.old + 1 }
{
    kernels.tick();
    reduce_groups::<FirstReduce>(alloc, GroupByMethod::First, values, groups)
}

/// The value at each group's last row, null or not, and a null for a group without rows, under the
/// values' name and of their type; the values have the groups' height (polars `agg_last`).
pub fn agg_last<L: Ledger>(
    alloc: Global,
    values: &Column,
    groups: &GroupPositions,
    kernels: &mut Steps<L>,
) -> Px<Column>
    requires { length values.now.slots ≡ groups.now.height }
    ensures answer { Answers result (reduced_by Last values.now groups.now) }
    ensures ticks { kernels.new ≡ kernels.old + 1 }
{
    kernels.tick();
    reduce_groups::<LastReduce>(alloc, GroupByMethod::Last, values, groups)
}

/// The number of distinct values of each group, all nulls being one, as UInt32 under the values' name;
/// the values have the groups' height. `ListKey` where the values are lists (polars `agg_n_unique`).
pub fn agg_n_unique<L: Ledger>(
    alloc: Global,
    values: &Column,
    groups: &GroupPositions,
    kernels: &mut Steps<L>,
) -> Px<Column>
    requires { length values.now.slots ≡ groups.now.height }
    ensures answer { Answers result (reduced_by NUnique values.now groups.now) }
    ensures ticks { kernels.new ≡ kernels.old + 1 }
{
    kernels.tick();
    count_distinct_groups(alloc, values, groups)
}

/// The number of rows of each group, or of those that hold a value, as UInt32 under the values' name;
/// the values have the groups' height (polars `agg_valid_count`, and `group_count` with nulls).
pub fn agg_count<L: Ledger>(
    alloc: Global,
    values: &Column,
    groups: &GroupPositions,
    include_nulls: bool,
    kernels: &mut Steps<L>,
) -> Px<Column>
    requires { length values.now.slots ≡ groups.now.height }
    ensures answer { Answers result (reduced_by (Count include_nulls) values.now groups.now) }
    ensures ticks { kernels.new ≡ kernels.old + 1 }
{
    kernels.tick();
    let method = GroupByMethod::Count { include_nulls };
    if include_nulls {
        reduce_groups::<CountReduce<1>>(alloc, method, values, groups)
    } else {
        reduce_groups::<CountReduce<0>>(alloc, method, values, groups)
    }
}

/// The list of each group's values in the order of its rows, under the values' name; the values have
/// the groups' height. `TooLong` where all lists together reach 2^32 values (polars `agg_list`).
pub fn agg_list<L: Ledger>(
    alloc: Global,
    values: &Column,
    groups: &GroupPositions,
    kernels: &mut Steps<L>,
) -> Px<Column>
    requires { length values.now.slots ≡ groups.now.height }
    ensures answer { Answers result (listed_by values.now groups.now) }
    ensures ticks { kernels.new ≡ kernels.old + 1 }
{
    kernels.tick();
    list_groups(alloc, values, groups)
}

fn counts(alloc: Global, groups: &GroupPositions) -> Px<Vec<Option<Value>>>
    ensures counts { AnswersBy (λ v. slots_of v.items) result (Ok (counts_of groups.now)) }
    ensures fit { IfOk result (λ v. slots_fit uint32s (slots_of v.items) ≡ true) }
    ensures few { IfOk result (λ v. vec_len v < 2 ^ 32) }
{
    let mut counts = Vec::with_capacity(alloc, groups.len() as usize)?;
    for index in 0..groups.len() {
        counts.push(Some(Value::Int(groups.group(index).len() as i128)))?;
    }
    Ok(counts)
}

impl GroupPositions {
    /// The number of rows of each group, as UInt32 under the empty name (polars `group_count`).
    pub fn group_count(&self, alloc: Global) -> Px<Column>
        ensures { Answers result (Ok (count_column self.now)) }
    {
        let rows = counts(alloc, self)?;
        Column::from_values(alloc, Name::new(alloc, "")?, DataType::UInt32, rows)
    }
}
