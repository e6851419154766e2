//! The number of distinct values at the rows of each group, by a table of those seen so far.
ghost use Rattle.std.specs.Prelude.{◌≡◌, ◌^◌, Ok, length, true};
ghost use Rattle.px_column.specs.Prelude.{Answers, kind_of};
ghost use Rattle.px_value.specs.declared.method.GroupByMethod.TheVariants.{NUnique};
ghost use Rattle.px_column.specs.Reduction.{distinct_slots, reduced_kind};
ghost use Rattle.px_frame.specs.Frame.{slots_at};
ghost use Rattle.px_frame.specs.Groups.{is_group};
ghost use Rattle.px_frame.specs.GroupsView.{lent_group};
ghost use Rattle.px_frame.specs.Reduced.{reduced_by};

use crate::groups::{GroupPositions, GroupsIndicator};
use indexmap::IndexSet;
use px_column::{Column, ColumnBuilder, DataType, GroupByMethod, Px, RowKey, Value, reduced_type};
use std::alloc::Global;
use std::slice;

/// The number of distinct values at a group's rows, a null being the same as a null.
fn count_distinct(alloc: Global, values: &Column, group: GroupsIndicator<'_>) -> Px<u32>
    requires { is_group (2 ^ 32) (lent_group group) ≡ true }
    ensures { Answers result (Ok (length (distinct_slots (slots_at values.now.slots (lent_group group.entry).rows)))) }
{
    let by = slice::from_ref(values);
    let mut seen: IndexSet<RowKey<'_>> = IndexSet::new(alloc);
    for index in 0..group.len() {
        seen.insert(RowKey::new(by, group.row(index)))?;
    }
    Ok(seen.len() as u32)
}

/// The number of distinct values of each group, in the type `dtype` of such numbers.
fn count_distinct_groups_as(
    alloc: Global,
    dtype: DataType,
    values: &Column,
    groups: &GroupPositions,
) -> Px<Column>
    requires kind { reduced_kind NUnique values.now.kind ≡ Ok (kind_of dtype) }
    requires height { length values.now.slots ≡ groups.now.height }
    ensures { Answers result (reduced_by NUnique values.now groups.now) }
{
    // Each row fits the type, and so does their number.
    let _ = values.rows();
    let name = values.name().try_clone(alloc)?;
    let mut rows = ColumnBuilder::new(alloc, name, dtype, groups.len())?;
    for index in 0..groups.len() {
        let count = count_distinct(alloc, values, groups.group(index))?;
        rows.push(Some(Value::Int(count as i128)))?;
    }
    rows.finish()
}

/// The number of distinct values of each group; `ListKey` where the values are lists.
pub(crate) fn count_distinct_groups(
    alloc: Global,
    values: &Column,
    groups: &GroupPositions,
) -> Px<Column>
    requires { length values.now.slots ≡ groups.now.height }
    ensures { Answers result (reduced_by NUnique values.now groups.now) }
{
    let dtype = values.dtype().try_clone(alloc)?;
    let dtype = reduced_type(alloc, GroupByMethod::NUnique, dtype)?;
    count_distinct_groups_as(alloc, dtype, values, groups)
}
