//! Groups as slices and as rows, the kernels over them, and places that a column names.
ghost use Rattle.std.specs.Prelude.{◌≡◌, ◌<◌};

use px_column::{Column, GroupByMethod, Name, Px, PxError, Steps};
use px_frame::{
    GroupPositions, GroupsIndicator, GroupsType, IdxVec, agg_count, agg_first, agg_last, agg_list,
    agg_max, agg_min, agg_n_unique, agg_sum, convert_to_unsigned_index,
};
use px_trial_texts::{column, is_text, text_of_column};
use std::alloc::Global;
use std::marker::Brand;
use std::sync::ledger::{Blank, Ledger};
use std::test::Fail;

fn one_slice(alloc: Global, slice: [u32; 2]) -> Px<GroupPositions> {
    let groups = vec![in alloc; slice]?;
    GroupPositions::new(
        GroupsType::Slice {
            groups,
            rolling: false,
        },
        4,
    )
}

// The rows of a group and its number.
fn rows_of(alloc: Global, groups: &GroupPositions, index: u32) -> Px<(u32, Vec<u32>)> {
    if index >= groups.len() {
        return Err(PxError::OutOfBounds);
    }
    let group = groups.group(index);
    let first = match group {
        GroupsIndicator::Idx(first, _) => first,
        GroupsIndicator::Slice(range) => range[0],
    };
    Ok((first, group.to_rows(alloc)?))
}

// The groups 2 with row 2 and 0 with rows 0 and 1.
fn two_groups(alloc: Global) -> Px<GroupPositions> {
    let mut last = IdxVec::new(alloc);
    last.push(2)?;
    let mut early = IdxVec::new(alloc);
    early.push(0)?;
    early.push(1)?;
    GroupPositions::new(GroupsType::Idx(vec![in alloc; (2, last), (0, early)]?), 3)
}

fn group_after_sort(alloc: Global, index: u32) -> Px<(u32, Vec<u32>)> {
    let groups = two_groups(alloc)?.sort_groups(alloc)?;
    rows_of(alloc, &groups, index)
}

// Whether a group has this number and these rows once the groups are in order.
fn is_after_sort(alloc: Global, index: u32, number: u32, rows: &[u32]) -> Px<bool> {
    let (first, found) = group_after_sort(alloc, index)?;
    Ok(first == number && found.as_slice() == rows)
}

#[test]
fn groups_are_put_in_order_and_stay_within_the_rows(rt: HostRuntime) -> Result<(), Fail> {
    let alloc = rt.alloc();
    assert!(rt; matches!(one_slice(alloc, [3, 2]), Err(PxError::OutOfBounds)));
    assert!(rt; one_slice(alloc, [3, 1]).is_ok());
    assert!(rt; is_after_sort(alloc, 0, 0, &[0, 1])?);
    assert!(rt; is_after_sort(alloc, 1, 2, &[2])?);
    Ok(())
}

// The rows of the last of 0 1, 0 1 and 0 1 2 3, put one after another.
fn rows_after_unroll(alloc: Global) -> Px<Vec<u32>> {
    let groups = GroupPositions::new(
        GroupsType::Slice {
            groups: vec![in alloc; [0, 1], [0, 2], [0, 4]]?,
            rolling: true,
        },
        4,
    )?;
    let (_, rows) = rows_of(alloc, &groups.unroll(alloc)?, 2)?;
    Ok(rows)
}

// The places below 3 that numbers name.
fn places(alloc: Global, dtype: &str, values: &str) -> Px<Vec<Option<u32>>> {
    let column = column(alloc, dtype, values)?;
    convert_to_unsigned_index(alloc, &column, 3)
}

#[test]
fn groups_are_unrolled_and_places_are_had(rt: HostRuntime) -> Result<(), Fail> {
    let alloc = rt.alloc();
    assert_eq!(rt;
        rows_after_unroll(alloc)?.as_slice(),
        [3, 4, 5, 6].as_slice()
    );
    let three = places(alloc, "Int64", "[-1,0,null]")?;
    assert_eq!(rt; three.as_slice(), [Some(2), Some(0), None].as_slice());
    assert!(rt; matches!(places(alloc, "Int64", "[3]"), Err(PxError::OutOfBounds)));
    assert!(rt;
        matches!(
            places(alloc, "Boolean", "[true]"),
            Err(PxError::InvalidOperation(_))
        )
    );
    Ok(())
}

fn reduction_with_counter<L: Ledger>(
    alloc: Global,
    method: GroupByMethod,
    values: &Column,
    groups: &GroupPositions,
    blank: Blank,
) -> Px<Column>
    requires name { blank.name ≡ L.name }
    requires parts { blank.parts ≡ L.parts }
    requires some { 0 < blank.parts }
{
    if values.len() != groups.height() {
        return Err(PxError::ShapeMismatch);
    }
    let mut kernels = Steps::<L>::new(blank);
    match method {
        GroupByMethod::Min => agg_min(alloc, values, groups, &mut kernels),
        GroupByMethod::Max => agg_max(alloc, values, groups, &mut kernels),
        GroupByMethod::Sum => agg_sum(alloc, values, groups, &mut kernels),
        GroupByMethod::First => agg_first(alloc, values, groups, &mut kernels),
        GroupByMethod::Last => agg_last(alloc, values, groups, &mut kernels),
        GroupByMethod::NUnique => agg_n_unique(alloc, values, groups, &mut kernels),
        GroupByMethod::Count { include_nulls } => {
            agg_count(alloc, values, groups, include_nulls, &mut kernels)
        }
        GroupByMethod::Implode => agg_list(alloc, values, groups, &mut kernels),
    }
}

// The groups of rows 1 and 2 and of no row.
fn two_slices(alloc: Global) -> Px<GroupPositions> {
    let groups = vec![in alloc; [1, 2], [3, 0]]?;
    GroupPositions::new(
        GroupsType::Slice {
            groups,
            rolling: false,
        },
        3,
    )
}

/// What the grouped kernel of a method makes.
pub(crate) fn reduce_groups(
    alloc: Global,
    method: GroupByMethod,
    values: &Column,
    groups: &GroupPositions,
) -> Px<Column> {
    reduction_with_counter::<Brand>(alloc, method, values, groups, Blank::new(1))
}

fn text_of_reduction(alloc: Global, method: GroupByMethod) -> Px<Name> {
    let values = column(alloc, "Int64", "[5,7,null]")?;
    let groups = two_slices(alloc)?;
    text_of_column(alloc, reduce_groups(alloc, method, &values, &groups))
}

const PRESENT: GroupByMethod = GroupByMethod::Count {
    include_nulls: false,
};

// Each method, and what it makes of the rows 7 null and of no row.
const REDUCTIONS: [(GroupByMethod, &str); 8] = [
    (GroupByMethod::Min, "[\"x\"]\n[\"Int64\"]\n[7]\n[null]\n"),
    (GroupByMethod::Max, "[\"x\"]\n[\"Int64\"]\n[7]\n[null]\n"),
    (GroupByMethod::Sum, "[\"x\"]\n[\"Int64\"]\n[7]\n[0]\n"),
    (GroupByMethod::First, "[\"x\"]\n[\"Int64\"]\n[7]\n[null]\n"),
    (
        GroupByMethod::Last,
        "[\"x\"]\n[\"Int64\"]\n[null]\n[null]\n",
    ),
    (GroupByMethod::NUnique, "[\"x\"]\n[\"UInt32\"]\n[2]\n[0]\n"),
    (PRESENT, "[\"x\"]\n[\"UInt32\"]\n[1]\n[0]\n"),
    (
        GroupByMethod::Implode,
        "[\"x\"]\n[\"List(Int64)\"]\n[[7,null]]\n[[]]\n",
    ),
];

#[test]
fn each_slice_is_reduced(rt: HostRuntime) -> Result<(), Fail> {
    let alloc = rt.alloc();
    for (method, text) in REDUCTIONS {
        assert!(rt; is_text(text_of_reduction(alloc, method), text)?);
    }
    Ok(())
}
