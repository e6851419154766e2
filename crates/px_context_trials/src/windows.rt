//! Worked examples of the groups of a window's key, and of where the values of its cells stand.
ghost use Rattle.std.specs.Prelude.{◌≡◌, ◌<◌, IfOk};
ghost use Rattle.px_window.specs.Places.{HoldsEachRowOnce};

use px_column::{Column, Name, Px, PxError, SortOptions, Steps};
use px_context::{AggregationContext, ColRef, GroupsRef};
use px_frame::{GroupPositions, GroupsIndicator};
use px_trial_texts::{column, is_text, text_of_column};
use px_window::{CacheKey, inverse_map, ordered_groups, place_explode, place_join, place_rows};
use std::alloc::Global;
use std::marker::Brand;
use std::sync::ledger::{Blank, Ledger};
use std::test::Fail;

fn groups_with_counters<L: Ledger, M: Ledger>(
    alloc: Global,
    key: &CacheKey,
    kernels: Blank,
    groupings: Blank,
) -> Px<GroupPositions>
    requires kernel_name { kernels.name ≡ L.name }
    requires kernel_parts { kernels.parts ≡ L.parts }
    requires some_kernel { 0 < kernels.parts }
    requires grouping_name { groupings.name ≡ M.name }
    requires grouping_parts { groupings.parts ≡ M.parts }
    requires some_grouping { 0 < groupings.parts }
    ensures { IfOk result HoldsEachRowOnce }
{
    let mut kernels = Steps::<L>::new(kernels);
    let mut groupings = Steps::<M>::new(groupings);
    ordered_groups(alloc, 4, key, &mut kernels, &mut groupings)
}

// The groups of four rows, two keys by a column, in an order or none.
fn groups_in_order(alloc: Global, order: Option<(Column, SortOptions)>) -> Px<GroupPositions>
    ensures { IfOk result HoldsEachRowOnce }
{
    let keys = column(alloc, "Int64", "[7,9,7,7]")?;
    let key = CacheKey::new(0, vec![in alloc; keys]?, order);
    groups_with_counters::<Brand, Brand>(alloc, &key, Blank::new(1), Blank::new(1))
}

fn in_falling_order(alloc: Global) -> Px<GroupPositions>
    ensures { IfOk result HoldsEachRowOnce }
{
    let options = SortOptions {
        descending: true,
        nulls_last: false,
    };
    let order = column(alloc, "Int64", "[0,1,2,3]")?;
    groups_in_order(alloc, Some((order, options)))
}

// Whether a group has this number `first` and these rows.
pub(crate) fn has_group(groups: &GroupPositions, index: u32, first: u32, rows: &[u32]) -> bool {
    if index >= groups.len() {
        return false;
    }
    let GroupsIndicator::Idx(found, of_group) = groups.group(index) else {
        return false;
    };
    found == first && of_group.as_slice() == rows
}

#[test]
fn groups_stand_in_the_order_of_a_column(rt: HostRuntime) -> Result<(), Fail> {
    let alloc = rt.alloc();
    let groups = in_falling_order(alloc)?;
    assert_eq!(rt; groups.len(), 2);
    assert!(rt; has_group(&groups, 0, 3, &[3, 2, 0]));
    assert!(rt; has_group(&groups, 1, 1, &[1]));
    let map = inverse_map(alloc, &groups)?;
    assert!(rt; map.as_slice() == [2, 3, 1, 0].as_slice());
    Ok(())
}

// The column of four values at the groups.
fn values_at<'a>(values: &'a Column, groups: &'a GroupPositions) -> Px<AggregationContext<'a>>
    ensures { IfOk result (λ c. c.groups ≡ groups.now) }
{
    if values.len() != groups.height() {
        return Err(PxError::ShapeMismatch);
    }
    let (values, groups) = (ColRef::Borrowed(values), GroupsRef::Borrowed(groups));
    Ok(AggregationContext::new(values, groups, false))
}

fn text_of_rows(alloc: Global, values: &Column, groups: &GroupPositions) -> Px<Name>
    requires { HoldsEachRowOnce groups.now }
{
    let map = inverse_map(alloc, groups)?;
    let mut cells = values_at(values, groups)?;
    text_of_column(alloc, place_rows(alloc, &mut cells, groups, &map))
}

fn text_of_join(alloc: Global, values: &Column, groups: &GroupPositions) -> Px<Name>
    requires { HoldsEachRowOnce groups.now }
{
    let mut cells = values_at(values, groups)?;
    text_of_column(alloc, place_join(alloc, &mut cells, groups))
}

fn text_of_explode(alloc: Global, values: &Column, groups: &GroupPositions) -> Px<Name> {
    let mut cells = values_at(values, groups)?;
    text_of_column(alloc, place_explode(alloc, &mut cells))
}

#[test]
fn cells_stand_at_rows_and_whole_and_one_after_another(rt: HostRuntime) -> Result<(), Fail> {
    let alloc = rt.alloc();
    let values = column(alloc, "Int64", "[0,1,2,3]")?;
    let groups = groups_in_order(alloc, None)?;
    assert!(rt;
        is_text(
            text_of_rows(alloc, &values, &groups),
            "[\"x\"]\n[\"Int64\"]\n[0]\n[1]\n[2]\n[3]\n"
        )?
    );
    assert!(rt;
        is_text(
            text_of_join(alloc, &values, &groups),
            "[\"x\"]\n[\"List(Int64)\"]\n[[0,2,3]]\n[[1]]\n[[0,2,3]]\n[[0,2,3]]\n"
        )?
    );
    assert!(rt;
        is_text(
            text_of_explode(alloc, &values, &groups),
            "[\"x\"]\n[\"Int64\"]\n[0]\n[2]\n[3]\n[1]\n"
        )?
    );
    Ok(())
}
