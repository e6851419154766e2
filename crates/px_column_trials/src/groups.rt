//! Rows grouped by equal keys.
ghost use Rattle.std.specs.Prelude.{◌≡◌, ◌<◌};

use px_column::{Column, Px, Steps};
use px_frame::{GroupPositions, GroupsIndicator, group_by};
use px_trial_texts::column;
use std::alloc::Global;
use std::marker::Brand;
use std::sync::ledger::{Blank, Ledger};
use std::test::Fail;

fn groups_with_counter<L: Ledger>(alloc: Global, by: &[Column], blank: Blank) -> Px<GroupPositions>
    requires name { blank.name ≡ L.name }
    requires parts { blank.parts ≡ L.parts }
    requires some { 0 < blank.parts }
{
    let mut groupings = Steps::<L>::new(blank);
    group_by(alloc, 4, by, &mut groupings)
}

// The groups of four rows.
fn groups_by(alloc: Global, by: &[Column]) -> Px<GroupPositions> {
    groups_with_counter::<Brand>(alloc, by, Blank::new(1))
}

fn keys(alloc: Global) -> Px<Column> {
    column(alloc, "Int64", "[7,9,7,7]")
}

fn by_keys(alloc: Global) -> Px<GroupPositions> {
    groups_by(alloc, &[keys(alloc)?])
}

// Whether a group has this number `first` and these rows.
fn has_group(groups: &GroupPositions, index: u32, first: u32, rows: &[u32]) -> bool {
    if index >= groups.len() {
        return false;
    }
    let GroupsIndicator::Idx(found, of_group) = groups.group(index) else {
        return false;
    };
    found == first && of_group.as_slice() == rows
}

#[test]
fn equal_keys_are_one_group(rt: HostRuntime) -> Result<(), Fail> {
    let groups = by_keys(rt.alloc())?;
    assert_eq!(rt; groups.len(), 2);
    assert!(rt; has_group(&groups, 0, 0, &[0, 2, 3]));
    assert!(rt; has_group(&groups, 1, 1, &[1]));
    Ok(())
}
