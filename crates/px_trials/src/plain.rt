//! The plain programs against the production code, on small frames.
ghost use Rattle.std.specs.Prelude.{◌≡◌, ◌<◌};

use crate::library::TOTALS;
use px_column::{Column, DataType, Name, Px, Steps, Value};
use px_frame::{DataFrame, GroupPositions, group_by};
use px_trial_texts::{four_rows, is_text, text_of_frame};
use px_vectors::{Aggregation, plain_group_step, plain_parts};
use rand_core::Rng;
use rand_pcg::Pcg32;
use std::alloc::Global;
use std::marker::Brand;
use std::sync::ledger::{Blank, Ledger};
use std::test::Fail;

/// A column of small integers and nulls.
fn small_column(alloc: Global, rng: &mut Pcg32, name: &str, height: u32) -> Px<Column> {
    let mut rows = Vec::new(alloc);
    for _row in 0..height {
        let value = rng.next_u32() % 4;
        rows.push(if value == 3 {
            None
        } else {
            Some(Value::Int(value as i128))
        })?;
    }
    Column::from_values(alloc, Name::new(alloc, name)?, DataType::Int64, rows)
}

fn small_keys(alloc: Global, rng: &mut Pcg32, height: u32) -> Px<Vec<Column>> {
    let mut keys = Vec::new(alloc);
    let count = rng.next_u32() % 3 + 1;
    for _ in 0..count {
        keys.push(small_column(alloc, rng, "k", height)?)?;
    }
    Ok(keys)
}

fn groups_with_counter<L: Ledger>(
    alloc: Global,
    by: &[Column],
    height: u32,
    groupings: Blank,
) -> Px<GroupPositions>
    requires name { groupings.name ≡ L.name }
    requires parts { groupings.parts ≡ L.parts }
    requires some { 0 < groupings.parts }
{
    let mut groupings = Steps::<L>::new(groupings);
    group_by(alloc, height, by, &mut groupings)
}

/// The rows of each group, as the production code finds them.
fn rows_of_groups(alloc: Global, by: &[Column], height: u32) -> Px<Vec<Vec<u32>>> {
    let groups = groups_with_counter::<Brand>(alloc, by, height, Blank::new(1))?;
    let mut lists = Vec::new(alloc);
    for index in 0..groups.len() {
        let group = groups.group(index);
        let mut rows = Vec::new(alloc);
        for place in 0..group.len() {
            rows.push(group.row(place))?;
        }
        lists.push(rows)?;
    }
    Ok(lists)
}

#[test]
fn groups_have_the_rows_of_plain_parts(rt: HostRuntime) -> Result<(), Fail> {
    let alloc = rt.alloc();
    let mut rng = Pcg32::new(7, 54);
    for frame in 0..200u32 {
        let height = rng.next_u32() % 13;
        let keys = small_keys(alloc, &mut rng, height)?;
        let plain = plain_parts(alloc, &keys, height)?;
        assert_eq!(rt;
            rows_of_groups(alloc, &keys, height)?,
            plain,
            "frame {frame}"
        );
    }
    Ok(())
}

/// The step by k with the sum of a column and the length.
fn sum_and_length(alloc: Global, name: &str) -> Px<DataFrame> {
    let mut keys = Vec::new(alloc);
    keys.push(Name::new(alloc, "k")?)?;
    let mut aggs = Vec::new(alloc);
    aggs.push(Aggregation::Sum(Name::new(alloc, name)?))?;
    aggs.push(Aggregation::Len)?;
    plain_group_step(alloc, &four_rows(alloc)?, &keys, &aggs)
}

#[test]
fn a_plain_step_sums_and_counts(rt: HostRuntime) -> Result<(), Fail> {
    let alloc = rt.alloc();
    let made = sum_and_length(alloc, "x");
    assert!(rt; is_text(text_of_frame(alloc, made), TOTALS)?);
    Ok(())
}

#[test]
fn a_plain_step_names_the_missing_column(rt: HostRuntime) -> Result<(), Fail> {
    let alloc = rt.alloc();
    let refused = sum_and_length(alloc, "y");
    assert!(rt;
        is_text(
            text_of_frame(alloc, refused),
            "error: ColumnNotFound(\"y\")\n"
        )?
    );
    Ok(())
}
