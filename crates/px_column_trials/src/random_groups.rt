//! Grouped kernels beside slow programs that reduce the rows of each group, on generated columns and groups.
ghost use Rattle.std.specs.Prelude.{◌<◌};

use crate::generated::{Places, TYPES, close, column_at, random_places, values_of};
use crate::random_columns::{METHODS, reduces};
use crate::slices::reduce_groups;
use crate::slow_cells::{push_reduction, reduced_type};
use px_column::{Column, GroupByMethod, Name, Px};
use px_frame::{GroupPositions, GroupsType, IdxVec};
use px_trial_texts::{column, text_of_column};
use rand_core::Rng;
use rand_pcg::Pcg32;
use std::alloc::Global;
use std::test::Fail;

/// A slice of the rows, which may be empty.
fn random_slice(rng: &mut Pcg32, height: u32) -> [u32; 2]
    requires { height < 100 }
{
    let start = rng.next_u32() % (height + 1);
    [start, rng.next_u32() % (height - start + 1)]
}

/// Three slices of the rows, in any order, which may overlap.
fn random_slices(alloc: Global, rng: &mut Pcg32, height: u32) -> Px<GroupPositions>
    requires { height < 100 }
{
    let first = random_slice(rng, height);
    let second = random_slice(rng, height);
    let third = random_slice(rng, height);
    let groups = vec![in alloc; first, second, third]?;
    let rolling = false;
    GroupPositions::new(GroupsType::Slice { groups, rolling }, height)
}

/// Three rows, one row and no row, in any order, some of them twice.
fn random_rows(alloc: Global, rng: &mut Pcg32, height: u32) -> Px<GroupPositions>
    requires { 0 < height }
{
    let mut three = IdxVec::new(alloc);
    three.push(rng.next_u32() % height)?;
    three.push(rng.next_u32() % height)?;
    three.push(rng.next_u32() % height)?;
    let mut one = IdxVec::new(alloc);
    one.push(rng.next_u32() % height)?;
    let groups = vec![in alloc; (0, three), (0, one), (0, IdxVec::new(alloc))]?;
    GroupPositions::new(GroupsType::Idx(groups), height)
}

fn places_at(alloc: Global, places: &[Option<u32>], rows: &[u32]) -> Px<Places> {
    let mut found = Vec::new(alloc);
    for row in rows {
        found.push(places.get(*row as usize).copied().flatten())?;
    }
    Ok(found)
}

/// The reduction of each group's rows.
fn slow(
    alloc: Global,
    method: GroupByMethod,
    dtype: &str,
    places: &[Option<u32>],
    groups: &GroupPositions,
) -> Px<Column> {
    let mut cells = String::new(alloc);
    for index in 0..groups.len() {
        let rows = groups.group(index).to_rows(alloc)?;
        let of_group = places_at(alloc, places, &rows)?;
        push_reduction(alloc, &mut cells, dtype, method, &of_group)?;
    }
    close(&mut cells)?;
    let to = reduced_type(alloc, dtype, method)?;
    column(alloc, to.as_str(), &cells)
}

/// Slices of the rows or lists of them.
fn random_groups(alloc: Global, rng: &mut Pcg32, height: u32) -> Px<GroupPositions>
    requires some { 0 < height }
    requires few { height < 100 }
{
    if rng.next_u32() % 2 == 0 {
        random_slices(alloc, rng, height)
    } else {
        random_rows(alloc, rng, height)
    }
}

/// Whether a grouped kernel makes of a column what the slow program does.
fn agree(
    alloc: Global,
    method: GroupByMethod,
    dtype: &str,
    places: &[Option<u32>],
    groups: &GroupPositions,
) -> Px<bool> {
    let values = column_at(alloc, dtype, places)?;
    let made = text_of_column(alloc, reduce_groups(alloc, method, &values, groups))?;
    Ok(made == text_of_column(alloc, slow(alloc, method, dtype, places, groups))?)
}

/// Whether it does of generated columns and groups, ten times.
fn agree_throughout(
    alloc: Global,
    method: GroupByMethod,
    dtype: &str,
    rng: &mut Pcg32,
) -> Px<bool> {
    for _ in 0..10u32 {
        let height = rng.next_u32() % 8 + 1;
        let places = random_places(alloc, rng, height, values_of(dtype).len())?;
        let groups = random_groups(alloc, rng, height)?;
        if !agree(alloc, method, dtype, &places, &groups)? {
            return Ok(false);
        }
    }
    Ok(true)
}

/// The number of the first reduction that makes something else than its slow program.
fn first_apart(alloc: Global, dtype: &str, rng: &mut Pcg32) -> Px<Option<usize>> {
    for (number, method) in METHODS.iter().enumerate() {
        if reduces(*method, dtype) && !agree_throughout(alloc, *method, dtype, rng)? {
            return Ok(Some(number));
        }
    }
    Ok(None)
}

#[test]
fn grouped_kernels_reduce_each_group(rt: HostRuntime) -> Result<(), Fail> {
    let mut rng = Pcg32::new(7, 54);
    for dtype in TYPES {
        let apart = first_apart(rt.alloc(), dtype, &mut rng)?;
        assert!(rt;
            apart.is_none(),
            "reduction {} of {dtype}",
            apart.unwrap_or(0)
        );
    }
    Ok(())
}
