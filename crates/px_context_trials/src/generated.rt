//! Generated contexts: the calls, and a slow program that reads the rows of each group one by one.
ghost use Rattle.std.specs.Prelude.{◌≡◌, ◌<◌, ◌^◌, true};
ghost use Rattle.px_frame.specs.Groups.{is_group};
ghost use Rattle.px_frame.specs.GroupsView.{lent_group};

use crate::contexts::{flat, slices};
use px_column::{Column, DataType, Name, Px, PxError, Value, ValueRef};
use px_context::{AggregationContext, GroupPiece};
use px_frame::{GroupPositions, GroupsIndicator};
use rand_core::Rng;
use rand_pcg::Pcg32;
use std::alloc::Global;
use std::test::Fail;

/// Small numbers and nulls.
fn small_rows(alloc: Global, rng: &mut Pcg32, height: u32) -> Px<Vec<Option<i128>>> {
    let mut rows = Vec::new(alloc);
    for _ in 0..height {
        let value = rng.next_u32() % 5;
        rows.push(if value == 4 {
            None
        } else {
            Some(value as i128)
        })?;
    }
    Ok(rows)
}

/// Five slices of rows, which overlap, stand in any order, and may be empty.
fn small_slices(alloc: Global, rng: &mut Pcg32, height: u32) -> Px<Vec<[u32; 2]>>
    requires { height < 100 }
{
    let mut groups = Vec::new(alloc);
    for _ in 0..5u32 {
        let start = rng.next_u32() % (height + 1);
        let len = rng.next_u32() % (height - start + 1);
        groups.push([start, len])?;
    }
    Ok(groups)
}

fn column_of(alloc: Global, rows: &[Option<i128>]) -> Px<Column> {
    let mut values = Vec::new(alloc);
    for row in rows {
        values.push(match row {
            Some(value) => Some(Value::Int(*value)),
            None => None,
        })?;
    }
    if values.len() >= 1 << 32 {
        return Err(PxError::OutOfBounds);
    }
    Column::from_values(alloc, Name::new(alloc, "x")?, DataType::Int64, values)
}

fn is_value(lent: Option<ValueRef<'_>>, value: Option<i128>) -> bool {
    match (lent, value) {
        (Some(ValueRef::Int(lent)), Some(value)) => lent == value,
        (None, None) => true,
        _ => false,
    }
}

/// Whether a piece has what stands at the rows of a group, read one by one.
fn is_cell(piece: &GroupPiece<'_>, rows: &[Option<i128>], group: GroupsIndicator<'_>) -> bool
    requires { is_group (2 ^ 32) (lent_group group) ≡ true }
{
    if piece.is_unit() || piece.len() != group.len() {
        return false;
    }
    for index in 0..group.len() {
        let Some(value) = rows.get(group.row(index) as usize) else {
            return false;
        };
        if !is_value(piece.get(index), *value) {
            return false;
        }
    }
    true
}

/// Whether the cells of a context are these rows at these groups, no more and no fewer.
fn has_cells(
    alloc: Global,
    context: &mut AggregationContext<'_>,
    rows: &[Option<i128>],
    groups: &GroupPositions,
) -> Px<bool> {
    let mut pieces = context.iter_groups(alloc)?;
    for index in 0..groups.len() {
        let Some(piece) = pieces.next() else {
            return Ok(false);
        };
        if !is_cell(&piece, rows, groups.group(index)) {
            return Ok(false);
        }
    }
    Ok(pieces.next().is_none())
}

/// Whether a context has them as lists.
fn has_lists(
    alloc: Global,
    context: &mut AggregationContext<'_>,
    rows: &[Option<i128>],
    groups: &GroupPositions,
) -> Px<bool> {
    context.aggregate(alloc)?;
    has_cells(alloc, context, rows, groups)
}

/// Whether a context has them over rebuilt groups.
fn has_rebuilt(
    alloc: Global,
    context: &mut AggregationContext<'_>,
    rows: &[Option<i128>],
    groups: &GroupPositions,
) -> Px<bool> {
    context.update_groups(alloc)?;
    has_cells(alloc, context, rows, groups)
}

/// Whether a context has them as it is made, and then as lists, and then over rebuilt groups.
fn keeps_cells(
    alloc: Global,
    context: &mut AggregationContext<'_>,
    rows: &[Option<i128>],
    groups: &GroupPositions,
) -> Px<bool> {
    Ok(
        has_cells(alloc, context, rows, groups)?
            && has_lists(alloc, context, rows, groups)?
            && has_rebuilt(alloc, context, rows, groups)?,
    )
}

/// Whether a context that is taken apart still has them.
fn leaves_cells(
    alloc: Global,
    context: AggregationContext<'_>,
    rows: &[Option<i128>],
    groups: &GroupPositions,
) -> Px<bool> {
    let (column, positions) = context.get_final_aggregation(alloc)?;
    let mut context = flat(column.get(), positions.get())?;
    has_cells(alloc, &mut context, rows, groups)
}

/// Whether a generated context has the same cells throughout.
fn same_throughout(alloc: Global, rng: &mut Pcg32) -> Px<bool> {
    let height = rng.next_u32() % 9;
    let rows = small_rows(alloc, rng, height)?;
    let column = column_of(alloc, &rows)?;
    let groups = slices(small_slices(alloc, rng, height)?, column.len())?;
    let mut context = flat(&column, &groups)?;
    let kept = keeps_cells(alloc, &mut context, &rows, &groups)?;
    Ok(kept && leaves_cells(alloc, context, &rows, &groups)?)
}

#[test]
fn contexts_keep_the_cells_that_rows_one_by_one_give(rt: HostRuntime) -> Result<(), Fail> {
    let alloc = rt.alloc();
    let mut rng = Pcg32::new(7, 54);
    for _ in 0..40u32 {
        assert!(rt; same_throughout(alloc, &mut rng)?);
    }
    Ok(())
}
