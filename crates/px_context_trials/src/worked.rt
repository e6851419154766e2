//! Worked examples of contexts.
ghost use Rattle.std.specs.Prelude.{◌≡◌, length};

use crate::contexts::{flat, slices};
use px_column::{Column, Name, Px, PxError};
use px_context::{AggState, AggregationContext, ColRef, GroupsRef, UpdateGroups};
use px_frame::{GroupPositions, GroupsIndicator, GroupsType, IdxVec, list_groups};
use px_trial_texts::{column, is_text, text_of_column};
use std::alloc::Global;
use std::test::Fail;

// Whether these are the groups, as slices.
fn are_slices(groups: &GroupPositions, slices: &[[u32; 2]]) -> bool {
    if groups.len() as usize != slices.len() {
        return false;
    }
    for index in 0..groups.len() {
        let GroupsIndicator::Slice(range) = groups.group(index) else {
            return false;
        };
        let slice = slices[index as usize];
        if range[0] != slice[0] || range[1] != slice[1] {
            return false;
        }
    }
    true
}

// What a call lends of a context with a list or a value for each group.
fn text_of_aggregated(alloc: Global, context: &mut AggregationContext<'_>) -> Px<Name> {
    let column = context.aggregated(alloc)?;
    text_of_column(alloc, column.try_clone(alloc))
}

fn text_of_finalize(alloc: Global, context: &mut AggregationContext<'_>) -> Px<Name> {
    text_of_column(alloc, context.finalize(alloc))
}

// The cell of a group, as a column.
fn cell(alloc: Global, context: &mut AggregationContext<'_>, index: usize) -> Px<Name> {
    let mut cells = context.iter_groups(alloc)?;
    match cells.nth(index) {
        Some(piece) => text_of_column(alloc, piece.to_column(alloc, Name::new(alloc, "y")?)),
        None => Err(PxError::OutOfBounds),
    }
}

// The values of a context that is taken apart, where the groups are these slices.
fn apart(alloc: Global, context: AggregationContext<'_>, slices: &[[u32; 2]]) -> Px<Name> {
    let (column, groups) = context.get_final_aggregation(alloc)?;
    if !are_slices(groups.get(), slices) {
        return Err(PxError::OutOfBounds);
    }
    text_of_column(alloc, column.into_owned(alloc))
}

fn four(alloc: Global) -> Px<Column> {
    column(alloc, "Int64", "[0,1,2,3]")
}

// Slices that overlap.
fn overlapping(alloc: Global) -> Px<GroupPositions> {
    slices(vec![in alloc; [0, 1], [0, 2], [0, 4]]?, 4)
}

fn aggregated_over(alloc: Global, values: &Column, groups: &GroupPositions) -> Px<Name> {
    let mut context = flat(values, groups)?;
    text_of_aggregated(alloc, &mut context)
}

fn overlapping_lists(alloc: Global) -> Px<Name> {
    let values = four(alloc)?;
    let groups = overlapping(alloc)?;
    aggregated_over(alloc, &values, &groups)
}

// The values that are taken apart after lists were made of them.
fn listed_apart(alloc: Global, values: &Column, groups: &GroupPositions) -> Px<Name> {
    let mut context = flat(values, groups)?;
    context.aggregate(alloc)?;
    apart(alloc, context, &[[0, 1], [1, 2], [3, 4]])
}

fn overlapping_apart(alloc: Global) -> Px<Name> {
    let values = four(alloc)?;
    let groups = overlapping(alloc)?;
    listed_apart(alloc, &values, &groups)
}

#[test]
fn slices_that_overlap_become_lists_and_slices_one_after_another(
    rt: HostRuntime,
) -> Result<(), Fail> {
    let alloc = rt.alloc();
    assert!(rt;
        is_text(
            overlapping_lists(alloc),
            "[\"x\"]\n[\"List(Int64)\"]\n[[0]]\n[[0,1]]\n[[0,1,2,3]]\n"
        )?
    );
    assert!(rt;
        is_text(
            overlapping_apart(alloc),
            "[\"x\"]\n[\"Int64\"]\n[0]\n[0]\n[1]\n[0]\n[1]\n[2]\n[3]\n"
        )?
    );
    Ok(())
}

// Two groups of four rows, as lists of rows.
fn two_groups(alloc: Global) -> Px<GroupPositions> {
    let mut first = IdxVec::new(alloc);
    first.push(0)?;
    first.push(2)?;
    first.push(3)?;
    let mut last = IdxVec::new(alloc);
    last.push(1)?;
    GroupPositions::new(GroupsType::Idx(vec![in alloc; (0, first), (1, last)]?), 4)
}

fn finalized_over(alloc: Global, values: &Column, groups: &GroupPositions) -> Px<Name> {
    let mut context = flat(values, groups)?;
    text_of_finalize(alloc, &mut context)
}

fn lists_of_two(alloc: Global) -> Px<Name> {
    let values = four(alloc)?;
    let groups = two_groups(alloc)?;
    finalized_over(alloc, &values, &groups)
}

fn cell_over(alloc: Global, values: &Column, groups: &GroupPositions, index: usize) -> Px<Name> {
    let mut context = flat(values, groups)?;
    cell(alloc, &mut context, index)
}

fn cell_of_two(alloc: Global, index: usize) -> Px<Name> {
    let values = four(alloc)?;
    let groups = two_groups(alloc)?;
    cell_over(alloc, &values, &groups, index)
}

#[test]
fn each_group_has_its_list(rt: HostRuntime) -> Result<(), Fail> {
    let alloc = rt.alloc();
    assert!(rt;
        is_text(
            lists_of_two(alloc),
            "[\"x\"]\n[\"List(Int64)\"]\n[[0,2,3]]\n[[1]]\n"
        )?
    );
    assert!(rt;
        is_text(
            cell_of_two(alloc, 0),
            "[\"y\"]\n[\"Int64\"]\n[0]\n[2]\n[3]\n"
        )?
    );
    assert!(rt; is_text(cell_of_two(alloc, 1), "[\"y\"]\n[\"Int64\"]\n[1]\n")?);
    Ok(())
}

// The lists of the groups of a column, from which the groups are to be rebuilt.
fn lists<'a>(
    alloc: Global,
    values: &Column,
    groups: &'a GroupPositions,
) -> Px<AggregationContext<'a>> {
    if values.len() != groups.height() {
        return Err(PxError::ShapeMismatch);
    }
    let lists = list_groups(alloc, values, groups)?;
    let state = AggState::AggregatedList(ColRef::Owned(lists));
    let mut context = AggregationContext::from_agg_state(state, GroupsRef::Borrowed(groups));
    context.with_update_groups(UpdateGroups::WithSeriesLen);
    Ok(context)
}

fn apart_over(alloc: Global, values: &Column, groups: &GroupPositions) -> Px<Name> {
    let context = lists(alloc, values, groups)?;
    apart(alloc, context, &[[0, 3], [3, 0]])
}

fn joined_over(alloc: Global, values: &Column, groups: &GroupPositions) -> Px<Name> {
    let context = lists(alloc, values, groups)?;
    text_of_column(alloc, context.flat_naive(alloc)?.into_owned(alloc))
}

fn regrouped_over(alloc: Global, values: &Column, groups: &GroupPositions) -> Px<bool> {
    let mut context = lists(alloc, values, groups)?;
    Ok(are_slices(context.groups(alloc)?, &[[0, 3], [3, 0]]))
}

fn three(alloc: Global) -> Px<Column> {
    column(alloc, "Int64", "[0,2,3]")
}

// A list of three values, and an empty one.
fn all_and_none(alloc: Global) -> Px<GroupPositions> {
    slices(vec![in alloc; [0, 3], [1, 0]]?, 3)
}

fn lists_apart(alloc: Global) -> Px<Name> {
    let values = three(alloc)?;
    let groups = all_and_none(alloc)?;
    apart_over(alloc, &values, &groups)
}

fn lists_joined(alloc: Global) -> Px<Name> {
    let values = three(alloc)?;
    let groups = all_and_none(alloc)?;
    joined_over(alloc, &values, &groups)
}

fn lists_regrouped(alloc: Global) -> Px<bool> {
    let values = three(alloc)?;
    let groups = all_and_none(alloc)?;
    regrouped_over(alloc, &values, &groups)
}

#[test]
fn an_empty_list_takes_no_place(rt: HostRuntime) -> Result<(), Fail> {
    let alloc = rt.alloc();
    let text = "[\"x\"]\n[\"Int64\"]\n[0]\n[2]\n[3]\n";
    assert!(rt; lists_regrouped(alloc)?);
    assert!(rt; is_text(lists_joined(alloc), text)?);
    assert!(rt; is_text(lists_apart(alloc), text)?);
    Ok(())
}

fn literal(alloc: Global, values: &str, unit: bool) -> Px<Name> {
    let values = column(alloc, "Int64", values)?;
    if unit && values.len() != 1 {
        return Err(PxError::ShapeMismatch);
    }
    let groups = two_groups(alloc)?;
    let mut context = AggregationContext::from_literal(
        ColRef::Owned(values),
        GroupsRef::Owned(groups),
        unit,
    );
    text_of_finalize(alloc, &mut context)
}

#[test]
fn a_literal_is_the_same_for_each_group(rt: HostRuntime) -> Result<(), Fail> {
    let alloc = rt.alloc();
    assert!(rt;
        is_text(
            literal(alloc, "[5]", true),
            "[\"x\"]\n[\"Int64\"]\n[5]\n[5]\n"
        )?
    );
    assert!(rt;
        is_text(
            literal(alloc, "[1,2]", false),
            "[\"x\"]\n[\"List(Int64)\"]\n[[1,2]]\n[[1,2]]\n"
        )?
    );
    assert!(rt;
        is_text(
            literal(alloc, "[5]", false),
            "[\"x\"]\n[\"List(Int64)\"]\n[[5]]\n[[5]]\n"
        )?
    );
    Ok(())
}

fn text_of_owned(alloc: Global) -> Px<Name> {
    let values = column(alloc, "String", "[\"a\",null]")?;
    text_of_column(alloc, ColRef::Borrowed(&values).into_owned(alloc))
}

#[test]
fn a_borrowed_column_becomes_an_equal_one(rt: HostRuntime) -> Result<(), Fail> {
    let alloc = rt.alloc();
    assert!(rt;
        is_text(
            text_of_owned(alloc),
            "[\"x\"]\n[\"String\"]\n[\"a\"]\n[null]\n"
        )?
    );
    Ok(())
}

// Whether other values leave a context untouched, and other groups do not.
fn keeps_marks(
    context: &mut AggregationContext<'_>,
    values: Column,
    groups: GroupPositions,
) -> bool {
    if values.len() != context.kept_groups().height() || values.len() != groups.height() {
        return false;
    }
    context.with_values(values, false);
    let kept = context.is_untouched();
    context.with_groups(groups);
    kept && !context.is_untouched()
}

fn keeps_marks_over(alloc: Global, values: &Column, groups: &GroupPositions) -> Px<bool> {
    let other = four(alloc)?;
    let others = two_groups(alloc)?;
    let mut context = flat(values, groups)?;
    Ok(keeps_marks(&mut context, other, others))
}

fn keeps_marks_of_four_rows(alloc: Global) -> Px<bool> {
    let values = four(alloc)?;
    let groups = two_groups(alloc)?;
    keeps_marks_over(alloc, &values, &groups)
}

#[test]
fn other_groups_are_marked_and_other_values_are_not(rt: HostRuntime) -> Result<(), Fail> {
    assert!(rt; keeps_marks_of_four_rows(rt.alloc())?);
    Ok(())
}
