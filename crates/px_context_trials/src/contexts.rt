//! Groups and contexts for the trials.

use px_column::{Column, Px, PxError};
use px_context::{AggregationContext, ColRef, GroupsRef};
use px_frame::{GroupPositions, GroupsType};

/// Slices within a height.
pub(crate) fn slices(groups: Vec<[u32; 2]>, height: u32) -> Px<GroupPositions> {
    if groups.len() >= 1 << 32 {
        return Err(PxError::OutOfBounds);
    }
    let rolling = false;
    GroupPositions::new(GroupsType::Slice { groups, rolling }, height)
}

/// The context of a column with a value for each row of the groups' height.
pub(crate) fn flat<'a>(
    column: &'a Column,
    groups: &'a GroupPositions,
) -> Px<AggregationContext<'a>> {
    if column.len() != groups.height() {
        return Err(PxError::ShapeMismatch);
    }
    let (column, groups) = (ColRef::Borrowed(column), GroupsRef::Borrowed(groups));
    Ok(AggregationContext::new(column, groups, false))
}
