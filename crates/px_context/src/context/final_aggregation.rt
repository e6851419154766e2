//! Contexts that are taken apart.
ghost use Rattle.std.specs.Prelude.{◌≡◌, Ok, IfOk, map, replicate};
ghost use Rattle.px_column.specs.Prelude.{AnswersBy};
ghost use Rattle.px_frame.specs.Cell.{list_of};
ghost use Rattle.px_frame.specs.Frame.{slots_at};
ghost use Rattle.px_context.specs.Context.{IsContext, cell_kind, cells_of};
ghost use Rattle.px_context.specs.Final.{final_of};
ghost use Rattle.px_context.specs.LentView.{groups_in, series_of};

use crate::agg_state::AggState;
use crate::context::AggregationContext;
use crate::context::aggregation::whole_groups;
use crate::context::groups::list_lengths;
use crate::context::joining::join_lists;
use crate::lent::{ColRef, GroupsRef};
use px_column::Px;
use px_frame::GroupPositions;
use std::alloc::Global;

/// `len` times one.
fn ones(alloc: Global, len: u32) -> Px<Vec<u32>>
    ensures { AnswersBy (λ v. v.items) result (Ok (replicate len 1)) }
{
    let mut ones = Vec::with_capacity(alloc, len as usize)?;
    for _ in 0..len {
        ones.push(1)?;
    }
    Ok(ones)
}

impl<'a> AggregationContext<'a> {
    /// A column and as many groups as cells, whose rows are each cell's values: flat values and a literal
    /// as they stand, lists joined, and each value a group of its own (polars `get_final_aggregation`).
    /// `TooLong` where all lists have 2^32 items.
    pub fn get_final_aggregation(self, alloc: Global) -> Px<(ColRef<'a>, GroupsRef<'a>)>
        ensures answer { AnswersBy (λ r. (series_of r.0, groups_in r.1)) result (final_of self.entry) }
        ensures rows { IfOk result (λ r. map (λ p. slots_at (series_of r.0).slots p.rows) (groups_in r.1).groups ≡ map list_of (cells_of self.entry)) }
        ensures kind { IfOk result (λ r. (series_of r.0).kind ≡ cell_kind self.entry) }
    {
        self.take_apart(alloc)
    }

    /// The column and the groups.
    fn take_apart(self, alloc: Global) -> Px<(ColRef<'a>, GroupsRef<'a>)>
        ensures answer { AnswersBy (λ r. (series_of r.0, groups_in r.1)) result (final_of self.entry) }
        ensures context { IsContext self.entry }
    {
        let len = self.kept_groups().len();
        let AggregationContext {
            state,
            groups,
            update: _,
            is_unit: _,
            is_untouched: _,
        } = self;
        match state {
            AggState::NotAggregated(column) => Ok((column, groups)),
            AggState::AggregatedList(column) => {
                let joined = join_lists(alloc, column.get())?;
                let lengths = list_lengths(alloc, column.get())?;
                let slices = GroupPositions::slices_of_lengths(alloc, &lengths)?;
                Ok((ColRef::Owned(joined), GroupsRef::Owned(slices)))
            }
            AggState::AggregatedScalar(column) => {
                let lengths = ones(alloc, column.get().len())?;
                let slices = GroupPositions::slices_of_lengths(alloc, &lengths)?;
                Ok((column, GroupsRef::Owned(slices)))
            }
            AggState::Literal(column) => {
                let whole = whole_groups(alloc, len, column.get().len())?;
                Ok((column, GroupsRef::Owned(whole)))
            }
        }
    }
}
