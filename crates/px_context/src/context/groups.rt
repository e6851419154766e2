//! The groups of a context, brought up to date where they are asked for.
ghost use Rattle.std.specs.Prelude.{◌≡◌, ◌<◌, ◌^◌, Ok, IsOk, OnErr, false, length, map, true};
ghost use Rattle.px_column.specs.Prelude.{AnswersBy, datum_of_ref, slot_of_ref};
ghost use Rattle.px_context.specs.Context.{cells_of, items_at, items_of};
ghost use Rattle.px_context.specs.Built.{with_other_groups, with_update};
ghost use Rattle.px_context.specs.Changes.{KeepsType, is_pending, regrouped};
ghost use Rattle.px_context.specs.declared.agg_state.Layout.TheVariants.{Flat, Lists};

use crate::agg_state::UpdateGroups;
use crate::context::AggregationContext;
use crate::lent::GroupsRef;
use px_column::{Column, Px, ValueRef};
use px_frame::GroupPositions;
use std::alloc::Global;

/// The number of items of a list, 0 of what is no list.
#[tactic(auto, using(crate::proofs::Reading::length_slots))]
fn value_len(value: ValueRef<'_>) -> u32
    ensures { result ≡ length (items_of (datum_of_ref value.entry)) }
{
    match value {
        ValueRef::List(values) => values.len(),
        _ => 0,
    }
}

/// The number of items at a row, 0 where there is no list.
pub(crate) fn items_len(slot: Option<ValueRef<'_>>) -> u32
    ensures { result ≡ length (items_at (slot_of_ref slot.entry)) }
{
    match slot {
        Some(value) => value_len(value),
        None => 0,
    }
}

/// The number of items of each list of a column.
pub(crate) fn list_lengths(alloc: Global, column: &Column) -> Px<Vec<u32>>
    ensures lengths { AnswersBy (λ v. v.items) result (Ok (map (λ x. length (items_at x)) column.now.slots)) }
    ensures few { length column.now.slots < 2 ^ 32 }
{
    let mut lengths = Vec::with_capacity(alloc, column.len() as usize)?;
    for row in column.rows() {
        lengths.push(items_len(row))?;
    }
    Ok(lengths)
}

impl<'a> AggregationContext<'a> {
    /// Does the update of the groups that is pending: they become slices as long as the cells, one after
    /// another. `TooLong` where the cells together have 2^32 values. Without an update nothing is done,
    /// and no memory is taken. The cells stay as they were; after a refusal all does.
    pub fn update_groups(&mut self, alloc: Global) -> Px<()>
        ensures answer { AnswersBy (λ _. self.new) result (regrouped self.old) }
        ensures refused { OnErr result (self.new ≡ self.old) }
        ensures cells { cells_of self.new ≡ cells_of self.old }
        ensures types { KeepsType self.old self.new }
        ensures free { is_pending self.old.update ≡ false → IsOk result }
    {
        if !self.update.is_pending() {
            return Ok(());
        }
        let lengths = list_lengths(alloc, self.state.column())?;
        let groups = GroupPositions::slices_of_lengths(alloc, &lengths)?;
        self.groups = GroupsRef::Owned(groups);
        self.update = UpdateGroups::No;
        Ok(())
    }

    /// The groups as they are kept, whether or not an update is pending.
    pub fn kept_groups(&self) -> &GroupPositions
        ensures { result.now ≡ self.now.groups }
    {
        self.groups.get()
    }

    /// Keeps other groups of the rows of flat values (polars `with_groups`).
    pub fn with_groups(&mut self, groups: GroupPositions)
        requires flat { self.old.layout ≡ Flat }
        requires height { length self.old.values.slots ≡ groups.height }
        ensures { self.new ≡ with_other_groups self.old groups }
    {
        self.groups = GroupsRef::Owned(groups);
        self.is_untouched = false;
    }

    /// Says what becomes of the groups once they are asked for; only lists have an update pending. The
    /// cells stay as they were (polars `with_update_groups`).
    pub fn with_update_groups(&mut self, update: UpdateGroups)
        requires { is_pending update ≡ true → self.old.layout ≡ Lists }
        ensures context { self.new ≡ with_update self.old update }
        ensures cells { cells_of self.new ≡ cells_of self.old }
    {
        self.update = update;
    }
}
