//! Calls that lay a context out anew and lend from it, and say what it ends as once the loan is over.
ghost use Rattle.std.specs.Prelude.{◌≡◌, Ok, IsOk, IfOk, OnErr, OnOk, false, length, map};
ghost use Rattle.std.specs.Borrow.{sem};
ghost use Rattle.px_frame.specs.Cell.{value_of_cell};
ghost use Rattle.px_context.specs.Changes.{KeepsType, aggregated, finalized, groups_for, is_pending, laid_kind, regrouped};
ghost use Rattle.px_context.specs.Context.{cells_of};
ghost use Rattle.px_context.specs.IterView.{left_of};
ghost use Rattle.px_context.specs.Lends.{RestsAs};
ghost use Rattle.px_context.specs.Part.{parts_in};
ghost use Rattle.px_context.specs.Refused.{LentBy};

use crate::context::AggregationContext;
use crate::group_iter::GroupIter;
use crate::refused::{Refused, refusal_of};
use px_column::Column;
use px_frame::GroupPositions;
use std::alloc::Global;

impl<'a> AggregationContext<'a> {
    fn try_update_groups(&mut self, alloc: Global) -> Result<(), Refused>
        ensures answer { LentBy (λ _. self.new) result (regrouped self.old) }
        ensures refused { OnErr result (self.new ≡ self.old) }
        ensures cells { cells_of self.new ≡ cells_of self.old }
        ensures types { KeepsType self.old self.new }
        ensures free { is_pending self.old.update ≡ false → IsOk result }
    {
        match self.update_groups(alloc) {
            Ok(()) => Ok(()),
            Err(error) => Err(refusal_of(error)),
        }
    }

    fn try_aggregate(&mut self, alloc: Global) -> Result<(), Refused>
        ensures answer { LentBy (λ _. self.new) result (aggregated self.old) }
        ensures refused { OnErr result (self.new ≡ self.old) }
        ensures cells { cells_of self.new ≡ cells_of self.old }
        ensures types { KeepsType self.old self.new }
        ensures values { OnOk result (self.new.values.slots ≡ map value_of_cell (cells_of self.new)) }
        ensures kind { OnOk result (self.new.values.kind ≡ laid_kind self.old) }
    {
        match self.aggregate(alloc) {
            Ok(()) => Ok(()),
            Err(error) => Err(refusal_of(error)),
        }
    }

    /// The groups: as they are kept where no update is pending, which takes no memory, and else slices as
    /// long as the cells, one after another, which are kept from then on. `TooLong` where the cells
    /// together have 2^32 values. The cells stay as they were; after a refusal all does.
    pub fn groups<'s>(&'s mut self, alloc: Global) -> Result<&'s GroupPositions, Refused>
        ensures answer { LentBy (λ g. g.now) result (groups_for self.old) }
        ensures free { is_pending self.old.update ≡ false → IsOk result }
        ensures* after { sem 𝓛 (RestsAs self.entry result (regrouped self.old)) }
    {
        self.try_update_groups(alloc)?;
        Ok(self.kept_groups())
    }

    /// The column of a list or a value for each group: values as they are kept, a unit at each group, and
    /// else lists (polars `aggregated`, which gives a copy). `TooLong` where the lists together have 2^32
    /// values. The cells stay as they were; after a refusal all does.
    pub fn aggregated<'s>(&'s mut self, alloc: Global) -> Result<&'s Column, Refused>
        ensures answer { LentBy (λ s. s.now) result (finalized self.old) }
        ensures rows { IfOk result (λ s. s.now.slots ≡ map value_of_cell (cells_of self.old)) }
        ensures kind { IfOk result (λ s. s.now.kind ≡ laid_kind self.old) }
        ensures* after { sem 𝓛 (RestsAs self.entry result (aggregated self.old)) }
    {
        self.try_aggregate(alloc)?;
        Ok(self.get_values())
    }

    /// The cell of each group in order, lent; no value is copied, and no memory is taken.
    pub fn iter_groups<'s>(&'s mut self, _alloc: Global) -> Result<GroupIter<'s>, Refused>
        ensures answer { LentBy left_of result (Ok (parts_in self.old.layout self.old.values self.old.groups)) }
        ensures each { IfOk result (λ cells. length (left_of cells) ≡ length self.old.groups.groups) }
        ensures free { IsOk result }
        ensures* after { sem 𝓛 (RestsAs self.entry result (Ok self.old)) }
    {
        Ok(self.pieces())
    }
}
