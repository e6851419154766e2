//! A list or a value for each group.
ghost use Rattle.std.specs.Prelude.{◌≡◌, Ok, IfOk, OnErr, OnOk, map, length};
ghost use Rattle.px_column.specs.Prelude.{Answers, AnswersBy};
ghost use Rattle.px_frame.specs.Cell.{value_of_cell};
ghost use Rattle.px_frame.specs.Reduced.{listed_by};
ghost use Rattle.px_context.specs.Context.{AreLists, IsContext, cells_of};
ghost use Rattle.px_context.specs.Changes.{KeepsType, LaidOrKept, aggregated, all_rows, finalized, laid_kind, with_lists, with_scalars};

use crate::agg_state::{AggState, Layout, UpdateGroups};
use crate::context::AggregationContext;
use crate::lent::ColRef;
use px_column::{Column, Px};
use px_frame::{GroupPositions, GroupsType, list_groups};
use std::alloc::Global;

/// So many groups of all rows of a column of this height.
pub(crate) fn whole_groups(alloc: Global, len: u32, height: u32) -> Px<GroupPositions>
    ensures { Answers result (Ok (all_rows len height)) }
{
    let mut groups = Vec::with_capacity(alloc, len as usize)?;
    for _ in 0..len {
        groups.push([0, height])?;
    }
    let rolling = false;
    GroupPositions::new(GroupsType::Slice { groups, rolling }, height)
}

/// The list of all rows of a column, for each of `len` groups; `TooLong` where these have 2^32 values
/// together.
fn list_whole(alloc: Global, column: &Column, len: u32) -> Px<Column>
    ensures { Answers result (listed_by column.now (all_rows len (length column.now.slots))) }
{
    let groups = whole_groups(alloc, len, column.len())?;
    list_groups(alloc, column, &groups)
}

impl<'a> AggregationContext<'a> {
    /// Keeps a list for each group.
    fn put_lists(&mut self, lists: Column)
        requires { AreLists lists self.old.groups }
        ensures { self.new ≡ with_lists self.old lists }
    {
        self.state = AggState::AggregatedList(ColRef::Owned(lists));
        self.update = UpdateGroups::WithGroupsLen;
        self.is_untouched = false;
    }

    /// Keeps a value for each group.
    pub(crate) fn put_scalars(&mut self, scalars: Column)
        requires { length scalars.slots ≡ length self.old.groups.groups }
        ensures { self.new ≡ with_scalars self.old scalars }
    {
        self.state = AggState::AggregatedScalar(ColRef::Owned(scalars));
        self.update = UpdateGroups::No;
        self.is_untouched = false;
    }

    /// Lays a list or a value out for each group.
    fn lay_out(&mut self, alloc: Global) -> Px<()>
        ensures answer { AnswersBy (λ _. self.new) result (aggregated self.old) }
        ensures refused { OnErr result (self.new ≡ self.old) }
        ensures context { IsContext self.old }
    {
        match self.layout() {
            Layout::Lists => Ok(()),
            Layout::Scalars => Ok(()),
            Layout::Flat => {
                let lists = list_groups(alloc, self.get_values(), self.kept_groups())?;
                self.put_lists(lists);
                Ok(())
            }
            Layout::Rows => {
                let lists = list_whole(alloc, self.get_values(), self.kept_groups().len())?;
                self.put_lists(lists);
                Ok(())
            }
            Layout::Unit => {
                let len = self.kept_groups().len();
                let scalars = self.get_values().new_from_index(alloc, 0, len)?;
                self.put_scalars(scalars);
                Ok(())
            }
        }
    }

    /// Lays a list or a value out for each group: values as they are kept, a unit at each group, and
    /// else lists, after which the groups are to be rebuilt. `TooLong` where the lists together have 2^32
    /// values. The cells stay as they were; after a refusal all does.
    #[tactic(auto, using(crate::proofs::Laying::laid_type, crate::proofs::Laying::laid_as))]
    pub fn aggregate(&mut self, alloc: Global) -> Px<()>
        ensures answer { AnswersBy (λ _. self.new) result (aggregated self.old) }
        ensures refused { OnErr result (self.new ≡ self.old) }
        ensures cells { cells_of self.new ≡ cells_of self.old }
        ensures types { KeepsType self.old self.new }
        ensures values { OnOk result (self.new.values.slots ≡ map value_of_cell (cells_of self.new)) }
        ensures kind { OnOk result (self.new.values.kind ≡ laid_kind self.old) }
    {
        self.lay_out(alloc)
    }

    /// The column of a list or a value for each group, as `aggregated` lends it, for the caller to keep
    /// (polars `finalize`). `TooLong` where the lists together have 2^32 values. The cells stay as they
    /// were.
    pub fn finalize(&mut self, alloc: Global) -> Px<Column>
        ensures answer { Answers result (finalized self.old) }
        ensures rows { IfOk result (λ s. s.slots ≡ map value_of_cell (cells_of self.old)) }
        ensures kind { IfOk result (λ s. s.kind ≡ laid_kind self.old) }
        ensures context { OnOk result (aggregated self.old ≡ Ok self.new) }
        ensures kept { LaidOrKept self.old self.new }
        ensures cells { cells_of self.new ≡ cells_of self.old }
        ensures types { KeepsType self.old self.new }
    {
        self.aggregate(alloc)?;
        self.get_values().try_clone(alloc)
    }
}
