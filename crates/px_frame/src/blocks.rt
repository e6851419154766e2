//! Groups of many rows reduced block by block: each group absorbs its rows of one block before the next
//! block begins, so that a block's rows stay in the processor's cache while all groups read them.
ghost use Rattle.std.specs.Prelude.{◌≡◌, ◌^◌, ◌<◌, IfOk, OnOk, Ok, length, true};
ghost use Rattle.px_column.specs.Prelude.{AnswersBy, kind_of, slot_of};
ghost use Rattle.px_column.specs.Reduce.{is_taken};
ghost use Rattle.px_frame.specs.Partial.{ArePartial, IsPartial};
ghost use Rattle.px_frame.specs.Frame.{are_below};
ghost use Rattle.px_frame.specs.Groups.{IsGroups, is_group};
ghost use Rattle.px_frame.specs.GroupsView.{lent_group};
ghost use Rattle.px_frame.specs.Reduced.{reduced_at};

use crate::groups::{GroupPositions, GroupsIndicator};
use px_column::{Column, Px, Value};
use px_operation::Reduce;
use std::alloc::Global;

/// The rows of a block: 512 KiB of a column of integers.
const BLOCK: u32 = 65_536;

/// A partial reduction of a group: the state of its first rows, and how many they are.
#[derive(Drop)]
pub(crate) struct Partial<R> {
    state: R,
    taken: u32,
}

impl<R: Reduce + Drop> Partial<R> {
    /// The reduction of no rows yet.
    pub(crate) fn new(alloc: Global, values: &Column, group: GroupsIndicator<'_>) -> Px<Partial<R>>
        requires { is_taken R.method values.now.kind ≡ true }
        ensures answer { AnswersBy (λ _. tt {0}) result (Ok (tt {0})) }
        ensures partial { IfOk result (λ b. IsPartial R.stands_for values.now (lent_group group.entry) b) }
    {
        Ok(Partial {
            state: R::start(alloc, values.dtype())?,
            taken: 0,
        })
    }

    /// Absorbs the group's next rows as long as they stand before the row `end`.
    fn absorb_before(&mut self, values: &Column, group: GroupsIndicator<'_>, end: u32) -> Px<()>
        requires partial { IsPartial R.stands_for values.now (lent_group group) self.old }
        requires group { is_group (2 ^ 32) (lent_group group) ≡ true }
        requires below { are_below (length values.now.slots) (lent_group group).rows ≡ true }
        ensures answer { AnswersBy (λ _. tt {0}) result (Ok (tt {0})) }
        ensures partial { OnOk result (IsPartial R.stands_for values.now (lent_group group.entry) self.new) }
    {
        for index in self.taken..group.len() {
            let row = group.row(index);
            if row >= end {
                return Ok(());
            }
            self.state.absorb(values.get(row))?;
            self.taken = index + 1;
        }
        Ok(())
    }

    /// The reduction of all of the group's rows.
    pub(crate) fn finish(self, values: &Column, group: GroupsIndicator<'_>) -> Px<Option<Value>>
        requires partial { IsPartial R.stands_for values.now (lent_group group) self }
        requires group { is_group (2 ^ 32) (lent_group group) ≡ true }
        requires below { are_below (length values.now.slots) (lent_group group).rows ≡ true }
        ensures { AnswersBy slot_of result (Ok (reduced_at R.method values.now (lent_group group.entry))) }
    {
        let Partial { mut state, taken } = self;
        for index in taken..group.len() {
            state.absorb(values.get(group.row(index)))?;
        }
        state.finish()
    }
}

fn start_all<R: Reduce + Drop>(
    alloc: Global,
    values: &Column,
    groups: &GroupPositions,
) -> Px<Vec<Partial<R>>>
    requires { is_taken R.method values.now.kind ≡ true }
    ensures answer { AnswersBy (λ _. tt {0}) result (Ok (tt {0})) }
    ensures partial { IfOk result (λ v. ArePartial R.stands_for values.now groups.now.groups v.items) }
    ensures groups { IsGroups groups.now.height groups.now.groups }
{
    let mut all = Vec::with_capacity(alloc, groups.len() as usize)?;
    for index in 0..groups.len() {
        all.push(Partial::new(alloc, values, groups.group(index))?)?;
    }
    Ok(all)
}

/// Has each group absorb its next rows before the row `end`.
fn absorb_block<R: Reduce + Drop>(
    all: &mut Vec<Partial<R>>,
    values: &Column,
    groups: &GroupPositions,
    end: u32,
) -> Px<()>
    requires partial { ArePartial R.stands_for values.now groups.now.groups all.old.items }
    requires height { length values.now.slots ≡ groups.now.height }
    ensures answer { AnswersBy (λ _. tt {0}) result (Ok (tt {0})) }
    ensures partial { OnOk result (ArePartial R.stands_for values.now groups.now.groups all.new.items) }
{
    for index in 0..groups.len() {
        all[index as usize].absorb_before(values, groups.group(index), end)?;
    }
    Ok(())
}

/// The reductions of all groups, each of which has absorbed its rows of one block after another.
pub(crate) fn absorb_blocks<R: Reduce + Drop>(
    alloc: Global,
    values: &Column,
    groups: &GroupPositions,
) -> Px<Vec<Partial<R>>>
    requires taken { is_taken R.method values.now.kind ≡ true }
    requires height { length values.now.slots ≡ groups.now.height }
    ensures answer { AnswersBy (λ _. tt {0}) result (Ok (tt {0})) }
    ensures partial { IfOk result (λ v. ArePartial R.stands_for values.now groups.now.groups v.items) }
    ensures groups { IsGroups groups.now.height groups.now.groups }
{
    let mut all = start_all(alloc, values, groups)?;
    for block in 1..=groups.height() / BLOCK {
        absorb_block(&mut all, values, groups, block * BLOCK)?;
    }
    Ok(all)
}
