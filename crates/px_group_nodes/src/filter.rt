//! The rows of a context that a mask keeps.
ghost use Rattle.std.specs.Prelude.{◌≡◌, ◌⊎◌, ◌+◌, ◌≤◌, [], ◌∷◌, Ok, Err, IfOk, IfErr, false, length, true};
ghost use Rattle.px_column.specs.Operator.{is_boolean_kind};
ghost use Rattle.px_column.specs.Prelude.{Answers, AnswersBy, kind_of, slot_at};
ghost use Rattle.px_value.specs.declared.error.PxError.TheVariants.{OutOfMemory};
ghost use Rattle.px_frame.specs.Cell.{rows, unit};
ghost use Rattle.px_context.specs.Built.{is_unit_literal};
ghost use Rattle.px_context.specs.Context.{cell_kind};
ghost use Rattle.px_context.specs.declared.agg_state.Layout.TheVariants.{Flat};
ghost use Rattle.px_lanes.specs.Lane.{has_lane, lane_of};
ghost use Rattle.px_lanes.specs.Made.{ArePaired, IsFault, IsRefusal, KeepsGroups, counts_in};
ghost use Rattle.px_group_nodes.specs.Filter.{IsFiltered, filter_answers, filtered_kind};
ghost use Rattle.px_group_nodes.specs.Kept.{keeps_all, kept_flat};

use crate::kept::{empty_groups, have_one_row, is_all_true, is_true, keep_groups};
use crate::pairs::make_each;
use px_column::{Column, DataType, Px, PxError, Steps, is_boolean};
use px_context::AggregationContext;
use px_frame::Cell;
use px_lanes::each::Two;
use px_lanes::lane::{has_lane, have_lanes, lane};
use px_nodes::filter_cells;
use std::alloc::Global;
use std::sync::ledger::Ledger;

/// A filter as a node of two inputs.
#[derive(Clone, Copy)]
struct Selection;

impl Two for Selection {
    ghost use Rattle.px_nodes.specs.Named.{filter_named};

    ghost node = { λ _. filter_named };

    fn make<L: Ledger>(
        &self,
        alloc: Global,
        left: Cell,
        right: Cell,
        kernels: &mut Steps<L>,
    ) -> Px<Cell> {
        filter_cells(alloc, left, right, kernels)
    }
}

/// The type of the rows that are kept.
fn filtered_type(
    alloc: Global,
    input: &AggregationContext<'_>,
    by: &AggregationContext<'_>,
) -> Px<DataType>
    ensures { AnswersBy kind_of result (filtered_kind input.now by.now) }
{
    if is_boolean(by.cell_type()) {
        input.cell_type().try_clone(alloc)
    } else {
        Err(PxError::SchemaMismatch)
    }
}

/// The rows that a mask keeps, group by group.
fn filter_each<'a, L: Ledger>(
    alloc: Global,
    input: AggregationContext<'a>,
    by: &AggregationContext<'_>,
    kernels: &mut Steps<L>,
) -> Px<AggregationContext<'a>>
    requires { length input.groups.groups ≡ length by.now.groups.groups }
    ensures made { IfOk result (IsFiltered input.entry by.now) }
    ensures touched { IfOk result (λ c. c.untouched ≡ false) }
    ensures refused { IfErr result (λ e. (filtered_kind input.entry by.now ≡ Err e) ⊎ IsRefusal e (filter_answers input.entry by.now) (counts_in (filter_answers input.entry by.now))) }
    ensures most { kernels.new ≤ kernels.old + length input.entry.groups.groups }
    ensures rises { kernels.old ≤ kernels.new }
{
    let dtype = filtered_type(alloc, &input, by)?;
    make_each(alloc, &Selection, input, by, dtype, false, kernels)
}

/// Flat values at the rows of their groups at which a mask is true. Where it is true everywhere, the
/// context is left as it is.
fn filter_rows<'a, L: Ledger>(
    alloc: Global,
    mut input: AggregationContext<'a>,
    mask: &Column,
    kernels: &mut Steps<L>,
) -> Px<AggregationContext<'a>>
    requires flat { input.layout ≡ Flat }
    requires values { length input.values.slots ≡ input.groups.height }
    requires mask { length mask.now.slots ≡ input.groups.height }
    ensures answer { Answers result (Ok (kept_flat (rows mask.now.slots) input.entry)) }
    ensures most { kernels.new ≤ kernels.old + 1 }
    ensures rises { kernels.old ≤ kernels.new }
{
    if is_all_true(mask) {
        return Ok(input);
    }
    kernels.tick();
    let groups = keep_groups(alloc, mask, input.kept_groups())?;
    input.with_groups(groups);
    Ok(input)
}

/// Flat values at all rows of their groups where a unit is true, which leaves the context as it is, and
/// else at none.
fn filter_by_unit<'a>(
    alloc: Global,
    mut input: AggregationContext<'a>,
    mask: &Column,
) -> Px<AggregationContext<'a>>
    requires flat { input.layout ≡ Flat }
    requires values { length input.values.slots ≡ input.groups.height }
    requires mask { length mask.now.slots ≡ 1 }
    ensures { Answers result (Ok (kept_flat (unit (slot_at mask.now.slots 0)) input.entry)) }
{
    if is_true(mask.get(0)) {
        return Ok(input);
    }
    let groups = empty_groups(alloc, input.kept_groups())?;
    input.with_groups(groups);
    Ok(input)
}

/// The rows of an untouched context that a mask keeps, where the mask reads from one cell.
fn filter_untouched<'a, L: Ledger>(
    alloc: Global,
    input: AggregationContext<'a>,
    by: &AggregationContext<'_>,
    kernels: &mut Steps<L>,
) -> Px<AggregationContext<'a>>
    requires paired { ArePaired input by.now }
    requires untouched { input.untouched ≡ true }
    requires lane { has_lane by.now ≡ true }
    ensures answer { Answers result (Ok (kept_flat (lane_of by.now).cell input.entry)) }
    ensures most { kernels.new ≤ kernels.old + 1 }
    ensures rises { kernels.old ≤ kernels.new }
{
    // Each has the rows that its layout wants.
    let _ = input.is_untouched();
    let _ = by.is_untouched();
    if by.is_unit_literal() {
        filter_by_unit(alloc, input, by.get_values())
    } else {
        filter_rows(alloc, input, by.get_values(), kernels)
    }
}

/// The rows of a unit literal that another one keeps: the one row for each group, or none.
fn filter_units<'a, L: Ledger>(
    alloc: Global,
    mut input: AggregationContext<'a>,
    by: &AggregationContext<'_>,
    kernels: &mut Steps<L>,
) -> Px<AggregationContext<'a>>
    requires count { length input.groups.groups ≡ length by.now.groups.groups }
    requires input { is_unit_literal input.layout ≡ true }
    requires mask { is_unit_literal by.now.layout ≡ true }
    requires truths { is_boolean_kind (cell_kind by.now) ≡ true }
    ensures made { IfOk result (IsFiltered input.entry by.now) }
    ensures touched { IfOk result (λ c. c.untouched ≡ false) }
    ensures refused { IfErr result (λ e. e ≡ OutOfMemory) }
    ensures most { kernels.new ≤ kernels.old + 1 }
    ensures rises { kernels.old ≤ kernels.new }
{
    // Each has the rows that its layout wants.
    let _ = has_lane(&input);
    let _ = has_lane(by);
    let x = lane(alloc, &input)?;
    let y = lane(alloc, by)?;
    let kept = filter_cells(alloc, x, y, kernels)?;
    input.with_literal(kept.into_column(), false);
    Ok(input)
}

/// A unit literal at the rows of groups of one row each at which a mask is true. Refused with
/// `ShapeMismatch` where a group has another number of rows.
fn filter_unit_by_rows<'a, L: Ledger>(
    alloc: Global,
    input: &AggregationContext<'_>,
    mut by: AggregationContext<'a>,
    kernels: &mut Steps<L>,
) -> Px<AggregationContext<'a>>
    requires count { length input.now.groups.groups ≡ length by.groups.groups }
    requires input { is_unit_literal input.now.layout ≡ true }
    requires mask { by.untouched ≡ true }
    requires truths { is_boolean_kind (cell_kind by) ≡ true }
    ensures made { IfOk result (IsFiltered input.now by.entry) }
    ensures groups { IfOk result (KeepsGroups (by.entry ∷ [])) }
    ensures refused { IfErr result (λ e. IsFault e (filter_answers input.now by.entry)) }
    ensures most { kernels.new ≤ kernels.old + 1 }
    ensures rises { kernels.old ≤ kernels.new }
{
    // Each has the rows that its layout wants.
    let _ = has_lane(input);
    let _ = has_lane(&by);
    if !have_one_row(by.kept_groups()) {
        return Err(PxError::ShapeMismatch);
    }
    let mask = by.get_values().try_clone(alloc)?;
    let height = by.kept_groups().height();
    let column = input.get_values().new_from_index(alloc, 0, height)?;
    by.with_values(column, false);
    filter_rows(alloc, by, &mask, kernels)
}

/// The rows of a unit literal that a mask keeps, where the mask reads from one cell.
fn filter_unit<'a, L: Ledger>(
    alloc: Global,
    input: AggregationContext<'a>,
    by: AggregationContext<'a>,
    kernels: &mut Steps<L>,
) -> Px<AggregationContext<'a>>
    requires count { length input.groups.groups ≡ length by.groups.groups }
    requires input { is_unit_literal input.layout ≡ true }
    requires mask { has_lane by ≡ true }
    requires truths { is_boolean_kind (cell_kind by) ≡ true }
    ensures made { IfOk result (IsFiltered input.entry by.entry) }
    ensures groups { IfOk result (KeepsGroups (input.entry ∷ by.entry ∷ [])) }
    ensures refused { IfErr result (λ e. IsFault e (filter_answers input.entry by.entry)) }
    ensures most { kernels.new ≤ kernels.old + 1 }
    ensures rises { kernels.old ≤ kernels.new }
{
    if by.is_unit_literal() {
        filter_units(alloc, input, &by, kernels)
    } else {
        filter_unit_by_rows(alloc, &input, by, kernels)
    }
}

/// The rows that a mask keeps, where it and the input each read from one cell.
fn filter_lanes<'a, L: Ledger>(
    alloc: Global,
    input: AggregationContext<'a>,
    by: AggregationContext<'a>,
    kernels: &mut Steps<L>,
) -> Px<AggregationContext<'a>>
    requires paired { ArePaired input by }
    requires input { has_lane input ≡ true }
    requires mask { has_lane by ≡ true }
    ensures made { IfOk result (IsFiltered input.entry by.entry) }
    ensures groups { IfOk result (KeepsGroups (input.entry ∷ by.entry ∷ [])) }
    ensures stays { input.entry.untouched ≡ true → keeps_all (lane_of by.entry).cell ≡ true → IfOk result (λ c. c ≡ input.entry) }
    ensures refused { IfErr result (λ e. (filtered_kind input.entry by.entry ≡ Err e) ⊎ IsRefusal e (filter_answers input.entry by.entry) (counts_in (filter_answers input.entry by.entry))) }
    ensures most { kernels.new ≤ kernels.old + 1 }
    ensures rises { kernels.old ≤ kernels.new }
{
    // Each has the rows that its layout wants.
    let _ = has_lane(&input);
    let _ = has_lane(&by);
    if !is_boolean(by.cell_type()) {
        return Err(PxError::SchemaMismatch);
    }
    if input.is_untouched() {
        filter_untouched(alloc, input, &by, kernels)
    } else {
        filter_unit(alloc, input, by, kernels)
    }
}

/// The rows of each cell that its mask keeps, as lists, under the input's name (polars `FilterExpr`).
/// Where the input and the mask are each a unit literal or untouched, one kernel runs at most; flat values
/// stay where they are, and their groups lose the rows that are not kept. A mask that is true at every row
/// leaves an untouched input as it is. Refused with `SchemaMismatch` where the mask has no truths, with
/// `ShapeMismatch` where the mask of a group is a list of another length, and with `TooLong` where all rows
/// that are kept are 2^32 or more.
pub fn filter_groups<'a, L: Ledger>(
    alloc: Global,
    input: AggregationContext<'a>,
    by: AggregationContext<'a>,
    kernels: &mut Steps<L>,
) -> Px<AggregationContext<'a>>
    requires { ArePaired input by }
    ensures made { IfOk result (IsFiltered input.entry by.entry) }
    ensures groups { IfOk result (KeepsGroups (input.entry ∷ by.entry ∷ [])) }
    ensures stays { input.entry.untouched ≡ true → has_lane by.entry ≡ true → keeps_all (lane_of by.entry).cell ≡ true → IfOk result (λ c. c ≡ input.entry) }
    ensures refused { IfErr result (λ e. (filtered_kind input.entry by.entry ≡ Err e) ⊎ IsRefusal e (filter_answers input.entry by.entry) (counts_in (filter_answers input.entry by.entry))) }
    ensures most { kernels.new ≤ kernels.old + (length input.entry.groups.groups + 1) }
    ensures rises { kernels.old ≤ kernels.new }
    ensures once { has_lane input.entry ≡ true → has_lane by.entry ≡ true → kernels.new ≤ kernels.old + 1 }
{
    if have_lanes(&input, &by) {
        filter_lanes(alloc, input, by, kernels)
    } else {
        filter_each(alloc, input, &by, kernels)
    }
}
