//! A ternary on three contexts.
ghost use Rattle.std.specs.Prelude.{◌≡◌, ◌⊎◌, ◌+◌, ◌≤◌, ◌&&◌, [], ◌∷◌, Err, IfOk, IfErr, OnOk, false, length, true};
ghost use Rattle.px_column.specs.Prelude.{AnswersBy, kind_of};
ghost use Rattle.px_frame.specs.CellView.{named_cell};
ghost use Rattle.px_nodes.specs.Named.{ternary_named};
ghost use Rattle.px_context.specs.Context.{cell_kind, has_units};
ghost use Rattle.px_lanes.specs.Lane.{has_lane, lane_of};
ghost use Rattle.px_lanes.specs.Made.{IsRefusal, KeepsGroups, counts_in};
ghost use Rattle.px_group_nodes.specs.Ternary.{IsTernary, ternary_answers, ternary_kind};
ghost use Rattle.px_group_nodes.specs.Three.{AreThreePaired, untouched_of_three};

use crate::each_three::{Three, each_three};
use px_column::{DataType, Px, PxError, Steps, is_boolean, same_type, type_where};
use px_context::AggregationContext;
use px_frame::Cell;
use px_lanes::lane::{has_lane, have_lanes, lane, untouched_of, with_lane};
use px_lanes::laying::from_cells;
use px_nodes::ternary_cells;
use std::alloc::Global;
use std::sync::ledger::Ledger;

/// A ternary as a node of three inputs.
#[derive(Clone, Copy)]
struct Ternary;

impl Three for Ternary {
    ghost use Rattle.px_nodes.specs.Named.{ternary_named};

    ghost node = { λ n. ternary_named };

    fn make<L: Ledger>(
        &self,
        alloc: Global,
        first: Cell,
        second: Cell,
        third: Cell,
        kernels: &mut Steps<L>,
    ) -> Px<Cell> {
        ternary_cells(alloc, first, second, third, kernels)
    }
}

/// The first of three contexts that is untouched, else the third.
fn untouched_of_three<'a>(
    first: AggregationContext<'a>,
    second: AggregationContext<'a>,
    third: AggregationContext<'a>,
) -> AggregationContext<'a>
    ensures { result ≡ untouched_of_three first.entry second.entry third.entry }
{
    untouched_of(first, untouched_of(second, third))
}

/// Whether three contexts each read from one cell.
fn have_three_lanes(
    first: &AggregationContext<'_>,
    second: &AggregationContext<'_>,
    third: &AggregationContext<'_>,
) -> bool
    ensures { result ≡ (has_lane first.now && (has_lane second.now && has_lane third.now)) }
{
    has_lane(first) && have_lanes(second, third)
}

/// The cell that a ternary makes of those from which three contexts read.
fn choose_rows<L: Ledger>(
    alloc: Global,
    predicate: &AggregationContext<'_>,
    truthy: &AggregationContext<'_>,
    falsy: &AggregationContext<'_>,
    kernels: &mut Steps<L>,
) -> Px<Cell>
    ensures answer { AnswersBy named_cell result (ternary_named (lane_of predicate.now) (lane_of truthy.now) (lane_of falsy.now)) }
    ensures most { kernels.new ≤ kernels.old + 1 }
    ensures rises { kernels.old ≤ kernels.new }
    ensures ticks { OnOk result (kernels.new ≡ kernels.old + 1) }
{
    let mask = lane(alloc, predicate)?;
    let x = lane(alloc, truthy)?;
    let y = lane(alloc, falsy)?;
    ternary_cells(alloc, mask, x, y, kernels)
}

/// A ternary on the cells from which three contexts read.
fn choose_lanes<'a, L: Ledger>(
    alloc: Global,
    predicate: AggregationContext<'a>,
    truthy: AggregationContext<'a>,
    falsy: AggregationContext<'a>,
    kernels: &mut Steps<L>,
) -> Px<AggregationContext<'a>>
    requires paired { AreThreePaired predicate truthy falsy }
    requires predicate { has_lane predicate ≡ true }
    requires truthy { has_lane truthy ≡ true }
    requires falsy { has_lane falsy ≡ true }
    ensures made { IfOk result (IsTernary predicate.entry truthy.entry falsy.entry) }
    ensures groups { IfOk result (KeepsGroups (predicate.entry ∷ truthy.entry ∷ falsy.entry ∷ [])) }
    ensures lane { IfOk result (λ c. has_lane c ≡ true) }
    ensures refused { IfErr result (λ e. (ternary_kind (cell_kind predicate.entry) (cell_kind truthy.entry) (cell_kind falsy.entry) ≡ Err e) ⊎ IsRefusal e (ternary_answers predicate.entry truthy.entry falsy.entry) (counts_in (ternary_answers predicate.entry truthy.entry falsy.entry))) }
    ensures most { kernels.new ≤ kernels.old + 1 }
    ensures rises { kernels.old ≤ kernels.new }
    ensures ticks { OnOk result (kernels.new ≡ kernels.old + 1) }
{
    // Each has the rows that its layout wants.
    let _ = has_lane(&predicate);
    let _ = has_lane(&truthy);
    let _ = has_lane(&falsy);
    let made = choose_rows(alloc, &predicate, &truthy, &falsy, kernels)?;
    Ok(with_lane(untouched_of_three(predicate, truthy, falsy), made))
}

/// The type of a ternary on the cells of three contexts.
fn ternary_type(
    alloc: Global,
    predicate: &AggregationContext<'_>,
    truthy: &AggregationContext<'_>,
    falsy: &AggregationContext<'_>,
) -> Px<DataType>
    ensures { AnswersBy kind_of result (ternary_kind (cell_kind predicate.now) (cell_kind truthy.now) (cell_kind falsy.now)) }
{
    if !is_boolean(predicate.cell_type()) {
        return Err(PxError::SchemaMismatch);
    }
    let dtype = truthy.cell_type().try_clone(alloc)?;
    type_where(same_type(truthy.cell_type(), falsy.cell_type()), dtype)
}

/// Whether the cells of three contexts are units.
fn have_units(
    first: &AggregationContext<'_>,
    second: &AggregationContext<'_>,
    third: &AggregationContext<'_>,
) -> bool
    ensures { result ≡ (has_units first.now.layout && (has_units second.now.layout && has_units third.now.layout)) }
{
    first.has_units() && (second.has_units() && third.has_units())
}

/// What a ternary makes of the cells of three contexts, group by group.
fn choose_each<'a, L: Ledger>(
    alloc: Global,
    predicate: AggregationContext<'a>,
    truthy: &AggregationContext<'_>,
    falsy: &AggregationContext<'_>,
    kernels: &mut Steps<L>,
) -> Px<AggregationContext<'a>>
    requires truthy { length predicate.groups.groups ≡ length truthy.now.groups.groups }
    requires falsy { length predicate.groups.groups ≡ length falsy.now.groups.groups }
    ensures made { IfOk result (IsTernary predicate.entry truthy.now falsy.now) }
    ensures touched { IfOk result (λ c. c.untouched ≡ false) }
    ensures refused { IfErr result (λ e. (ternary_kind (cell_kind predicate.entry) (cell_kind truthy.now) (cell_kind falsy.now) ≡ Err e) ⊎ IsRefusal e (ternary_answers predicate.entry truthy.now falsy.now) (counts_in (ternary_answers predicate.entry truthy.now falsy.now))) }
    ensures most { kernels.new ≤ kernels.old + length predicate.entry.groups.groups }
    ensures rises { kernels.old ≤ kernels.new }
{
    let dtype = ternary_type(alloc, &predicate, truthy, falsy)?;
    let name = truthy.get_values().name().try_clone(alloc)?;
    let is_unit = have_units(&predicate, truthy, falsy);
    let cells = each_three(alloc, &Ternary, &predicate, truthy, falsy, kernels)?;
    from_cells(alloc, &cells, name, dtype, is_unit, predicate)
}

/// Of the cells of three contexts, group by group and row by row, the first branch's value where the
/// predicate is true, else the second one's, under the first branch's name. Where each is a unit literal
/// or untouched, one kernel runs over their columns. `SchemaMismatch` where the predicate has no truths,
/// `Types` where the branches' types differ; refused where the cells of a group are, and with `TooLong`
/// where all answers have 2^32 values together.
pub fn ternary_groups<'a, L: Ledger>(
    alloc: Global,
    predicate: AggregationContext<'a>,
    truthy: AggregationContext<'a>,
    falsy: AggregationContext<'a>,
    kernels: &mut Steps<L>,
) -> Px<AggregationContext<'a>>
    requires { AreThreePaired predicate truthy falsy }
    ensures made { IfOk result (IsTernary predicate.entry truthy.entry falsy.entry) }
    ensures groups { IfOk result (KeepsGroups (predicate.entry ∷ truthy.entry ∷ falsy.entry ∷ [])) }
    ensures lane { has_lane predicate.entry ≡ true → has_lane truthy.entry ≡ true → has_lane falsy.entry ≡ true → IfOk result (λ c. has_lane c ≡ true) }
    ensures refused { IfErr result (λ e. (ternary_kind (cell_kind predicate.entry) (cell_kind truthy.entry) (cell_kind falsy.entry) ≡ Err e) ⊎ IsRefusal e (ternary_answers predicate.entry truthy.entry falsy.entry) (counts_in (ternary_answers predicate.entry truthy.entry falsy.entry))) }
    ensures most { kernels.new ≤ kernels.old + (length predicate.entry.groups.groups + 1) }
    ensures rises { kernels.old ≤ kernels.new }
    ensures once { has_lane predicate.entry ≡ true → has_lane truthy.entry ≡ true → has_lane falsy.entry ≡ true → kernels.new ≤ kernels.old + 1 }
    ensures ticks { has_lane predicate.entry ≡ true → has_lane truthy.entry ≡ true → has_lane falsy.entry ≡ true → OnOk result (kernels.new ≡ kernels.old + 1) }
{
    if have_three_lanes(&predicate, &truthy, &falsy) {
        choose_lanes(alloc, predicate, truthy, falsy, kernels)
    } else {
        choose_each(alloc, predicate, &truthy, &falsy, kernels)
    }
}
