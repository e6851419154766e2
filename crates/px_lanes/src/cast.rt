//! A cast of a context.
ghost use Rattle.std.specs.Prelude.{◌≡◌, ◌⊎◌, ◌+◌, ◌≤◌, [], ◌∷◌, Err, IfOk, IfErr, OnOk, false, length, true};
ghost use Rattle.px_column.specs.Cast.{cast_kind};
ghost use Rattle.px_column.specs.Prelude.{kind_of};
ghost use Rattle.px_context.specs.Context.{cell_kind};
ghost use Rattle.px_lanes.specs.Casting.{IsCast, cast_answers, is_strict};
ghost use Rattle.px_lanes.specs.Lane.{has_lane};
ghost use Rattle.px_lanes.specs.Made.{IsRefusal, KeepsGroups, counts_in};

use crate::each_one::{One, make_each};
use crate::lane::{has_lane, lane, with_lane};
use px_column::{CastOptions, DataType, Px, Steps, cast_type};
use px_context::AggregationContext;
use px_frame::Cell;
use px_nodes::cast_cells;
use std::alloc::Global;
use std::sync::ledger::Ledger;

/// A cast as a node of one input.
#[derive(Drop)]
struct Casting<'b> {
    dtype: &'b DataType,
    options: CastOptions,
}

impl<'b> One for Casting<'b> {
    ghost use Rattle.px_column.specs.Prelude.{kind_of};
    ghost use Rattle.px_nodes.specs.Named.{cast_named};

    ghost node = { λ n. cast_named (kind_of n.dtype.now) n.options };

    fn make<L: Ledger>(&self, alloc: Global, input: Cell, kernels: &mut Steps<L>) -> Px<Cell> {
        cast_cells(alloc, input, self.dtype, self.options, kernels)
    }
}

/// Whether a cast is refused where it loses a value.
fn is_strict(options: CastOptions) -> bool
    ensures { result ≡ is_strict options }
{
    matches!(options, CastOptions::Strict)
}

/// A cast, which is never refused for a value, of the cell from which a context reads.
fn cast_lane<'a, L: Ledger>(
    alloc: Global,
    input: AggregationContext<'a>,
    dtype: &DataType,
    options: CastOptions,
    kernels: &mut Steps<L>,
) -> Px<AggregationContext<'a>>
    requires lane { has_lane input ≡ true }
    requires loose { is_strict options ≡ false }
    ensures made { IfOk result (IsCast (kind_of dtype.now) options input.entry) }
    ensures groups { IfOk result (KeepsGroups (input.entry ∷ [])) }
    ensures lane { IfOk result (λ c. has_lane c ≡ true) }
    ensures refused { IfErr result (λ e. (cast_kind (cell_kind input.entry) (kind_of dtype.now) ≡ Err e) ⊎ IsRefusal e (cast_answers (kind_of dtype.now) options input.entry) (counts_in (cast_answers (kind_of dtype.now) options input.entry))) }
    ensures most { kernels.new ≤ kernels.old + 1 }
    ensures rises { kernels.old ≤ kernels.new }
    ensures ticks { OnOk result (kernels.new ≡ kernels.old + 1) }
{
    // It has the rows that its layout wants, and these fit their type.
    let _ = has_lane(&input);
    let _ = input.get_values().rows();
    let cell = lane(alloc, &input)?;
    let made = cast_cells(alloc, cell, dtype, options, kernels)?;
    Ok(with_lane(input, made))
}

/// A cast of the cells of a context, group by group.
fn cast_each<'a, L: Ledger>(
    alloc: Global,
    input: AggregationContext<'a>,
    dtype: &DataType,
    options: CastOptions,
    kernels: &mut Steps<L>,
) -> Px<AggregationContext<'a>>
    ensures made { IfOk result (IsCast (kind_of dtype.now) options input.entry) }
    ensures touched { IfOk result (λ c. c.untouched ≡ false) }
    ensures refused { IfErr result (λ e. (cast_kind (cell_kind input.entry) (kind_of dtype.now) ≡ Err e) ⊎ IsRefusal e (cast_answers (kind_of dtype.now) options input.entry) (counts_in (cast_answers (kind_of dtype.now) options input.entry))) }
    ensures most { kernels.new ≤ kernels.old + length input.entry.groups.groups }
    ensures rises { kernels.old ≤ kernels.new }
{
    let made = cast_type(alloc, input.cell_type(), dtype)?;
    let is_unit = input.has_units();
    let node = Casting { dtype, options };
    make_each(alloc, &node, input, made, is_unit, kernels)
}

/// What a cast makes of the cells of a context group by group, under its name. Where the cast is not
/// strict, and the context is a unit literal or untouched, one kernel runs over its column; a strict one
/// goes group by group, since it is not refused for a value that no group holds. Refused where there is no
/// such cast, where it refuses the cell of a group, and with `TooLong` where all answers have 2^32 values
/// together.
pub fn cast_groups<'a, L: Ledger>(
    alloc: Global,
    input: AggregationContext<'a>,
    dtype: &DataType,
    options: CastOptions,
    kernels: &mut Steps<L>,
) -> Px<AggregationContext<'a>>
    ensures made { IfOk result (IsCast (kind_of dtype.now) options input.entry) }
    ensures groups { IfOk result (KeepsGroups (input.entry ∷ [])) }
    ensures lane { is_strict options ≡ false → has_lane input.entry ≡ true → IfOk result (λ c. has_lane c ≡ true) }
    ensures refused { IfErr result (λ e. (cast_kind (cell_kind input.entry) (kind_of dtype.now) ≡ Err e) ⊎ IsRefusal e (cast_answers (kind_of dtype.now) options input.entry) (counts_in (cast_answers (kind_of dtype.now) options input.entry))) }
    ensures most { kernels.new ≤ kernels.old + (length input.entry.groups.groups + 1) }
    ensures rises { kernels.old ≤ kernels.new }
    ensures once { is_strict options ≡ false → has_lane input.entry ≡ true → kernels.new ≤ kernels.old + 1 }
    ensures ticks { is_strict options ≡ false → has_lane input.entry ≡ true → OnOk result (kernels.new ≡ kernels.old + 1) }
{
    if !is_strict(options) && has_lane(&input) {
        cast_lane(alloc, input, dtype, options, kernels)
    } else {
        cast_each(alloc, input, dtype, options, kernels)
    }
}
