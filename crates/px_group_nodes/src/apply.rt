//! Functions of some contexts.
ghost use Rattle.std.specs.Prelude.{◌≡◌, ◌⊎◌, ◌+◌, ◌<◌, ◌≤◌, ◌&&◌, Err, IfErr, IfOk, Ok, OnOk, false, length, true};
ghost use Rattle.px_column.specs.Prelude.{Answers};
ghost use Rattle.px_tree.specs.Partition.{is_row_function};
ghost use Rattle.px_lanes.specs.Lane.{has_lane};
ghost use Rattle.px_lanes.specs.Made.{IsRefusal, KeepsGroups, counts_in};
ghost use Rattle.px_group_nodes.specs.Function.{IsApplied, first_context_name, first_count, function_answers, function_type};
ghost use Rattle.px_group_nodes.specs.Lanes.{have_lanes};
ghost use Rattle.px_group_nodes.specs.Many.{AreAllPaired};

use crate::each_many::{Many, each_many};
use crate::function_type::{function_type, function_units, is_row_function};
use crate::many_lanes::{all_have_lanes, first_untouched, lanes};
use px_column::{Name, Px, Steps};
use px_context::AggregationContext;
use px_frame::Cell;
use px_lanes::lane::with_lane;
use px_lanes::laying::from_cells;
use px_nodes::apply_cells;
use px_tree::FunctionExpr;
use std::alloc::Global;
use std::sync::ledger::Ledger;

impl Many for FunctionExpr {
    ghost use Rattle.px_nodes.specs.Named.{function_named};

    ghost node = { function_named };

    fn make<L: Ledger>(
        &self,
        alloc: Global,
        inputs: Vec<Cell>,
        kernels: &mut Steps<L>,
    ) -> Px<Cell> {
        apply_cells(alloc, inputs, self, kernels)
    }
}

/// The number of groups of the first of some contexts.
fn first_count(inputs: &[AggregationContext<'_>]) -> u32
    requires { 0 < length inputs.now }
    ensures { result ≡ first_count inputs.now }
{
    inputs[0].kept_groups().len()
}

/// The name of the first of some contexts.
fn first_name(alloc: Global, inputs: &[AggregationContext<'_>]) -> Px<Name>
    requires { 0 < length inputs.now }
    ensures { Answers result (Ok (first_context_name inputs.now)) }
{
    inputs[0].get_values().name().try_clone(alloc)
}

/// What a function makes of the cells of some contexts, group by group.
fn apply_each<'a, L: Ledger>(
    alloc: Global,
    mut inputs: Vec<AggregationContext<'a>>,
    function: &FunctionExpr,
    kernels: &mut Steps<L>,
) -> Px<AggregationContext<'a>>
    requires some { 0 < length inputs.items }
    requires paired { AreAllPaired inputs.items }
    ensures made { IfOk result (IsApplied function.now inputs.entry.items) }
    ensures touched { IfOk result (λ c. c.untouched ≡ false) }
    ensures refused { IfErr result (λ e. (function_type function.now inputs.entry.items ≡ Err e) ⊎ IsRefusal e (function_answers function.now inputs.entry.items) (counts_in (function_answers function.now inputs.entry.items))) }
    ensures most { kernels.new ≤ kernels.old + first_count inputs.entry.items }
    ensures rises { kernels.old ≤ kernels.new }
{
    let dtype = function_type(alloc, *function, &inputs)?;
    let name = first_name(alloc, &inputs)?;
    let is_unit = function_units(*function, &inputs);
    let count = first_count(&inputs);
    let cells = each_many(alloc, function, &inputs, count, kernels)?;
    let first = inputs.swap_remove(0);
    from_cells(alloc, &cells, name, dtype, is_unit, first)
}

/// Whether a function goes row by row over contexts each of which reads from one cell.
fn goes_by_lanes(function: FunctionExpr, inputs: &[AggregationContext<'_>]) -> bool
    ensures { result ≡ (is_row_function function && have_lanes inputs.now) }
{
    is_row_function(function) && all_have_lanes(inputs)
}

/// A function of rows on the cells from which some contexts read.
fn apply_lanes<'a, L: Ledger>(
    alloc: Global,
    inputs: Vec<AggregationContext<'a>>,
    function: &FunctionExpr,
    kernels: &mut Steps<L>,
) -> Px<AggregationContext<'a>>
    requires some { 0 < length inputs.items }
    requires paired { AreAllPaired inputs.items }
    requires rows { is_row_function function.now ≡ true }
    requires lanes { have_lanes inputs.items ≡ true }
    ensures made { IfOk result (IsApplied function.now inputs.entry.items) }
    ensures groups { IfOk result (KeepsGroups inputs.entry.items) }
    ensures lane { IfOk result (λ c. has_lane c ≡ true) }
    ensures refused { IfErr result (λ e. (function_type function.now inputs.entry.items ≡ Err e) ⊎ IsRefusal e (function_answers function.now inputs.entry.items) (counts_in (function_answers function.now inputs.entry.items))) }
    ensures most { kernels.new ≤ kernels.old + 1 }
    ensures rises { kernels.old ≤ kernels.new }
    ensures ticks { OnOk result (kernels.new ≡ kernels.old + 1) }
{
    let cells = lanes(alloc, &inputs)?;
    let context = first_untouched(inputs);
    let made = apply_cells(alloc, cells, function, kernels)?;
    Ok(with_lane(context, made))
}

/// What a function makes of some contexts of equally many groups, group by group, under the first
/// one's name. Where it is a function of rows, and each of them is a unit literal or untouched, one
/// kernel runs over their columns. Refused where there is no such function of their types, where it
/// refuses the cells of a group, and with `TooLong` where all answers have 2^32 values together.
pub fn apply_groups<'a, L: Ledger>(
    alloc: Global,
    inputs: Vec<AggregationContext<'a>>,
    function: &FunctionExpr,
    kernels: &mut Steps<L>,
) -> Px<AggregationContext<'a>>
    requires some { 0 < length inputs.items }
    requires paired { AreAllPaired inputs.items }
    ensures made { IfOk result (IsApplied function.now inputs.entry.items) }
    ensures groups { IfOk result (KeepsGroups inputs.entry.items) }
    ensures lane { is_row_function function.now ≡ true → have_lanes inputs.entry.items ≡ true → IfOk result (λ c. has_lane c ≡ true) }
    ensures refused { IfErr result (λ e. (function_type function.now inputs.entry.items ≡ Err e) ⊎ IsRefusal e (function_answers function.now inputs.entry.items) (counts_in (function_answers function.now inputs.entry.items))) }
    ensures most { kernels.new ≤ kernels.old + (first_count inputs.entry.items + 1) }
    ensures rises { kernels.old ≤ kernels.new }
    ensures once { is_row_function function.now ≡ true → have_lanes inputs.entry.items ≡ true → kernels.new ≤ kernels.old + 1 }
    ensures ticks { is_row_function function.now ≡ true → have_lanes inputs.entry.items ≡ true → OnOk result (kernels.new ≡ kernels.old + 1) }
{
    if goes_by_lanes(*function, &inputs) {
        apply_lanes(alloc, inputs, function, kernels)
    } else {
        apply_each(alloc, inputs, function, kernels)
    }
}
