//! Some contexts, each of which reads all its cells from one.
ghost use Rattle.std.specs.Prelude.{◌≡◌, ◌<◌, All, IfOk, Ok, length, map, true};
ghost use Rattle.px_column.specs.Prelude.{AnswersBy};
ghost use Rattle.px_frame.specs.CellView.{named_cell};
ghost use Rattle.px_lanes.specs.Lane.{lane_of};
ghost use Rattle.px_group_nodes.specs.Lanes.{IsSound, IsUntouchedOf, have_lanes, is_one_untouched, is_untouched_at};

use px_column::Px;
use px_context::AggregationContext;
use px_frame::Cell;
use px_lanes::lane::{has_lane, lane};
use std::alloc::Global;

/// Whether each of some contexts reads from one cell.
pub(crate) fn all_have_lanes(inputs: &[AggregationContext<'_>]) -> bool
    ensures { result ≡ have_lanes inputs.now }
{
    for input in inputs {
        if !has_lane(input) {
            return false;
        }
    }
    true
}

/// The cells from which some contexts read; their values are shared.
pub(crate) fn lanes(alloc: Global, inputs: &[AggregationContext<'_>]) -> Px<Vec<Cell>>
    ensures cells { AnswersBy (λ v. map named_cell v.items) result (Ok (map lane_of inputs.now)) }
    ensures sound { IfOk result (λ _. All IsSound inputs.now) }
{
    let mut cells = Vec::with_capacity(alloc, inputs.len())?;
    for input in inputs {
        // Each has the rows that its layout wants, of which there are fewer than 2^32.
        let _ = has_lane(input);
        let _ = input.kept_groups().height();
        cells.push(lane(alloc, input)?)?;
    }
    Ok(cells)
}

/// The place of the first untouched one of some contexts, 0 where there is none.
fn untouched_place(inputs: &[AggregationContext<'_>]) -> usize
    requires { 0 < length inputs.now }
    ensures within { result < length inputs.now }
    ensures mark { is_one_untouched inputs.now ≡ true → is_untouched_at inputs.now result ≡ true }
{
    for place in 0..inputs.len() {
        if inputs[place].is_untouched() {
            return place;
        }
    }
    0
}

/// The first untouched one of some contexts, else the first of them.
pub(crate) fn first_untouched<'a>(mut inputs: Vec<AggregationContext<'a>>) -> AggregationContext<'a>
    requires { 0 < length inputs.items }
    ensures { IsUntouchedOf inputs.entry.items result }
{
    let place = untouched_place(&inputs);
    inputs.swap_remove(place)
}
