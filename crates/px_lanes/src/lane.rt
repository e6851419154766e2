//! Contexts that read all their cells from one cell.
ghost use Rattle.std.specs.Prelude.{◌≡◌, ◌&&◌, Ok, true};
ghost use Rattle.px_column.specs.Prelude.{AnswersBy};
ghost use Rattle.px_frame.specs.CellView.{named_cell};
ghost use Rattle.px_frame.specs.Groups.{IsGroups};
ghost use Rattle.px_nodes.specs.Together.{stands_at};
ghost use Rattle.px_context.specs.Context.{IsContext};
ghost use Rattle.px_lanes.specs.Lane.{has_lane, lane_of, untouched_of, with_lane};

use px_column::Px;
use px_context::AggregationContext;
use px_frame::Cell;
use std::alloc::Global;

/// Whether a context reads all its cells from one: a unit literal, or the rows of an untouched one.
pub fn has_lane(context: &AggregationContext<'_>) -> bool
    ensures lane { result ≡ has_lane context.now }
    ensures context { IsContext context.now }
    ensures groups { IsGroups context.now.groups.height context.now.groups.groups }
{
    let is_untouched = context.is_untouched();
    let _ = context.kept_groups().len();
    context.is_unit_literal() || is_untouched
}

/// Whether two contexts each read from one cell.
pub fn have_lanes(left: &AggregationContext<'_>, right: &AggregationContext<'_>) -> bool
    ensures { result ≡ (has_lane left.now && has_lane right.now) }
{
    has_lane(left) && has_lane(right)
}

/// The cell from which a context reads; its values are shared.
#[tactic(auto, using(crate::proofs::Lanes::unit_one))]
pub fn lane(alloc: Global, context: &AggregationContext<'_>) -> Px<Cell>
    ensures { AnswersBy named_cell result (Ok (lane_of context.now)) }
{
    let _ = context.is_untouched();
    let column = context.get_values().try_clone(alloc)?;
    Ok(Cell::new(column, context.is_unit_literal()))
}

/// The first of two contexts where it is untouched, else the second.
pub fn untouched_of<'a>(
    left: AggregationContext<'a>,
    right: AggregationContext<'a>,
) -> AggregationContext<'a>
    ensures { result ≡ untouched_of left.entry right.entry }
{
    if left.is_untouched() { left } else { right }
}

/// The context that reads from another cell: a unit literal, or else rows.
#[tactic(auto, using(crate::proofs::Lanes::unit_length, crate::proofs::Lanes::rows_length))]
pub fn with_lane<'a>(mut context: AggregationContext<'a>, cell: Cell) -> AggregationContext<'a>
    requires { stands_at context.groups.height (named_cell cell).cell ≡ true }
    ensures { result ≡ with_lane context.entry (named_cell cell) }
{
    let is_unit = cell.is_unit();
    let column = cell.into_column();
    if is_unit {
        context.with_literal(column, true);
    } else {
        context.with_values(column, false);
    }
    context
}
