//! Functions of single values that may be missing (polars `is_null`, `is_not_null`, `not` and `is_between`).
ghost use Rattle.std.specs.Prelude.{◌≡◌};
ghost use Rattle.px_value.specs.Kind.{Kind};
ghost use Rattle.px_value.specs.LentView.{slot_of_ref};
ghost use Rattle.px_value.specs.View.{slot_of};
ghost use Rattle.px_operation.specs.Function.{above, below, between_slot, is_not_null_slot, is_null_slot, not_slot};

use crate::operators::{both, compare_slots, truth, truth_of};
use px_value::{ClosedInterval, Operator, Value, ValueRef, lend};

/// Whether there is no value (polars `is_null`). It is never a null, and takes every type.
pub fn is_null(slot: Option<ValueRef<'_>>) -> Option<Value>
    ensures { slot_of result ≡ is_null_slot (slot_of_ref slot.entry) }
{
    truth(slot.is_none())
}

/// Whether there is a value (polars `is_not_null`). It is never a null, and takes every type.
pub fn is_not_null(slot: Option<ValueRef<'_>>) -> Option<Value>
    ensures { slot_of result ≡ is_not_null_slot (slot_of_ref slot.entry) }
{
    truth(slot.is_some())
}

/// The other truth (polars `not`). A null stays a null, and a value that is no truth gives one.
pub fn not(slot: Option<ValueRef<'_>>) -> Option<Value>
    ensures { slot_of result ≡ not_slot (slot_of_ref slot.entry) }
{
    match slot {
        Some(ValueRef::Boolean(holds)) => truth(!holds),
        _ => None,
    }
}

/// How a value stands to the low end of an interval.
fn above(closed: ClosedInterval) -> Operator
    ensures { result ≡ above closed }
{
    match closed {
        ClosedInterval::Both | ClosedInterval::Left => Operator::GtEq,
        _ => Operator::Gt,
    }
}

/// How a value stands to the high end of an interval.
fn below(closed: ClosedInterval) -> Operator
    ensures { result ≡ below closed }
{
    match closed {
        ClosedInterval::Both | ClosedInterval::Right => Operator::LtEq,
        _ => Operator::Lt,
    }
}

/// Whether a value lies between a low and a high end of its type, which belong to the interval as
/// `closed` says (polars `is_between`). A missing value gives a null; a missing end gives one too, but
/// where the other end decides alone.
pub fn is_between(
    closed: ClosedInterval,
    slot: Option<ValueRef<'_>>,
    low: Option<ValueRef<'_>>,
    high: Option<ValueRef<'_>>,
) -> Option<Value>
    ensures { (k : Kind) → slot_of result ≡ between_slot k closed (slot_of_ref slot.entry) (slot_of_ref low.entry) (slot_of_ref high.entry) }
{
    let from = compare_slots(above(closed), slot, low);
    let to = compare_slots(below(closed), slot, high);
    both(truth_of(lend(&from)), truth_of(lend(&to)))
}
