//! Copies of single places, which share more than 16 bytes of a text or of a string of bytes.
ghost use Rattle.std.specs.Prelude.{◌≡◌, ◌+◌, ◌*◌, ◌<◌, Ok, length};
ghost use Rattle.px_array.specs.Inside.{Covers, inner_slot};
ghost use Rattle.px_array.specs.Lanes.{Reaches, lane_slot};
ghost use Rattle.px_value.specs.Answer.{AnswersBy};
ghost use Rattle.px_value.specs.View.{slot_of};

use crate::array::{Inner, place_at};
use crate::filling::lane_at;
use crate::lanes::Lanes;
use crate::words::bit;
use px_value::{Px, Value, copy_slot, lend};
use std::alloc::Global;

/// A copy of what stands at a place of some values.
fn copy_lane(alloc: Global, lanes: &Lanes, valid: &[u64], i: usize) -> Px<Option<Value>>
    requires values { Reaches lanes.now (i + 1) }
    requires valid { i < 64 * length valid.now }
    ensures { AnswersBy slot_of result (Ok (lane_slot lanes.now valid.now i)) }
{
    if !bit(valid, i) {
        return Ok(None);
    }
    match lanes {
        Lanes::Texts(v) => Ok(Some(Value::Text(v[i].try_clone(alloc)?))),
        Lanes::Bytes(v) => Ok(Some(Value::Bytes(v[i].try_clone(alloc)?))),
        _ => copy_slot(alloc, lane_at(lanes, valid, i)),
    }
}

/// A copy of the value that stands at all places.
pub(crate) fn copy_constant(alloc: Global, slot: &Option<Value>) -> Px<Option<Value>>
    ensures { AnswersBy slot_of result (Ok (slot_of slot.now)) }
{
    match slot {
        Some(Value::Text(text)) => Ok(Some(Value::Text(text.try_clone(alloc)?))),
        Some(Value::Bytes(bytes)) => Ok(Some(Value::Bytes(bytes.try_clone(alloc)?))),
        _ => copy_slot(alloc, lend(slot)),
    }
}

/// A copy of what stands at a place.
pub(crate) fn copy_place(alloc: Global, inner: &Inner, i: usize) -> Px<Option<Value>>
    requires { Covers inner.now (i + 1) }
    ensures { AnswersBy slot_of result (Ok (inner_slot inner.now i)) }
{
    match inner {
        Inner::Shared(store) => copy_lane(alloc, &store.lanes, &store.valid, i),
        Inner::Constant(slot) => copy_constant(alloc, slot),
        _ => copy_slot(alloc, place_at(inner, i)),
    }
}
