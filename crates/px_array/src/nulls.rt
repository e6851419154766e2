//! How many places hold no value.
ghost use Rattle.std.specs.Prelude.{◌≡◌, ◌+◌, ◌<◌, ◌≤◌, ◌^◌, map, is_none};
ghost use Rattle.std.specs.List.{count_by, range_with_len};
ghost use Rattle.px_array.specs.Inside.{IsStored};
ghost use Rattle.px_array.specs.Lanes.{has_values, lane_slot};

use crate::array::{Array, Inner};
use crate::lanes::{Lanes, Store};
use crate::words::count_set;

/// Whether the values are not nulls alone.
fn has_values(lanes: &Lanes) -> bool
    ensures { result ≡ has_values lanes.now }
{
    !matches!(lanes, Lanes::Nulls)
}

/// The number of nulls among so many places from one on.
fn count_nulls(store: &Store, first: u32, len: u32) -> u32
    requires stored { IsStored store.now.lanes store.now.valid.items store.now.len }
    requires within { first + len ≤ store.now.len }
    requires few { first + len < 2 ^ 32 }
    ensures { result ≡ count_by is_none (map (lane_slot store.now.lanes store.now.valid.items) (range_with_len first len)) }
{
    if has_values(&store.lanes) {
        len - count_set(&store.valid, first as usize, (first + len) as usize)
    } else {
        len
    }
}

impl Array {
    /// The number of places that hold no value (Arrow `null_count`), of shared values by the words of
    /// their validity.
    pub fn null_count(&self) -> u32
        ensures { result ≡ count_by is_none self.now.slots }
    {
        match &self.inner {
            Inner::Shared(store) => count_nulls(store, self.first, self.len),
            Inner::Constant(slot) => if slot.is_none() { self.len } else { 0 },
            Inner::SameList(_) => 0,
        }
    }
}
