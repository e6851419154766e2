//! The integers of an array, lent as they stand in memory.
ghost use Rattle.std.specs.Prelude.{◌≡◌, ◌+◌, ◌*◌, ◌<◌, ℕ, IfSome, List, length, option_map};
ghost use Rattle.px_array.specs.Integers.{HasNumbers, IsNumber, number_slot};
ghost use Rattle.px_array.specs.Lanes.{Reaches, lane_slot};
ghost use Rattle.px_value.specs.Datum.{integer};
ghost use Rattle.px_value.specs.Series.{slot_at};

use crate::array::{Array, Inner};
use crate::lanes::Lanes;
use crate::words::bit;
use std::marker::Model;

/// Signed integers, or unsigned ones.
#[derive(Clone, Copy)]
pub(crate) enum Numbers<'a> {
    Signed(&'a [i64]),
    Unsigned(&'a [u64]),
}

/// Integers that stand one after another, each of which may be missing; seen as their places.
#[derive(Drop)]
pub struct Integers<'a> {
    numbers: Numbers<'a>,
    valid: &'a [u64],
    first: u32,
    len: u32,
}

impl<'a> Model for Integers<'a> {
    ghost use Rattle.std.specs.Prelude.{List, ◌+◌, map};
    ghost use Rattle.std.specs.List.{range_with_len};
    ghost use Rattle.px_value.specs.Datum.{Slot};
    ghost use Rattle.px_value.specs.DatumCode.{coded_slots};
    ghost use Rattle.px_array.specs.Integers.{IsLent, number_slot};

    ghost Value = { List Slot };

    ghost coded = { coded_slots };

    ghost view = { λ v. map (number_slot v.numbers v.valid.now) (range_with_len v.first v.len) };

    ghost invariant = { λ v. IsLent v.numbers v.valid.now (v.first + v.len) };
}

/// The number at a place, `None` where its bit is not set.
#[inline(always)]
fn number_at(numbers: Numbers<'_>, valid: &[u64], i: usize) -> Option<i128>
    requires numbers { HasNumbers numbers (i + 1) }
    requires valid { i < 64 * length valid.now }
    ensures value { option_map integer result ≡ number_slot numbers.entry valid.now i }
    ensures within { IfSome result IsNumber }
{
    if !bit(valid, i) {
        return None;
    }
    match numbers {
        Numbers::Signed(values) => Some(values[i] as i128),
        Numbers::Unsigned(values) => Some(values[i] as i128),
    }
}

impl<'a> Integers<'a> {
    /// The number of places.
    pub fn len(&self) -> u32
        ensures { result ≡ length self.now }
    {
        self.len
    }

    /// The integer at a place, `None` where it is missing.
    #[inline(always)]
    pub fn get(&self, index: u32) -> Option<i128>
        requires { index < length self.now }
        ensures value { option_map integer result ≡ slot_at self.now index }
        ensures within { IfSome result IsNumber }
    {
        number_at(
            self.numbers,
            self.valid,
            self.first as usize + index as usize,
        )
    }
}

/// The integers of some values, where they are integers.
fn numbers_of(lanes: &Lanes) -> Option<Numbers<'_>>
    ensures same { IfSome result (λ n. (ws : List ℕ) (i : ℕ) → number_slot n ws i ≡ lane_slot lanes.now ws i) }
    ensures there { IfSome result (λ n. (m : ℕ) → Reaches lanes.now m → HasNumbers n m) }
{
    match lanes {
        Lanes::Ints(values) => Some(Numbers::Signed(values)),
        Lanes::UInts(values) => Some(Numbers::Unsigned(values)),
        _ => None,
    }
}

impl Array {
    /// The integers, where the values stand in memory as such.
    pub fn integers(&self) -> Option<Integers<'_>>
        ensures { IfSome result (λ v. v ≡ self.now.slots) }
    {
        match &self.inner {
            Inner::Shared(store) => {
                let numbers = numbers_of(&store.lanes)?;
                Some(Integers {
                    numbers,
                    valid: &store.valid,
                    first: self.first,
                    len: self.len,
                })
            }
            _ => None,
        }
    }
}
