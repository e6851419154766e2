//! Places that are named by integers (polars `convert_to_unsigned_index`).
ghost use Rattle.std.specs.Prelude.{◌≡◌, Ok, Err, is_some, if◌then◌else◌, map};
ghost use Rattle.std.specs.List.{list_all};
ghost use Rattle.px_column.specs.Prelude.{AnswersBy, slot_of_ref};
ghost use Rattle.px_value.specs.declared.error.PxError.TheVariants.{OutOfBounds};
ghost use Rattle.px_frame.specs.Unsigned.{names_place, place_at, place_of, places_of};

use px_column::{Column, InvalidWhy, Px, PxError, ValueRef, is_integer};
use std::alloc::Global;

/// The place among `len` that a number names, which counts from the end where it is negative.
fn place_of(len: u32, number: i128) -> Option<u32>
    ensures { result ≡ place_of len number }
{
    let len = len as i128;
    let place = if number < 0 { number + len } else { number };
    if 0 <= place && place < len {
        Some(place as u32)
    } else {
        None
    }
}

/// The place that a value names; a null names none.
fn place_at(len: u32, slot: Option<ValueRef<'_>>) -> Px<Option<u32>>
    ensures { result ≡ (if names_place len (slot_of_ref slot.entry) then Ok (place_at len (slot_of_ref slot.entry)) else Err OutOfBounds) }
{
    let Some(ValueRef::Int(number)) = slot else {
        return Ok(None);
    };
    match place_of(len, number) {
        None => Err(PxError::OutOfBounds),
        Some(place) => Ok(Some(place)),
    }
}

fn places_at(alloc: Global, index: &Column, len: u32) -> Px<Vec<Option<u32>>>
    ensures { AnswersBy (λ v. v.items) result (if list_all (names_place len) index.now.slots then Ok (map (place_at len) index.now.slots) else Err OutOfBounds) }
{
    let mut places = Vec::with_capacity(alloc, index.len() as usize)?;
    for slot in index.rows() {
        places.push(place_at(len, slot)?)?;
    }
    Ok(places)
}

/// The places below `len` that a column of integers names: negative ones count from the end, and nulls
/// stay. `Types` unless it is a column of integers, then `OutOfBounds` where one of them is not from
/// `-len` to `len - 1` (polars `convert_to_unsigned_index`).
pub fn convert_to_unsigned_index(alloc: Global, index: &Column, len: u32) -> Px<Vec<Option<u32>>>
    ensures { AnswersBy (λ v. v.items) result (places_of len index.now) }
{
    if !is_integer(index.dtype()) {
        return Err(PxError::InvalidOperation(InvalidWhy::Types));
    }
    places_at(alloc, index, len)
}
