//! Values of one type, one after the other.
ghost use Rattle.std.specs.Prelude.{◌≡◌, Ok, IfOk, pos, true};
ghost use Rattle.px_array.specs.Lanes.{Holds, IsFor, IsNullOr, IsSigned, IsUnsigned};
ghost use Rattle.px_value.specs.Answer.{AnswersBy};
ghost use Rattle.px_value.specs.Datum.{slots, boolean, integer, text, bytes, list};
ghost use Rattle.px_value.specs.Kind.{binaries, booleans, is_list_kind, slot_fits, strings};
ghost use Rattle.px_value.specs.KindView.{kind_of};
ghost use Rattle.px_value.specs.LentView.{slot_of_ref};

use px_value::{ByteString, DataType, Name, Px, ValueRef, Values};
use smallvec::SmallVec;
use std::alloc::Global;

/// Values of one type, one for each place; any where the place is a null.
#[derive(Drop)]
pub(crate) enum Lanes {
    Ints(Vec<i64>),
    UInts(Vec<u64>),
    Bools(SmallVec<u64, 1>),
    Texts(Vec<Name>),
    Bytes(Vec<ByteString>),
    Lists(Vec<Values>),
    Nulls,
}

/// Values of one type, with the bits of their validity; those of few places take no allocation.
#[derive(Drop)]
pub(crate) struct Store {
    pub(crate) lanes: Lanes,
    pub(crate) valid: SmallVec<u64, 1>,
    pub(crate) len: u32,
}

/// No value yet, with room for so many.
pub(crate) fn no_values(alloc: Global, dtype: &DataType, capacity: u32) -> Px<Lanes>
    ensures answer { AnswersBy (λ _. tt {0}) result (Ok (tt {0})) }
    ensures holds { IfOk result (λ f. Holds f 0) }
    ensures for_kind { IfOk result (λ f. IsFor (kind_of dtype.now) f) }
{
    let count = capacity as usize;
    match dtype {
        DataType::Int8 | DataType::Int16 | DataType::Int32 | DataType::Int64 => {
            Ok(Lanes::Ints(Vec::with_capacity(alloc, count)?))
        }
        DataType::UInt8 | DataType::UInt16 | DataType::UInt32 | DataType::UInt64 => {
            Ok(Lanes::UInts(Vec::with_capacity(alloc, count)?))
        }
        DataType::Boolean => Ok(Lanes::Bools(SmallVec::with_capacity(alloc, count / 64 + 1)?)),
        DataType::String => Ok(Lanes::Texts(Vec::with_capacity(alloc, count)?)),
        DataType::Binary => Ok(Lanes::Bytes(Vec::with_capacity(alloc, count)?)),
        DataType::List(_) => Ok(Lanes::Lists(Vec::with_capacity(alloc, count)?)),
        DataType::Null => Ok(Lanes::Nulls),
    }
}

/// The signed number of a place, 0 where it is a null.
#[inline(always)]
pub(crate) fn signed(dtype: &DataType, slot: Option<ValueRef<'_>>) -> i64
    requires kind { IsSigned (kind_of dtype.now) }
    requires fits { slot_fits (kind_of dtype.now) (slot_of_ref slot) ≡ true }
    ensures { IsNullOr (slot_of_ref slot.entry) (integer result) }
{
    match slot {
        Some(ValueRef::Int(z)) => z as i64,
        _ => 0,
    }
}

/// The unsigned number of a place, 0 where it is a null.
#[inline(always)]
pub(crate) fn unsigned(dtype: &DataType, slot: Option<ValueRef<'_>>) -> u64
    requires kind { IsUnsigned (kind_of dtype.now) }
    requires fits { slot_fits (kind_of dtype.now) (slot_of_ref slot) ≡ true }
    ensures { IsNullOr (slot_of_ref slot.entry) (integer (pos result)) }
{
    match slot {
        Some(ValueRef::Int(z)) => z as u64,
        _ => 0,
    }
}

/// The truth of a place, false where it is a null.
#[inline(always)]
pub(crate) fn truth(slot: Option<ValueRef<'_>>) -> bool
    requires { slot_fits booleans (slot_of_ref slot) ≡ true }
    ensures { IsNullOr (slot_of_ref slot.entry) (boolean result) }
{
    match slot {
        Some(ValueRef::Boolean(b)) => b,
        _ => false,
    }
}

/// The text of a place, empty where it is a null.
pub(crate) fn text_of(alloc: Global, slot: Option<ValueRef<'_>>) -> Px<Name>
    requires { slot_fits strings (slot_of_ref slot) ≡ true }
    ensures answer { AnswersBy (λ _. tt {0}) result (Ok (tt {0})) }
    ensures value { IfOk result (λ s. IsNullOr (slot_of_ref slot.entry) (text s)) }
{
    match slot {
        Some(ValueRef::Text(s)) => Name::new(alloc, s),
        _ => Name::new(alloc, ""),
    }
}

/// The bytes of a place, none where it is a null.
pub(crate) fn bytes_of(alloc: Global, slot: Option<ValueRef<'_>>) -> Px<ByteString>
    requires { slot_fits binaries (slot_of_ref slot) ≡ true }
    ensures answer { AnswersBy (λ _. tt {0}) result (Ok (tt {0})) }
    ensures value { IfOk result (λ s. IsNullOr (slot_of_ref slot.entry) (bytes s)) }
{
    match slot {
        Some(ValueRef::Bytes(s)) => ByteString::from_slice(alloc, s),
        _ => ByteString::from_slice(alloc, b""),
    }
}

/// The list of a place, an empty one where it is a null.
pub(crate) fn list_of(alloc: Global, dtype: &DataType, slot: Option<ValueRef<'_>>) -> Px<Values>
    requires kind { is_list_kind (kind_of dtype.now) ≡ true }
    requires fits { slot_fits (kind_of dtype.now) (slot_of_ref slot) ≡ true }
    ensures answer { AnswersBy (λ _. tt {0}) result (Ok (tt {0})) }
    ensures value { IfOk result (λ xs. IsNullOr (slot_of_ref slot.entry) (list (slots xs))) }
{
    match slot {
        Some(ValueRef::List(values)) => values.try_clone(alloc),
        _ => Ok(Values::from_vec(Vec::new(alloc))),
    }
}
