//! One value more, or what stands at a place.
ghost use Rattle.std.specs.Prelude.{◌≡◌, ◌+◌, ◌*◌, ◌<◌, ℕ, List, Ok, IfOk, OnOk, length, true, is_ok, is_some, if◌then◌else◌};
ghost use Rattle.px_array.specs.Lanes.{Holds, IsFor, IsNullOr, IsWords, Reaches, lane_slot};
ghost use Rattle.px_array.specs.Words.{word_bit};
ghost use Rattle.px_value.specs.Answer.{Answers, AnswersBy};
ghost use Rattle.px_value.specs.Datum.{bytes, list, slots, text};
ghost use Rattle.px_value.specs.Kind.{binaries, is_list_kind, slot_fits, strings};
ghost use Rattle.px_value.specs.KindView.{kind_of};
ghost use Rattle.px_value.specs.LentView.{slot_of_ref};
ghost use Rattle.px_value.specs.View.{slot_of};

use crate::lanes::{Lanes, bytes_of, list_of, signed, text_of, truth, unsigned};
use crate::words::{bit, make_room, set_bit};
use px_value::{ByteString, DataType, Name, Px, Value, ValueRef, Values, lend};
use smallvec::SmallVec;
use std::alloc::Global;

/// One truth more.
fn add_truth(words: &mut SmallVec<u64, 1>, len: u32, set: bool) -> Px<()>
    requires { IsWords words.old.items len }
    ensures answer { Answers result (Ok tt) }
    ensures words { IsWords words.new.items (if is_ok result then len + 1 else len) }
    ensures same { (k : ℕ) → k < len → word_bit words.new.items k ≡ word_bit words.old.items k }
    ensures here { OnOk result (word_bit words.new.items len ≡ set) }
{
    make_room(words, len as usize)?;
    if set {
        set_bit(words, len as usize);
    }
    Ok(())
}

/// One value more of any type, copied: that of a place, or any where it is a null.
fn add_copy(
    alloc: Global,
    lanes: &mut Lanes,
    dtype: &DataType,
    len: u32,
    slot: Option<ValueRef<'_>>,
) -> Px<()>
    requires for_kind { IsFor (kind_of dtype.now) lanes.old }
    requires holds { Holds lanes.old len }
    requires fits { slot_fits (kind_of dtype.now) (slot_of_ref slot) ≡ true }
    ensures answer { Answers result (Ok tt) }
    ensures for_kind { IsFor (kind_of dtype.now) lanes.new }
    ensures holds { Holds lanes.new (if is_ok result then len + 1 else len) }
    ensures same { (ws : List ℕ) (i : ℕ) → i < len → lane_slot lanes.new ws i ≡ lane_slot lanes.old ws i }
    ensures here { OnOk result ((ws : List ℕ) → word_bit ws len ≡ is_some slot.entry → lane_slot lanes.new ws len ≡ slot_of_ref slot.entry) }
{
    match lanes {
        Lanes::Ints(v) => v.push(signed(dtype, slot))?,
        Lanes::UInts(v) => v.push(unsigned(dtype, slot))?,
        Lanes::Bools(words) => add_truth(words, len, truth(slot))?,
        Lanes::Texts(v) => v.push(text_of(alloc, slot)?)?,
        Lanes::Bytes(v) => v.push(bytes_of(alloc, slot)?)?,
        Lanes::Lists(v) => v.push(list_of(alloc, dtype, slot)?)?,
        Lanes::Nulls => {}
    }
    Ok(())
}

/// One value more, copied: that of a place, or any where it is a null. Integers take no further call.
#[inline(always)]
pub(crate) fn add_ref(
    alloc: Global,
    lanes: &mut Lanes,
    dtype: &DataType,
    len: u32,
    slot: Option<ValueRef<'_>>,
) -> Px<()>
    requires for_kind { IsFor (kind_of dtype.now) lanes.old }
    requires holds { Holds lanes.old len }
    requires fits { slot_fits (kind_of dtype.now) (slot_of_ref slot) ≡ true }
    ensures answer { Answers result (Ok tt) }
    ensures for_kind { IsFor (kind_of dtype.now) lanes.new }
    ensures holds { Holds lanes.new (if is_ok result then len + 1 else len) }
    ensures same { (ws : List ℕ) (i : ℕ) → i < len → lane_slot lanes.new ws i ≡ lane_slot lanes.old ws i }
    ensures here { OnOk result ((ws : List ℕ) → word_bit ws len ≡ is_some slot.entry → lane_slot lanes.new ws len ≡ slot_of_ref slot.entry) }
{
    match lanes {
        Lanes::Ints(v) => v.push(signed(dtype, slot))?,
        Lanes::UInts(v) => v.push(unsigned(dtype, slot))?,
        _ => add_copy(alloc, lanes, dtype, len, slot)?,
    }
    Ok(())
}

/// The text of a place, empty where it is a null.
fn into_text(alloc: Global, slot: Option<Value>) -> Px<Name>
    requires { slot_fits strings (slot_of slot) ≡ true }
    ensures answer { AnswersBy (λ _. tt {0}) result (Ok (tt {0})) }
    ensures value { IfOk result (λ s. IsNullOr (slot_of slot) (text s)) }
{
    match slot {
        Some(Value::Text(text)) => Ok(text),
        _ => Name::new(alloc, ""),
    }
}

/// The bytes of a place, none where it is a null.
fn into_bytes(alloc: Global, slot: Option<Value>) -> Px<ByteString>
    requires { slot_fits binaries (slot_of slot) ≡ true }
    ensures answer { AnswersBy (λ _. tt {0}) result (Ok (tt {0})) }
    ensures value { IfOk result (λ s. IsNullOr (slot_of slot) (bytes s)) }
{
    match slot {
        Some(Value::Bytes(bytes)) => Ok(bytes),
        _ => ByteString::from_slice(alloc, b""),
    }
}

/// The list of a place, an empty one where it is a null.
fn into_list(alloc: Global, dtype: &DataType, slot: Option<Value>) -> Values
    requires kind { is_list_kind (kind_of dtype.now) ≡ true }
    requires fits { slot_fits (kind_of dtype.now) (slot_of slot) ≡ true }
    ensures { IsNullOr (slot_of slot) (list (slots result)) }
{
    match slot {
        Some(Value::List(values)) => values,
        _ => Values::from_vec(Vec::new(alloc)),
    }
}

/// One value more: that of a place, or any where it is a null.
#[inline(always)]
pub(crate) fn add(
    alloc: Global,
    lanes: &mut Lanes,
    dtype: &DataType,
    len: u32,
    slot: Option<Value>,
) -> Px<()>
    requires for_kind { IsFor (kind_of dtype.now) lanes.old }
    requires holds { Holds lanes.old len }
    requires fits { slot_fits (kind_of dtype.now) (slot_of slot) ≡ true }
    ensures answer { Answers result (Ok tt) }
    ensures for_kind { IsFor (kind_of dtype.now) lanes.new }
    ensures holds { Holds lanes.new (if is_ok result then len + 1 else len) }
    ensures same { (ws : List ℕ) (i : ℕ) → i < len → lane_slot lanes.new ws i ≡ lane_slot lanes.old ws i }
    ensures here { OnOk result ((ws : List ℕ) → word_bit ws len ≡ is_some slot → lane_slot lanes.new ws len ≡ slot_of slot) }
{
    match lanes {
        Lanes::Texts(v) => v.push(into_text(alloc, slot)?)?,
        Lanes::Bytes(v) => v.push(into_bytes(alloc, slot)?)?,
        Lanes::Lists(v) => v.push(into_list(alloc, dtype, slot))?,
        _ => add_ref(alloc, lanes, dtype, len, lend(&slot))?,
    }
    Ok(())
}

/// What stands at a place.
#[inline(always)]
pub(crate) fn lane_at<'a>(lanes: &'a Lanes, valid: &[u64], i: usize) -> Option<ValueRef<'a>>
    requires values { Reaches lanes.now (i + 1) }
    requires valid { i < 64 * length valid.now }
    ensures { slot_of_ref result ≡ lane_slot lanes.now valid.now i }
{
    if !bit(valid, i) {
        return None;
    }
    match lanes {
        Lanes::Ints(v) => Some(ValueRef::Int(v[i] as i128)),
        Lanes::UInts(v) => Some(ValueRef::Int(v[i] as i128)),
        Lanes::Bools(words) => Some(ValueRef::Boolean(bit(words, i))),
        Lanes::Texts(v) => Some(ValueRef::Text(v[i].as_str())),
        Lanes::Bytes(v) => Some(ValueRef::Bytes(v[i].as_slice())),
        Lanes::Lists(v) => Some(ValueRef::List(&v[i])),
        Lanes::Nulls => None,
    }
}
