//! An array over shared values of one type.
ghost use Rattle.std.specs.Prelude.{◌≡◌, ◌+◌, ◌<◌, ◌≤◌, ◌^◌, ℕ, Ok, IfOk, length, drop, take, replicate, true, false, is_ok};
ghost use Rattle.px_array.specs.Inside.{Covers, IsInside, inner_slot, window};
ghost use Rattle.px_value.specs.Answer.{Answers, AnswersBy};
ghost use Rattle.px_value.specs.Kind.{Kind, is_list_kind, slot_fits, slots_fit};
ghost use Rattle.px_value.specs.KindView.{kind_of};
ghost use Rattle.px_value.specs.LentView.{slot_of_ref};
ghost use Rattle.px_value.specs.Series.{slot_at};
ghost use Rattle.px_value.specs.View.{slot_of};

use crate::copying::{copy_constant, copy_place};
use crate::filling::lane_at;
use crate::lanes::Store;
use crate::rows::Rows;
use px_value::{DataType, Px, Value, ValueRef, Values, lend};
use std::alloc::Global;
use std::marker::Model;
use std::rc::Rc;

/// Shared values of one type, or one value for all places.
pub(crate) enum Inner {
    Shared(Rc<Store>),
    Constant(Option<Value>),
    SameList(Rc<Values>),
}

/// One call where values are let go, so that proofs see no case of them.
impl Drop for Inner {
    fn drop(self) {
        match self {
            Inner::Shared(_store) => {}
            Inner::Constant(_slot) => {}
            Inner::SameList(_values) => {}
        }
    }
}

/// What stands at a place.
#[inline(always)]
pub(crate) fn place_at(inner: &Inner, i: usize) -> Option<ValueRef<'_>>
    requires { Covers inner.now (i + 1) }
    ensures { slot_of_ref result ≡ inner_slot inner.now i }
{
    match inner {
        Inner::Shared(store) => lane_at(&store.lanes, &store.valid, i),
        Inner::Constant(slot) => lend(slot),
        Inner::SameList(values) => Some(ValueRef::List(values)),
    }
}

/// The same values, shared.
pub(crate) fn share(alloc: Global, inner: &Inner) -> Px<Inner>
    ensures answer { AnswersBy (λ _. tt {0}) result (Ok (tt {0})) }
    ensures covers { IfOk result (λ x. (n : ℕ) → Covers inner.now n → Covers x n) }
    ensures same { IfOk result (λ x. (i : ℕ) → inner_slot x i ≡ inner_slot inner.now i) }
{
    match inner {
        Inner::Shared(store) => Ok(Inner::Shared(store.clone()?)),
        Inner::Constant(slot) => Ok(Inner::Constant(copy_constant(alloc, slot)?)),
        Inner::SameList(values) => Ok(Inner::SameList(values.clone()?)),
    }
}

/// The same value for all places.
fn same_for_all(alloc: Global, slot: Option<Value>) -> Px<Inner>
    ensures answer { AnswersBy (λ _. tt {0}) result (Ok (tt {0})) }
    ensures memory { (k : Kind) → is_list_kind k ≡ false → slot_fits k (slot_of slot) ≡ true → is_ok result ≡ true }
    ensures covers { IfOk result (λ x. (n : ℕ) → Covers x n) }
    ensures same { IfOk result (λ x. (i : ℕ) → inner_slot x i ≡ slot_of slot) }
{
    match slot {
        Some(Value::List(values)) => Ok(Inner::SameList(Rc::new(alloc, values)?)),
        slot => Ok(Inner::Constant(slot)),
    }
}

/// A list of optional values of one type, which its copies and slices share (Arrow `Array`); seen as
/// the type and the places.
pub struct Array {
    dtype: DataType,
    pub(crate) inner: Inner,
    pub(crate) first: u32,
    pub(crate) len: u32,
}

/// One call where an array is let go, so that proofs see no more of what is inside.
impl Drop for Array {
    fn drop(self) {
        let Array {
            dtype: _dtype,
            inner: _inner,
            first: _,
            len: _,
        } = self;
    }
}

impl Model for Array {
    ghost use Rattle.px_array.specs.Places.{Places, coded_places};

    ghost Value = { Places };

    ghost coded = { coded_places };

    ghost use Rattle.px_array.specs.Inside.{IsInside, window};
    ghost use Rattle.px_value.specs.KindView.{kind_of};

    ghost view = { λ a. record { kind = kind_of a.dtype; slots = window a.inner a.first a.len } };

    ghost invariant = { λ a. IsInside (kind_of a.dtype) a.inner a.first a.len };
}

impl Array {
    /// The first so many of these values.
    pub(crate) fn of_inner(dtype: DataType, inner: Inner, len: u32) -> Array
        requires { IsInside (kind_of dtype) inner 0 len }
        ensures { result ≡ record { kind = kind_of dtype; slots = window inner 0 len } }
    {
        Array {
            dtype,
            inner,
            first: 0,
            len,
        }
    }

    /// The array of this value at each of `len` places, which is kept once. The value fits the type; only
    /// a list may want memory.
    pub fn full(alloc: Global, dtype: DataType, slot: Option<Value>, len: u32) -> Px<Array>
        requires { slot_fits (kind_of dtype) (slot_of slot) ≡ true }
        ensures answer { Answers result (Ok (record { kind = kind_of dtype; slots = replicate len (slot_of slot) })) }
        ensures memory { is_list_kind (kind_of dtype) ≡ false → is_ok result ≡ true }
    {
        let inner = same_for_all(alloc, slot)?;
        Ok(Array::of_inner(dtype, inner, len))
    }

    /// The number of places.
    #[inline(always)]
    pub fn len(&self) -> u32
        ensures { result ≡ length self.now.slots }
    {
        self.len
    }

    /// The type of the values.
    pub fn dtype(&self) -> &DataType
        ensures { kind_of result.now ≡ self.now.kind }
    {
        &self.dtype
    }

    /// The value at a place, `None` where it is a null.
    #[inline(always)]
    pub fn get(&self, index: u32) -> Option<ValueRef<'_>>
        requires { index < length self.now.slots }
        ensures value { slot_of_ref result ≡ slot_at self.now.slots index }
        ensures fits { slot_fits self.now.kind (slot_of_ref result) ≡ true }
    {
        place_at(&self.inner, self.first as usize + index as usize)
    }

    /// A copy of the value at a place, `None` where it is a null; it shares more than 16 bytes of a text or
    /// of a string of bytes.
    pub fn copy(&self, alloc: Global, index: u32) -> Px<Option<Value>>
        requires { index < length self.now.slots }
        ensures value { AnswersBy slot_of result (Ok (slot_at self.now.slots index)) }
        ensures fits { IfOk result (λ s. slot_fits self.now.kind (slot_of s) ≡ true) }
    {
        copy_place(alloc, &self.inner, self.first as usize + index as usize)
    }

    /// The places in order, lent.
    pub fn rows(&self) -> Rows<'_>
        ensures value { result ≡ self.now.slots }
        ensures fit { slots_fit self.now.kind self.now.slots ≡ true }
        ensures short { length self.now.slots < 2 ^ 32 }
    {
        let _ = &self.dtype;
        Rows::over(self)
    }

    /// An equal array, which shares the values.
    pub fn try_clone(&self, alloc: Global) -> Px<Array>
        ensures { Answers result (Ok self.now) }
    {
        Ok(Array {
            dtype: self.dtype.try_clone(alloc)?,
            inner: share(alloc, &self.inner)?,
            first: self.first,
            len: self.len,
        })
    }

    /// So many places from an offset on, which share the values.
    pub fn slice(&self, alloc: Global, offset: u32, len: u32) -> Px<Array>
        requires { offset + len ≤ length self.now.slots }
        ensures { Answers result (Ok (record { kind = self.now.kind; slots = take len (drop offset self.now.slots) })) }
    {
        Ok(Array {
            dtype: self.dtype.try_clone(alloc)?,
            inner: share(alloc, &self.inner)?,
            first: self.first + offset,
            len,
        })
    }
}
