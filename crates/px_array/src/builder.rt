//! Arrays built place by place.
ghost use Rattle.std.specs.Prelude.{◌≡◌, ◌+◌, ◌<◌, ◌^◌, ◌∷◌, ◌++◌, [], Ok, OnOk, OnErr, length, true};
ghost use Rattle.px_value.specs.Answer.{Answers};
ghost use Rattle.px_value.specs.Kind.{slot_fits};
ghost use Rattle.px_value.specs.KindView.{kind_of};
ghost use Rattle.px_value.specs.LentView.{slot_of_ref};
ghost use Rattle.px_value.specs.View.{slot_of};

use crate::array::{Array, Inner};
use crate::filling::{add, add_ref};
use crate::lanes::{Store, no_values};
use crate::words::{make_room, put_bit};
use px_value::{DataType, Px, Value, ValueRef};
use smallvec::SmallVec;
use std::alloc::Global;
use std::marker::Model;
use std::rc::Rc;

/// An array that is being built (Arrow `ArrayBuilder`), seen as the array of the places so far.
pub struct ArrayBuilder {
    alloc: Global,
    dtype: DataType,
    store: Store,
}

/// One call where a builder is let go, so that proofs see no more of what is inside.
impl Drop for ArrayBuilder {
    fn drop(self) {
        let ArrayBuilder {
            alloc: _,
            dtype: _dtype,
            store: _store,
        } = self;
    }
}

impl Model for ArrayBuilder {
    ghost use Rattle.px_array.specs.Places.{Places, coded_places};

    ghost Value = { Places };

    ghost coded = { coded_places };

    ghost use Rattle.px_array.specs.Inside.{IsBuilt, stored};
    ghost use Rattle.px_value.specs.KindView.{kind_of};

    ghost view = { λ b. record { kind = kind_of b.dtype; slots = stored b.store.lanes b.store.valid.items b.store.len } };

    ghost invariant = { λ b. IsBuilt (kind_of b.dtype) b.store.lanes b.store.valid.items b.store.len };
}

impl ArrayBuilder {
    /// No place yet, with room for so many.
    pub fn new(alloc: Global, dtype: DataType, capacity: u32) -> Px<ArrayBuilder>
        ensures { Answers result (Ok (record { kind = kind_of dtype; slots = [] })) }
    {
        let lanes = no_values(alloc, &dtype, capacity)?;
        let valid = SmallVec::with_capacity(alloc, capacity as usize / 64 + 1)?;
        let store = Store {
            lanes,
            valid,
            len: 0,
        };
        Ok(ArrayBuilder {
            alloc,
            dtype,
            store,
        })
    }

    /// One place more, which fits the type; there is room for it below 2^32. Where memory is wanting
    /// the places stay as they are.
    pub fn push(&mut self, slot: Option<Value>) -> Px<()>
        requires fits { slot_fits self.old.kind (slot_of slot) ≡ true }
        requires room { length self.old.slots + 1 < 2 ^ 32 }
        ensures answer { Answers result (Ok tt) }
        ensures ok { OnOk result (self.new ≡ record { kind = self.old.kind; slots = self.old.slots ++ slot_of slot ∷ [] }) }
        ensures err { OnErr result (self.new ≡ self.old) }
    {
        let present = slot.is_some();
        let row = self.store.len as usize;
        make_room(&mut self.store.valid, row)?;
        add(
            self.alloc,
            &mut self.store.lanes,
            &self.dtype,
            self.store.len,
            slot,
        )?;
        put_bit(&mut self.store.valid, row, present);
        self.store.len += 1;
        Ok(())
    }

    /// One place more, copied, under the conditions of `push`.
    #[inline(always)]
    pub fn push_ref(&mut self, slot: Option<ValueRef<'_>>) -> Px<()>
        requires fits { slot_fits self.old.kind (slot_of_ref slot) ≡ true }
        requires room { length self.old.slots + 1 < 2 ^ 32 }
        ensures answer { Answers result (Ok tt) }
        ensures ok { OnOk result (self.new ≡ record { kind = self.old.kind; slots = self.old.slots ++ slot_of_ref slot.entry ∷ [] }) }
        ensures err { OnErr result (self.new ≡ self.old) }
    {
        let present = slot.is_some();
        let row = self.store.len as usize;
        make_room(&mut self.store.valid, row)?;
        add_ref(
            self.alloc,
            &mut self.store.lanes,
            &self.dtype,
            self.store.len,
            slot,
        )?;
        put_bit(&mut self.store.valid, row, present);
        self.store.len += 1;
        Ok(())
    }

    /// The array of the places.
    pub fn finish(self) -> Px<Array>
        ensures { Answers result (Ok self) }
    {
        let ArrayBuilder {
            alloc,
            dtype,
            store,
        } = self;
        let len = store.len;
        let inner = Inner::Shared(Rc::new(alloc, store)?);
        Ok(Array::of_inner(dtype, inner, len))
    }
}
