//! Values, and lists of optional values.
ghost use Rattle.std.specs.Prelude.{◌≡◌, ◌<◌, ◌^◌, ◌==◌, length, vec_len};
ghost use Rattle.px_value.specs.View.{slots_of};
ghost use Rattle.px_value.specs.LentView.{slot_of_ref};
ghost use Rattle.px_value.specs.Series.{slot_at};

use crate::name::{ByteString, Name};
use crate::value_ref::{ValueRef, lend};
use std::marker::Model;

/// What one place of a column holds.
#[cycle(value)]
#[derive(Drop)]
pub enum Value {
    /// A truth.
    Boolean(bool),
    /// An integer of any integer type.
    Int(i128),
    /// A text.
    Text(Name),
    /// A list of bytes.
    Bytes(ByteString),
    /// A list of values, each of which may be missing.
    List(Values),
}

/// The items of a list value, of which there are fewer than 2^32; seen as a list of optional values.
#[cycle(value)]
#[derive(Drop)]
pub struct Values {
    pub(crate) items: Vec<Option<Value>>,
}

impl Model for Values {
    ghost use Rattle.std.specs.Prelude.{List, ◌<◌, ◌^◌, length};
    ghost use Rattle.px_value.specs.Datum.{Slot, list_weight};
    ghost use Rattle.px_value.specs.DatumCode.{coded_slots};

    ghost Value = { List Slot };

    ghost coded = { coded_slots };

    ghost use Rattle.px_value.specs.View.{slots_of};

    ghost view = { λ v. slots_of v.items.items };

    ghost invariant = { λ v. length v.items.items < 2 ^ 32 };

    ghost size = { list_weight };

    ghost use Rattle.std.proofs.Common.{arith};
    ghost use Rattle.px_value.specs.Falls.{values_fall};

    ghost size_decreases = { λ a h. omega (arith, values_fall a.items.items) };
}

impl Values {
    /// These values in this order, of which there are fewer than 2^32.
    pub fn from_vec(rows: Vec<Option<Value>>) -> Values
        requires { vec_len rows < 2 ^ 32 }
        ensures { result ≡ slots_of rows.items }
    {
        Values { items: rows }
    }

    /// How many values and nulls there are.
    pub fn len(&self) -> u32
        ensures { result ≡ length self.now }
    {
        self.items.len() as u32
    }

    /// Whether there is none.
    pub fn is_empty(&self) -> bool
        ensures { result ≡ (length self.now == 0) }
    {
        self.items.is_empty()
    }

    /// The value at a place, `None` where it is a null.
    pub fn get(&self, index: u32) -> Option<ValueRef<'_>>
        requires { index < length self.now }
        ensures { slot_of_ref result ≡ slot_at self.now index }
    {
        lend(&self.items[index as usize])
    }
}
