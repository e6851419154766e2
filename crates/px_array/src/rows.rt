//! The places of an array, one after the other.
ghost use Rattle.std.specs.Prelude.{◌≡◌, length};
ghost use Rattle.std.specs.Iterator.{YieldsFirstBy, item_count};
ghost use Rattle.px_value.specs.LentView.{slot_of_ref};

use crate::array::Array;
use px_value::ValueRef;
use std::marker::Model;

/// The places of an array that are left, in order.
#[derive(Drop)]
pub struct Rows<'a> {
    array: &'a Array,
    next: u32,
}

impl<'a> Model for Rows<'a> {
    ghost use Rattle.std.specs.Prelude.{List, ◌≤◌, drop, length};
    ghost use Rattle.px_value.specs.Datum.{Slot};
    ghost use Rattle.px_value.specs.DatumCode.{coded_slots};

    ghost Value = { List Slot };

    ghost coded = { coded_slots };

    ghost view = { λ r. drop r.next r.array.now.slots };

    ghost invariant = { λ r. r.next ≤ length r.array.now.slots };
}

impl<'a> Rows<'a> {
    /// All places of an array.
    pub(crate) fn over(array: &'a Array) -> Rows<'a>
        ensures { result ≡ array.now.slots }
    {
        Rows { array, next: 0 }
    }

    fn left(&self) -> u32
        ensures { result ≡ length self.now }
    {
        self.array.len() - self.next
    }
}

impl<'a> Iterator for Rows<'a> {
    type Item = Option<ValueRef<'a>>;

    ghost next_gives = { YieldsFirstBy slot_of_ref (λ s. s) };

    ghost remaining = { item_count (λ s. s) };

    #[inline(always)]
    fn next(&mut self) -> Option<Option<ValueRef<'a>>> {
        if self.next < self.array.len() {
            let row = self.array.get(self.next);
            self.next += 1;
            Some(row)
        } else {
            None
        }
    }

    fn size_hint(&self) -> (usize, Option<usize>) {
        let len = self.left() as usize;
        (len, Some(len))
    }
}

impl ExactSizeIterator for Rows<'_> {
    fn len(&self) -> usize {
        self.left() as usize
    }
}
