//! The order of values.
ghost use Rattle.std.specs.Prelude.{◌≡◌};
ghost use Rattle.px_value.specs.LentView.{datum_of_ref};
ghost use Rattle.px_value.specs.Order.{datum_cmp};

use crate::value_ref::ValueRef;
use std::cmp::Ordering;

impl ValueRef<'_> {
    /// The order of two values of one type: false before true, integers by number, texts and bytes by
    /// their bytes. Lists are not told apart, nor are values of two types.
    pub fn compare(self, other: ValueRef<'_>) -> Ordering
        ensures { result ≡ datum_cmp (datum_of_ref self.entry) (datum_of_ref other.entry) }
    {
        match (self, other) {
            (ValueRef::Boolean(x), ValueRef::Boolean(y)) => x.cmp(&y),
            (ValueRef::Int(x), ValueRef::Int(y)) => x.cmp(&y),
            (ValueRef::Text(x), ValueRef::Text(y)) => x.cmp(y),
            (ValueRef::Bytes(x), ValueRef::Bytes(y)) => x.cmp(y),
            _ => Ordering::Equal,
        }
    }
}
