//! A row of one column of integers, as the key of a table.
ghost use Rattle.std.specs.Prelude.{◌≡◌, ◌∷◌, [], IfSome, fold, option_map};
ghost use Rattle.px_array.specs.Integers.{IsNumber};
ghost use Rattle.px_value.specs.Datum.{integer};
ghost use Rattle.px_value.specs.Equality.{row_eq};
ghost use Rattle.px_column.specs.NumberKey.{number_hash, number_row};

use std::hash::{Hash, Hasher};
use std::marker::Model;

/// An integer of 64 bits, or none.
#[derive(Clone, Copy)]
enum Number {
    Missing,
    Natural(u64),
    Negative(i64),
}

/// An integer of 64 bits that may be missing, equal to and hashed as every key that holds the same; seen
/// as a row of one column that holds it.
#[derive(Drop)]
pub struct NumberKey {
    number: Number,
}

impl Model for NumberKey {
    ghost use Rattle.std.specs.Prelude.{List};
    ghost use Rattle.px_value.specs.Datum.{Slot};
    ghost use Rattle.px_value.specs.DatumCode.{coded_slots};

    ghost Value = { List Slot };

    ghost coded = { coded_slots };

    ghost use Rattle.px_column.specs.NumberKey.{number_row};

    ghost view = { λ k. number_row k.number };
}

/// The number that an integer of 64 bits is kept as.
fn number_of(value: Option<i128>) -> Number
    requires { IfSome value IsNumber }
    ensures { number_row result ≡ option_map integer value ∷ [] }
{
    match value {
        None => Number::Missing,
        Some(value) => if value < 0 {
            Number::Negative(value as i64)
        } else {
            Number::Natural(value as u64)
        },
    }
}

/// The integer, `None` where it is missing.
fn integer_of(number: Number) -> Option<i128>
    ensures { option_map integer result ∷ [] ≡ number_row number }
{
    match number {
        Number::Missing => None,
        Number::Natural(value) => Some(value as i128),
        Number::Negative(value) => Some(value as i128),
    }
}

impl NumberKey {
    /// The key of an integer of 64 bits, with a sign or without one, or of a null.
    pub fn new(value: Option<i128>) -> NumberKey
        requires { IfSome value IsNumber }
        ensures { result ≡ option_map integer value ∷ [] }
    {
        NumberKey {
            number: number_of(value),
        }
    }
}

fn same_number(a: Option<i128>, b: Option<i128>) -> bool
    ensures { result ≡ row_eq (option_map integer a ∷ []) (option_map integer b ∷ []) }
{
    match (a, b) {
        (None, None) => true,
        (Some(a), Some(b)) => a == b,
        _ => false,
    }
}

fn hash_number<H: Hasher>(number: Option<i128>, state: &mut H)
    ensures { state.new ≡ fold H.write state.old (number_hash (option_map integer number ∷ [])) }
{
    match number {
        None => state.write_u8(0),
        Some(number) => number.hash(state),
    }
}

impl PartialEq for NumberKey {
    ghost use Rattle.std.specs.Cmp as laws;
    ghost use Rattle.px_value.specs.Equality.{row_eq};
    ghost use Rattle.px_value.specs.Decided.{IsEquivalence-decides, row_decides};

    ghost eq = { row_eq };

    ghost laws = { laws.partial_equiv_from_equiv (IsEquivalence-decides row_decides) };

    fn eq(&self, other: &NumberKey) -> bool {
        same_number(integer_of(self.number), integer_of(other.number))
    }
}

impl Eq for NumberKey {
    ghost use Rattle.px_value.specs.Decided.{IsEquivalence-decides, row_decides};

    ghost laws = { IsEquivalence-decides row_decides };
}

impl Hash for NumberKey {
    ghost use Rattle.std.specs.Hash as fed;
    ghost use Rattle.px_column.specs.NumberKey.{number_hash};
    ghost use Rattle.px_value.specs.Decided.{row_decides};

    ghost hash_input = { number_hash };

    ghost respects_eq = { (fed.same_Alike number_hash row_decides).fed };

    fn hash<H: Hasher>(&self, state: &mut H) {
        hash_number(integer_of(self.number), state);
    }
}
