//! Tokens that are taken from a text one by one.
ghost use Rattle.std.specs.Prelude.{◌≡◌, ◌==◌, ◌<◌, ◌∷◌, IfOk, IfSome, IsTrue, None, OnSome, Some, drop, length, option_and_then, slice_index, true};
ghost use Rattle.json.specs.Token.{begin_array, begin_object, end_object, key, string};
ghost use Rattle.serde_json.specs.Find.{as_integer};
ghost use Rattle.serde_json.specs.Read.{number_of};
ghost use Rattle.json.specs.Reads.{token_of};
ghost use Rattle.px_column.specs.Prelude.{slot_of_ref};
ghost use Rattle.px_document.specs.Tokens.{IsPlaceOf};

use fast_float::Numeral;
use json::{Reader, Token};
use px_column::ValueRef;

/// Takes the next token, and tells whether it opens an object.
pub(crate) fn take_begin_object(reader: &mut Reader<'_>) -> bool
    ensures { IsTrue result → reader.old ≡ begin_object ∷ reader.new }
{
    matches!(reader.next(), Some(Token::BeginObject))
}

/// Takes the next token, and tells whether it closes an object.
pub(crate) fn take_end_object(reader: &mut Reader<'_>) -> bool
    ensures { IsTrue result → reader.old ≡ end_object ∷ reader.new }
{
    matches!(reader.next(), Some(Token::EndObject))
}

/// Takes the next token, and tells whether it opens an array.
pub(crate) fn take_begin_array(reader: &mut Reader<'_>) -> bool
    ensures { IsTrue result → reader.old ≡ begin_array ∷ reader.new }
{
    matches!(reader.next(), Some(Token::BeginArray))
}

/// Takes the next token, and tells whether it is this key.
pub(crate) fn take_key(reader: &mut Reader<'_>, name: &str) -> bool
    ensures { IsTrue result → reader.old ≡ key name.now ∷ reader.new }
{
    match reader.next() {
        Some(Token::Key(key)) => key == name,
        _ => false,
    }
}

/// Takes the next token: its text, if it is a text.
pub(crate) fn take_text<'t>(reader: &mut Reader<'t>) -> Option<&'t str>
    ensures { IfSome result (λ s. reader.old ≡ string s.now ∷ reader.new) }
{
    match reader.next() {
        Some(Token::String(text)) => Some(text),
        _ => None,
    }
}

fn is_negative(bytes: &[u8]) -> bool
    ensures value { result ≡ (slice_index bytes.now 0 == 45) }
    ensures some { IsTrue result → 0 < length bytes.now }
{
    !bytes.is_empty() && bytes[0] == b'-'
}

/// The integer of 64 bits that a number's text writes, if it writes one.
pub(crate) fn integer_at(text: &str) -> Option<i128>
    ensures { IfSome result (λ n. option_and_then as_integer (number_of text.now) ≡ Some n) }
{
    let bytes = text.as_bytes();
    if is_negative(bytes) {
        let number = Numeral::scan(&bytes[1..]).to_i64(true)?;
        if number < 0 {
            Some(i128::from(number))
        } else {
            None
        }
    } else {
        let number = Numeral::scan(bytes).to_u64()?;
        Some(i128::from(number))
    }
}

/// The place of a column that a token says by itself: a null, a truth, a text or an integer.
#[tactic(auto, using(crate::proofs::Places::null_fits, crate::proofs::Places::boolean_fits, crate::proofs::Places::text_fits, crate::proofs::Places::number_fits))]
pub(crate) fn token_place<'t>(token: Token<'t>) -> Option<Option<ValueRef<'t>>>
    ensures { IfSome result (λ s. IsPlaceOf (token_of token.entry) (slot_of_ref s)) }
{
    match token {
        Token::Null => Some(None),
        Token::Bool(truth) => Some(Some(ValueRef::Boolean(truth))),
        Token::String(text) => Some(Some(ValueRef::Text(text))),
        Token::Number(text) => Some(Some(ValueRef::Int(integer_at(text)?))),
        _ => None,
    }
}
