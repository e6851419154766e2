//! Taking JSON values apart.
ghost use Rattle.std.specs.Prelude.{◌≡◌, [], ◌∷◌, map, option_map};
ghost use Rattle.serde_json.specs.Find.{as_str};
ghost use Rattle.serde_json.specs.View.{view};
ghost use Rattle.px_document.specs.Form.{Reads, items, fields, has_members, only_member};

use crate::document::fault::DocumentFault;
use px_column::Name;
use serde_json::Value;
use std::alloc::Global;

/// The items of an array.
#[tactic(auto, using(crate::proofs::Views::listed_view))]
pub(crate) fn items(value: &Value) -> Option<&[Value]>
    ensures { option_map (λ xs. map view xs.now) result ≡ items (view value.now) }
{
    match value.as_array() {
        Some(items) => Some(items.as_slice()),
        None => None,
    }
}

#[tactic(auto, using(crate::proofs::Views::member_count_view))]
fn has_members(value: &Value, count: usize) -> bool
    ensures { result ≡ has_members count (view value.now) }
{
    match value.as_object() {
        Some(members) => members.len() == count,
        None => false,
    }
}

/// The key and the value of an object of one member.
#[tactic(auto, using(crate::proofs::Views::only_view, crate::proofs::Views::no_only_view, crate::proofs::Views::no_only_object))]
pub(crate) fn only_member(value: &Value) -> Option<(&str, &Value)>
    ensures { option_map (λ p. (p.0.now, view p.1.now)) result ≡ only_member (view value.now) }
{
    let members = value.as_object()?;
    if members.len() != 1 {
        return None;
    }
    let (key, inside) = members.first_key_value()?;
    Some((key.as_str(), inside))
}

/// The values of an object whose only keys are these two.
pub(crate) fn two_fields<'v>(
    value: &'v Value,
    first: &str,
    second: &str,
) -> Option<(&'v Value, &'v Value)>
    ensures { option_map (λ p. view p.0.now ∷ view p.1.now ∷ []) result
        ≡ fields (first.now ∷ second.now ∷ []) (view value.now) }
{
    if !has_members(value, 2) {
        return None;
    }
    Some((value.get(first)?, value.get(second)?))
}

/// The values of an object whose only keys are these three.
pub(crate) fn three_fields<'v>(
    value: &'v Value,
    first: &str,
    second: &str,
    third: &str,
) -> Option<(&'v Value, &'v Value, &'v Value)>
    ensures { option_map (λ p. view p.0.now ∷ view p.1.now ∷ view p.2.now ∷ []) result
        ≡ fields (first.now ∷ second.now ∷ third.now ∷ []) (view value.now) }
{
    if !has_members(value, 3) {
        return None;
    }
    Some((value.get(first)?, value.get(second)?, value.get(third)?))
}

/// The values of an object whose only keys are these four.
pub(crate) fn four_fields<'v>(
    value: &'v Value,
    first: &str,
    second: &str,
    third: &str,
    fourth: &str,
) -> Option<(&'v Value, &'v Value, &'v Value, &'v Value)>
    ensures { option_map (λ p. view p.0.now ∷ view p.1.now ∷ view p.2.now ∷ view p.3.now ∷ []) result
        ≡ fields (first.now ∷ second.now ∷ third.now ∷ fourth.now ∷ []) (view value.now) }
{
    if !has_members(value, 4) {
        return None;
    }
    Some((
        value.get(first)?,
        value.get(second)?,
        value.get(third)?,
        value.get(fourth)?,
    ))
}

/// A text, copied.
pub(crate) fn read_text(alloc: Global, value: &Value) -> Result<Name, DocumentFault>
    ensures { Reads result (as_str (view value.now)) }
{
    match value.as_str() {
        Some(text) => Ok(Name::new(alloc, text)?),
        None => Err(DocumentFault::BadDocument),
    }
}
