//! Logic on truths that may be missing.
ghost use Rattle.std.specs.Prelude.{◌≡◌, not};
ghost use Rattle.px_value.specs.Equality.{datum_eq};
ghost use Rattle.px_value.specs.LentView.{slot_of_ref};
ghost use Rattle.px_value.specs.View.{slot_of};
ghost use Rattle.px_operation.specs.Operator.{compared, kleene_and, kleene_or, truth, truth_of};

use px_value::{Value, ValueRef, same_slot};

/// A truth as a value.
pub(crate) fn truth(holds: bool) -> Option<Value>
    ensures { slot_of result ≡ truth holds }
{
    Some(Value::Boolean(holds))
}

/// Whether a value is true, or not zero; `None` where there is no value, or one of another kind.
pub(crate) fn truth_of(slot: Option<ValueRef<'_>>) -> Option<bool>
    ensures { result ≡ truth_of (slot_of_ref slot.entry) }
{
    match slot {
        Some(ValueRef::Boolean(holds)) => Some(holds),
        Some(ValueRef::Int(z)) => Some(z != 0),
        _ => None,
    }
}

/// And of truths that may be missing: false decides, and else a missing one leaves it open.
pub(crate) fn both(left: Option<bool>, right: Option<bool>) -> Option<Value>
    ensures { slot_of result ≡ kleene_and left right }
{
    match (left, right) {
        (Some(false), _) | (_, Some(false)) => truth(false),
        (Some(true), Some(true)) => truth(true),
        _ => None,
    }
}

/// Or of truths that may be missing: true decides, and else a missing one leaves it open.
pub(crate) fn either(left: Option<bool>, right: Option<bool>) -> Option<Value>
    ensures { slot_of result ≡ kleene_or left right }
{
    match (left, right) {
        (Some(true), _) | (_, Some(true)) => truth(true),
        (Some(false), Some(false)) => truth(false),
        _ => None,
    }
}

/// Whether two truths differ; nothing where one is missing.
pub(crate) fn exactly_one(left: Option<ValueRef<'_>>, right: Option<ValueRef<'_>>) -> Option<Value>
    ensures { slot_of result ≡ compared (λ x y. not (datum_eq x y)) (slot_of_ref left.entry) (slot_of_ref right.entry) }
{
    match (left, right) {
        (Some(_), Some(_)) => truth(!same_slot(left, right)),
        _ => None,
    }
}
