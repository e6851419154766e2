//! Comparisons of two values of one type.
ghost use Rattle.std.specs.Prelude.{◌≡◌, Some, true};
ghost use Rattle.px_value.specs.Kind.{Kind};
ghost use Rattle.px_value.specs.LentView.{datum_of_ref, slot_of_ref};
ghost use Rattle.px_value.specs.View.{slot_of};
ghost use Rattle.px_operation.specs.Operator.{is_comparison, operated, truth};

use super::truth::truth;
use px_value::{Operator, Value, ValueRef, same_slot};

/// What a comparison says of two values.
fn holds(op: Operator, left: ValueRef<'_>, right: ValueRef<'_>) -> bool
    requires { is_comparison op ≡ true }
    ensures { (k : Kind) → truth result ≡ operated k op (Some (datum_of_ref left.entry)) (Some (datum_of_ref right.entry)) }
{
    match op {
        Operator::NotEq | Operator::NotEqValidity => !same_slot(Some(left), Some(right)),
        Operator::Lt => left.compare(right).is_lt(),
        Operator::LtEq => left.compare(right).is_le(),
        Operator::Gt => left.compare(right).is_gt(),
        Operator::GtEq => left.compare(right).is_ge(),
        _ => same_slot(Some(left), Some(right)),
    }
}

/// What a comparison says of two slots: nothing where one is a null, but for the two that take a null
/// for the same as a null.
pub(crate) fn compare_slots(
    op: Operator,
    left: Option<ValueRef<'_>>,
    right: Option<ValueRef<'_>>,
) -> Option<Value>
    requires { is_comparison op ≡ true }
    ensures { (k : Kind) → slot_of result ≡ operated k op (slot_of_ref left.entry) (slot_of_ref right.entry) }
{
    match op {
        Operator::EqValidity => truth(same_slot(left, right)),
        Operator::NotEqValidity => truth(!same_slot(left, right)),
        _ => match (left, right) {
            (Some(x), Some(y)) => truth(holds(op, x, y)),
            _ => None,
        },
    }
}
