//! Rows reduced by states, whole or in two parts.
ghost use Rattle.std.specs.Prelude.{◌≡◌, ◌+◌, ◌^◌, ◌<◌, ◌++◌, true, length, Ok, IfOk};
ghost use Rattle.px_value.specs.Answer.{AnswersBy};
ghost use Rattle.px_value.specs.Kind.{slots_fit};
ghost use Rattle.px_value.specs.KindView.{kind_of};
ghost use Rattle.px_value.specs.View.{slot_of, slots_of};
ghost use Rattle.px_operation.specs.Reduce.{is_taken};
ghost use Rattle.px_operation.specs.Reduction.{reduced_slot};

use super::Reduce;
use px_value::{DataType, Px, Value, lend};
use std::alloc::Global;

/// The state of some rows of a type, absorbed one by one.
pub fn state_of<R: Reduce + Drop>(alloc: Global, dtype: &DataType, rows: &[Option<Value>]) -> Px<R>
    requires taken { is_taken R.method (kind_of dtype.now) ≡ true }
    requires fit { slots_fit (kind_of dtype.now) (slots_of rows.now) ≡ true }
    requires short { length rows.now < 2 ^ 32 }
    ensures answer { AnswersBy (λ _. tt {0}) result (Ok (tt {0})) }
    ensures state { IfOk result (λ s. R.stands_for s (kind_of dtype.now) (slots_of rows.now)) }
{
    let mut state = R::start(alloc, dtype)?;
    for row in rows {
        state.absorb(lend(row))?;
    }
    Ok(state)
}

/// The reduction of some rows of a type, absorbed one by one.
pub fn reduce_rows<R: Reduce + Drop>(
    alloc: Global,
    dtype: &DataType,
    rows: &[Option<Value>],
) -> Px<Option<Value>>
    requires taken { is_taken R.method (kind_of dtype.now) ≡ true }
    requires fit { slots_fit (kind_of dtype.now) (slots_of rows.now) ≡ true }
    requires short { length rows.now < 2 ^ 32 }
    ensures { AnswersBy slot_of result (Ok (reduced_slot R.method (kind_of dtype.now) (slots_of rows.now))) }
{
    let state: R = state_of(alloc, dtype, rows)?;
    state.finish()
}

/// The reduction of some rows of a type and of those after them, each absorbed by a state of its own.
pub fn reduce_parts<R: Reduce + Drop>(
    alloc: Global,
    dtype: &DataType,
    front: &[Option<Value>],
    back: &[Option<Value>],
) -> Px<Option<Value>>
    requires taken { is_taken R.method (kind_of dtype.now) ≡ true }
    requires front_fit { slots_fit (kind_of dtype.now) (slots_of front.now) ≡ true }
    requires back_fit { slots_fit (kind_of dtype.now) (slots_of back.now) ≡ true }
    requires short { length front.now + length back.now < 2 ^ 32 }
    ensures { AnswersBy slot_of result (Ok (reduced_slot R.method (kind_of dtype.now) (slots_of front.now ++ slots_of back.now))) }
{
    let mut state: R = state_of(alloc, dtype, front)?;
    state.merge(state_of(alloc, dtype, back)?)?;
    state.finish()
}
