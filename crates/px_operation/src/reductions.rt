//! Reductions by states: a state absorbs the rows one by one, and two states are merged.
ghost use Rattle.std.specs.Prelude.{◌≡◌, ◌+◌, ◌^◌, ◌<◌, ◌∷◌, [], ◌++◌, true, List, length, is_ok, Ok, IfOk, if◌then◌else◌};
ghost use Rattle.px_value.specs.Answer.{Answers, AnswersBy};
ghost use Rattle.px_value.specs.Datum.{Slot};
ghost use Rattle.px_value.specs.Kind.{Kind, slot_fits};
ghost use Rattle.px_value.specs.KindView.{kind_of};
ghost use Rattle.px_value.specs.LentView.{slot_of_ref};
ghost use Rattle.px_value.specs.View.{slot_of};
ghost use Rattle.px_value.specs.declared.method.GroupByMethod.{GroupByMethod};
ghost use Rattle.px_operation.specs.Reduce.{CanAbsorb, CanMerge, is_taken};
ghost use Rattle.px_operation.specs.Reduction.{reduced_slot};

mod count;
mod ends;
mod extreme;
mod implode;
mod rows;
mod sum;

pub use count::CountReduce;
pub use ends::{FirstReduce, LastReduce};
pub use extreme::{MaxReduce, MinReduce};
pub use implode::ImplodeReduce;
use px_value::{DataType, Px, Value, ValueRef};
pub use rows::{reduce_parts, reduce_rows, state_of};
use std::alloc::Global;
pub use sum::SumReduce;

/// The state of a reduction (polars-expr's reduction states, for one group). A state stands for a list of
/// rows of a type, of which there are fewer than 2^32.
pub trait Reduce: Sized {
    /// The reduction.
    ghost method: { GroupByMethod };

    /// The state is that of these rows of this type.
    ghost stands_for: { Self → Kind → List Slot → Type 0 };

    /// The state of no rows of a type, which the reduction takes.
    fn start(alloc: Global, dtype: &DataType) -> Px<Self>
        requires { is_taken method (kind_of dtype.now) ≡ true }
        ensures answer { AnswersBy (λ _. tt {0}) result (Ok (tt {0})) }
        ensures none { IfOk result (λ s. stands_for s (kind_of dtype.now) []) };

    /// One row more, which is a null or fits the type. Without memory the state is what it was.
    fn absorb(&mut self, value: Option<ValueRef<'_>>) -> Px<()>
        requires { CanAbsorb (stands_for self.old) (slot_of_ref value) }
        ensures answer { Answers result (Ok (tt {0})) }
        ensures one { (k : Kind) (xs : List Slot) → stands_for self.old k xs → slot_fits k (slot_of_ref value.entry) ≡ true → length xs + 1 < 2 ^ 32
            → stands_for self.new k (if is_ok result then xs ++ slot_of_ref value.entry ∷ [] else xs) };

    /// The rows of another state of the same type after those of this one. Without memory the state is
    /// what it was.
    fn merge(&mut self, later: Self) -> Px<()>
        requires { CanMerge (stands_for self.old) (stands_for later) }
        ensures answer { Answers result (Ok (tt {0})) }
        ensures both { (k : Kind) (xs ys : List Slot) → stands_for self.old k xs → stands_for later k ys → length xs + length ys < 2 ^ 32
            → stands_for self.new k (if is_ok result then xs ++ ys else xs) };

    /// The reduction of the rows.
    fn finish(self) -> Px<Option<Value>>
        ensures { (k : Kind) (xs : List Slot) → stands_for self k xs → AnswersBy slot_of result (Ok (reduced_slot method k xs)) };
}
