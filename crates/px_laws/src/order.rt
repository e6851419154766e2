//! Laws of sorted orders.
ghost use Rattle.std.specs.Prelude.{ℕ, List};
ghost use Rattle.std.specs.List.{range_with_len};
ghost use Rattle.std.specs.List.Sorted.{IsPermutation};
ghost use Rattle.px_column.specs.Order.{sorted_rows};
ghost use Rattle.px_column.specs.Prelude.{Slot};
ghost use Rattle.px_value.specs.declared.sort_options.SortOptions.{SortOptions};
ghost use Rattle.px_laws.specs.Order.{AreInOrder, HaveTypes};

/// The rows below n in the order of some keys are these rows, each once. Where each key has values of
/// one type, each row comes before all that stand behind it by the first key that tells them apart, and
/// rows that no key tells apart stand as they were, whatever the directions.
#[tactic(auto, using(crate::proofs::InOrder::sorted_in_order))]
pub fn sorted_rows_are_in_order()
    ensures once { (keys : List (SortOptions × List Slot)) (n : ℕ) → IsPermutation (range_with_len 0 n) (sorted_rows keys n) }
    ensures in_order { (keys : List (SortOptions × List Slot)) (n : ℕ) → HaveTypes keys → AreInOrder keys (sorted_rows keys n) }
{}
