//! Laws of the parts of a frame's rows, and of cells at a number of rows.
ghost use Rattle.std.specs.Prelude.{◌≡◌, ◌≢◌, ℕ, ◌<◌, List, Option, Ok, Err, length, map, replicate, slice_index};
ghost use Rattle.std.specs.List.{All, AllZip, concat, range_with_len};
ghost use Rattle.std.specs.List.Sorted.{IsPermutation, IsStrictlyIncreasing};
ghost use Rattle.px_column.specs.Prelude.{Slot, Series, slot_at};
ghost use Rattle.px_value.specs.declared.error.PxError.TheVariants.{ShapeMismatch};
ghost use Rattle.px_value.specs.declared.sort_options.SortOptions.{SortOptions};
ghost use Rattle.px_frame.specs.Cell.{unit, rows};
ghost use Rattle.px_frame.specs.External.{Frame, height, rows_of_frame, scope_of};
ghost use Rattle.px_frame.specs.Frame.{series_at};
ghost use Rattle.px_frame.specs.Groups.{first_row};
ghost use Rattle.px_frame.specs.Ordered.{ordered_parts};
ghost use Rattle.px_frame.specs.Parts.{parts_of};
ghost use Rattle.px_frame.specs.Schema.{column_field};
ghost use Rattle.px_frame.specs.Spread.{spread};
ghost use Rattle.px_frame.specs.Keyed.{HasOneKey, HasWholeKey};

/// The parts of n rows by some columns hold the rows below n, each once. No part is empty, and the rows
/// of a part rise.
#[tactic(auto, using(px_frame::proofs::PartRows::each_row_once, px_frame::proofs::PartRows::no_part_is_empty, px_frame::proofs::PartRows::parts_rise))]
pub fn parts_hold_each_row_once()
    ensures once { (by : List Series) (n : ℕ) → IsPermutation (range_with_len 0 n) (concat (parts_of by n)) }
    ensures not_empty { (by : List Series) (n : ℕ) → All (λ p. 0 < length p) (parts_of by n) }
    ensures rising { (by : List Series) (n : ℕ) → All IsStrictlyIncreasing (parts_of by n) }
{}

/// Two rows are in one part exactly where the columns hold the same at both, a null being the same as a
/// null.
pub fn parts_are_the_rows_of_a_key()
    ensures one_key { (by : List Series) (n : ℕ) → All (HasOneKey by) (parts_of by n) }
    ensures whole_key { (by : List Series) (n : ℕ) → All (HasWholeKey by n) (parts_of by n) }
{}

/// The parts stand in the order of their first rows.
#[tactic(auto, using(crate::proofs::FirstRows::first_rows_rise))]
pub fn parts_stand_by_their_first_rows()
    ensures { (by : List Series) (n : ℕ) → IsStrictlyIncreasing (map first_row (parts_of by n)) }
{}

/// The parts whose rows are put in the order of a column are those parts, each in an order of its own,
/// and hold each row once.
#[tactic(auto, using(px_frame::proofs::OrderedRows::each_ordered_row_once, px_frame::proofs::OrderedRows::each_part_moved))]
pub fn ordered_parts_hold_each_row_once()
    ensures same_parts { (by : List Series) (order : Option (Series × SortOptions)) (n : ℕ) → AllZip IsPermutation (parts_of by n) (ordered_parts by order n) }
    ensures once { (by : List Series) (order : Option (Series × SortOptions)) (n : ℕ) → IsPermutation (range_with_len 0 n) (concat (ordered_parts by order n)) }
{}

/// The frame of a group's rows has the frame's names and types, as many rows as the group, and at each
/// what the frame holds at that row.
#[tactic(auto, using(crate::proofs::Defined::fields_at, crate::proofs::Defined::scope_of_rows, crate::proofs::GroupRows::height_of_rows, crate::proofs::GroupRows::values_of_rows))]
pub fn group_rows_are_the_frame()
    ensures fields { (frame : Frame) (group : List ℕ) → map column_field (rows_of_frame frame group).columns ≡ map column_field frame.columns }
    ensures scope { (frame : Frame) (group : List ℕ) → scope_of (rows_of_frame frame group) ≡ scope_of frame }
    ensures height { (frame : Frame) (group : List ℕ) → 0 < length frame.columns → height (rows_of_frame frame group) ≡ length group }
    ensures values { (s : Series) (group : List ℕ) (i : ℕ) → i < length group → slot_at (series_at group s).slots i ≡ slot_at s.slots (slice_index group i) }
{}

/// A list stands at as many rows as it has and at no other number, also a list of one row. A unit stands
/// at any number of rows, and is the same at each.
pub fn spread_keeps_equal_lengths()
    ensures own_length { (xs : List Slot) → spread (length xs) (rows xs) ≡ Ok xs }
    ensures other_length { (n : ℕ) (xs : List Slot) → length xs ≢ n → spread n (rows xs) ≡ Err ShapeMismatch }
    ensures unit { (n : ℕ) (s : Slot) → spread n (unit s) ≡ Ok (replicate n s) }
{}
