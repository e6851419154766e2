//! Laws of how many values expressions have that can be evaluated on chunks.
ghost use Rattle.std.specs.Prelude.{◌≡◌, ℕ, ◌≤◌, true, false, List, map};
ghost use Rattle.std.specs.List.{list_any, sum_by};
ghost use Rattle.px_cuts.specs.Sizes.{rows_or_one};
ghost use Rattle.px_frame.specs.External.{Frame, rows_of_frame};
ghost use Rattle.px_tree.specs.Cost.{windows_in};
ghost use Rattle.px_tree.specs.Nodes.{leaf_names};
ghost use Rattle.px_tree.specs.Partition.{is_elementwise, is_partition_safe};
ghost use Rattle.px_tree.specs.Size.{size_on};
ghost use Rattle.px_tree.specs.Tree.{Tree};
ghost use Rattle.px_tree.specs.Typing.{Scope};
ghost use Rattle.px_tree.specs.Value.{is_misfit};

/// An elementwise or partition safe expression has, over the frames of some lists of rows together, no more
/// values than these have rows, an empty list counting for one; and an elementwise one has no window.
pub fn values_are_no_more_than_rows()
    ensures elementwise { (e : Tree) (s : Scope) (frame : Frame) (ps : List (List ℕ)) → is_elementwise e s ≡ true
        → list_any (is_misfit frame) (leaf_names e) ≡ false → size_on e (map (rows_of_frame frame) ps) ≤ sum_by rows_or_one ps }
    ensures safe { (e : Tree) (s : Scope) (frame : Frame) (ps : List (List ℕ)) → is_partition_safe e s ≡ true
        → list_any (is_misfit frame) (leaf_names e) ≡ false → size_on e (map (rows_of_frame frame) ps) ≤ sum_by rows_or_one ps }
    ensures windows { (e : Tree) (s : Scope) → is_elementwise e s ≡ true → windows_in e ≡ 0 }
{}
