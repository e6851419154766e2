//! Laws of the values of an expression on parts of a frame.
ghost use Rattle.std.specs.Prelude.{◌≡◌, ℕ, false, true, List};
ghost use Rattle.px_column.specs.Prelude.{Kind};
ghost use Rattle.px_frame.specs.External.{Frame};
ghost use Rattle.px_laws.specs.Fitting.{has_fitting_columns, has_fitting_literals};
ghost use Rattle.px_laws.specs.Merge.{is_extreme, OnParts, PartsMerge};
ghost use Rattle.px_tree.specs.View.{tree};

use px_tree::Expr;

/// The values of a partition safe expression on parts of a frame's rows, merged, are its value on the rows of
/// all parts: a sum, a count, a length, a first or last value or an Implode whatever the frame
/// holds, and a least or greatest value, too, where columns and literals fit their types. Each part has rows,
/// and they are fewer than 2^32 in all.
#[tactic(auto, using(crate::proofs::Merging::parts_merge, crate::proofs::Merging::typed_parts_merge))]
pub fn partial_values_merge(expr: &Expr)
    ensures no_extreme { (frame : Frame) (k : Kind) (parts : List (List ℕ)) → OnParts (tree expr.now) frame k parts
        → is_extreme (tree expr.now) ≡ false → PartsMerge (tree expr.now) frame k parts }
    ensures fitting { (frame : Frame) (k : Kind) (parts : List (List ℕ)) → OnParts (tree expr.now) frame k parts
        → has_fitting_columns frame ≡ true → has_fitting_literals (tree expr.now) ≡ true → PartsMerge (tree expr.now) frame k parts }
{
    let _ = expr;
}
