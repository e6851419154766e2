//! Laws of the value of an expression.
ghost use Rattle.std.specs.Prelude.{◌≡◌, List, [], ℕ, Some, true, ◌&&◌, ℤ, ◌-ℤ◌, ◌∷◌};
ghost use Rattle.std.specs.Option.{IsSome};
ghost use Rattle.px_column.specs.Prelude.{Series, integer, Kind, fits};
ghost use Rattle.px_frame.specs.Cell.{Cell};
ghost use Rattle.px_frame.specs.External.{Frame, scope_of};
ghost use Rattle.px_tree.specs.Node.{natural};
ghost use Rattle.px_frame.specs.Cell.{is_unit_cell};
ghost use Rattle.px_laws.specs.Beside.{are_columns_of, beside};
ghost use Rattle.px_laws.specs.Faults.{FailsByValue};
ghost use Rattle.px_tree.specs.Nodes.{leaf_names};
ghost use Rattle.px_tree.specs.Shape.{is_unit, name_of};
ghost use Rattle.px_tree.specs.Size.{size_on};
ghost use Rattle.px_tree.specs.Tree.{alias, literal, range};
ghost use Rattle.px_tree.specs.Typing.{refusals_of};
ghost use Rattle.px_tree.specs.Value.{faults_on, value_on};
ghost use Rattle.px_tree.specs.View.{tree};
ghost use Rattle.px_tree.specs.declared.context.Context.TheVariants.{Default};

use px_tree::Expr;

/// The value of an expression is a unit exactly where the expression alone says so, whatever the frame.
#[tactic(auto, using(crate::proofs::Shapes::shape_of_value))]
pub fn value_has_its_shape(expr: &Expr)
    ensures { (frame : Frame) (c : Cell) → value_on (tree expr.now) frame ≡ Some c → is_unit_cell c ≡ is_unit (tree expr.now) }
{
    let _ = expr;
}

/// An expression under another name has the same value, and that name.
pub fn alias_changes_the_name_alone(expr: &Expr)
    ensures value { (frame : Frame) (n : List ℕ) → value_on (alias (tree expr.now) n) frame ≡ value_on (tree expr.now) frame }
    ensures name { (n : List ℕ) → name_of (alias (tree expr.now) n) ≡ n }
{
    let _ = expr;
}

/// The value of an expression whose columns are the frame's own does not depend on what stands beside
/// the frame.
#[tactic(auto, using(crate::proofs::Beside::value_beside))]
pub fn value_needs_no_external_column(expr: &Expr)
    ensures { (columns a b : List Series) → are_columns_of columns (leaf_names (tree expr.now)) ≡ true
        → value_on (tree expr.now) (beside columns a) ≡ value_on (tree expr.now) (beside columns b) }
{
    let _ = expr;
}

/// An expression that is not refused has a value on each frame on which it has no fault.
#[tactic(auto, using(crate::proofs::Defined::value_is_there))]
pub fn accepted_without_fault_has_value(expr: &Expr)
    ensures { (frame : Frame) → refusals_of (tree expr.now) (scope_of frame) Default ≡ []
        → faults_on (tree expr.now) frame ≡ [] → IsSome (value_on (tree expr.now) frame) }
{
    let _ = expr;
}

/// And an expression that has a value on a frame has no fault there.
#[tactic(auto, using(crate::proofs::Defined::value_sound))]
pub fn value_has_no_fault(expr: &Expr)
    ensures { (frame : Frame) (c : Cell) → value_on (tree expr.now) frame ≡ Some c → faults_on (tree expr.now) frame ≡ [] }
{
    let _ = expr;
}

/// Where the columns of a frame and an expression's literals fit their types, an expression that is not
/// refused fails by its values alone, windows included: each of its faults is a cast that loses a value, an
/// argument that a slice cannot use, a null index, a bound of a range that does not lie in its type, a
/// window's list of another length than its part, a row that is not there, or lists of different lengths.
#[tactic(auto, using(crate::proofs::ValueFaults::value_faults))]
pub fn accepted_expressions_fail_by_value(expr: &Expr)
    ensures { FailsByValue (tree expr.now) }
{
    let _ = expr;
}

/// A range whose bounds lie in its type has as many values as its bounds are apart, and none where the
/// high one is not above the low one.
pub fn range_has_its_length()
    ensures { (low high : ℤ) (k : Kind) (frame : Frame) → (fits k (integer low) && fits k (integer high)) ≡ true
        → size_on (literal (range low high k)) (frame ∷ []) ≡ natural (high -ℤ low) }
{}
