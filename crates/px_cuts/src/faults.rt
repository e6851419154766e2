//! Laws of the faults of elementwise expressions on parts of a frame.
ghost use Rattle.std.specs.Prelude.{◌≡◌, ◌⊎◌, ℕ, true, List, [], ◌++◌};
ghost use Rattle.std.specs.List.{flat_map};
ghost use Rattle.px_cuts.specs.Cut.{joined};
ghost use Rattle.px_cuts.specs.Faults.{HasNoFaultOnEither, IsOneOf, IsRowWise};
ghost use Rattle.px_frame.specs.External.{Frame, rows_of_frame};
ghost use Rattle.px_laws.specs.Fitting.{has_fitting_columns, has_fitting_literals};
ghost use Rattle.px_tree.specs.Tree.{Tree};
ghost use Rattle.px_tree.specs.Value.{faults_on};
ghost use Rattle.px_tree.specs.declared.context.Context.{Context};
ghost use Rattle.px_value.specs.declared.error.PxError.{PxError};

/// An elementwise expression that has no fault on some rows and others together has none on either; and over
/// columns and literals that fit their types a fault on either is a fault on both together. So of several
/// lists of rows.
pub fn faults_on_parts_are_faults()
    ensures none { (e : Tree) (frame : Frame) (place : Context) (p q : List ℕ) → IsRowWise e frame place
        → faults_on e (rows_of_frame frame (p ++ q)) ≡ [] → HasNoFaultOnEither e frame p q }
    ensures stays { (e : Tree) (frame : Frame) (place : Context) (p q : List ℕ) → IsRowWise e frame place
        → has_fitting_columns frame ≡ true → has_fitting_literals e ≡ true
        → (x : PxError) → IsOneOf x (faults_on e (rows_of_frame frame p)) ⊎ IsOneOf x (faults_on e (rows_of_frame frame q))
        → IsOneOf x (faults_on e (rows_of_frame frame (p ++ q))) }
    ensures none_of_all { (e : Tree) (frame : Frame) (place : Context) (ps : List (List ℕ)) → IsRowWise e frame place
        → faults_on e (rows_of_frame frame (joined ps)) ≡ [] → flat_map (λ p. faults_on e (rows_of_frame frame p)) ps ≡ [] }
    ensures stays_in_all { (e : Tree) (frame : Frame) (place : Context) (ps : List (List ℕ)) → IsRowWise e frame place
        → has_fitting_columns frame ≡ true → has_fitting_literals e ≡ true
        → (x : PxError) → IsOneOf x (flat_map (λ p. faults_on e (rows_of_frame frame p)) ps)
        → IsOneOf x (faults_on e (rows_of_frame frame (joined ps))) }
{}
