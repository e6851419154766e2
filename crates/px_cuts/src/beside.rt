//! Laws of what stands beside a frame that is cut.
ghost use Rattle.std.specs.Prelude.{◌≡◌, ℕ, true, List};
ghost use Rattle.px_column.specs.Prelude.{Series};
ghost use Rattle.px_frame.specs.External.{alone, scope_of};
ghost use Rattle.px_laws.specs.Beside.{beside};
ghost use Rattle.px_tree.specs.Grouped.{key_on, value_on_part};
ghost use Rattle.px_tree.specs.Partition.{is_elementwise, is_partition_safe};
ghost use Rattle.px_tree.specs.Tree.{Tree};
ghost use Rattle.px_tree.specs.Typing.{kind_in, refusals_of};
ghost use Rattle.px_tree.specs.Value.{faults_on};
ghost use Rattle.px_tree.specs.declared.context.Context.{Context};

/// Columns that stand beside a frame are nothing to an expression that is partition safe over the frame's own
/// columns, nor to a key that is elementwise over them: not to its refusals, its type, its faults, its value
/// on some rows, nor to a key's column.
pub fn columns_beside_are_nothing()
    ensures refusals { (e : Tree) (columns external : List Series) (place : Context) → is_partition_safe e (scope_of (alone columns)) ≡ true
        → refusals_of e (scope_of (beside columns external)) place ≡ refusals_of e (scope_of (alone columns)) place }
    ensures kind { (e : Tree) (columns external : List Series) → is_partition_safe e (scope_of (alone columns)) ≡ true
        → kind_in e (scope_of (beside columns external)) ≡ kind_in e (scope_of (alone columns)) }
    ensures faults { (e : Tree) (columns external : List Series) → is_partition_safe e (scope_of (alone columns)) ≡ true
        → faults_on e (beside columns external) ≡ faults_on e (alone columns) }
    ensures value { (e : Tree) (columns external : List Series) (p : List ℕ) → is_partition_safe e (scope_of (alone columns)) ≡ true
        → value_on_part (beside columns external) e p ≡ value_on_part (alone columns) e p }
    ensures key { (e : Tree) (columns external : List Series) → is_elementwise e (scope_of (alone columns)) ≡ true
        → key_on (beside columns external) e ≡ key_on (alone columns) e }
    ensures key_refusals { (e : Tree) (columns external : List Series) (place : Context) → is_elementwise e (scope_of (alone columns)) ≡ true
        → refusals_of e (scope_of (beside columns external)) place ≡ refusals_of e (scope_of (alone columns)) place }
    ensures key_faults { (e : Tree) (columns external : List Series) → is_elementwise e (scope_of (alone columns)) ≡ true
        → faults_on e (beside columns external) ≡ faults_on e (alone columns) }
{}
