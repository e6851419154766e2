//! Laws of contexts, as contracts of functions that do nothing.
ghost use Rattle.std.specs.Prelude.{◌≡◌, ℕ, ◌≤◌, ◌^◌, Err, map, sum, true};
ghost use Rattle.px_frame.specs.Groups.{Groups, rows_of};
ghost use Rattle.px_frame.specs.GroupsView.{groups_of};
ghost use Rattle.px_frame.specs.declared.groups.GroupsType.{GroupsType};
ghost use Rattle.px_value.specs.declared.error.PxError.TheVariants.{ComputeError};
ghost use Rattle.px_value.specs.declared.error.ComputeWhy.TheVariants.{TooLong};
ghost use Rattle.px_context.specs.Changes.{aggregated, counts_of, groups_for, is_pending};
ghost use Rattle.px_context.specs.Context.{Context, cells_of};
ghost use Rattle.px_context.specs.Final.{final_of, flat_in};
ghost use Rattle.px_context.specs.declared.agg_state.Layout.TheVariants.{Flat, Lists};

/// Groups of the same rows give equal cells, whether they are kept as slices or as lists of rows, and
/// whatever their numbers `first` are.
#[tactic(auto, using(crate::proofs::Sameness::cells_alike, crate::proofs::Sameness::cells_kept_alike))]
pub fn same_rows_have_equal_cells()
    ensures cells { (c : Context) (g : Groups) → rows_of g ≡ rows_of c.groups → cells_of (record c { groups = g }) ≡ cells_of c }
    ensures kept { (c : Context) (height : ℕ) (one other : GroupsType) → map (λ p. p.rows) (groups_of one) ≡ map (λ p. p.rows) (groups_of other)
        → cells_of (record c { groups = record { height = height; groups = groups_of one } }) ≡ cells_of (record c { groups = record { height = height; groups = groups_of other } }) }
{}

/// Calls of contexts answer `TooLong` only where the cells have 2^32 values together; lists that are
/// made of flat values, joined, or that groups are rebuilt of, are always refused there.
#[tactic(auto, using(crate::proofs::Sameness::regrouped_long, crate::proofs::Sameness::always_regrouped))]
pub fn only_large_cells_are_too_long()
    ensures aggregated { (c : Context) → aggregated c ≡ Err (ComputeError TooLong) → 2 ^ 32 ≤ sum (counts_of c) }
    ensures groups { (c : Context) → groups_for c ≡ Err (ComputeError TooLong) → 2 ^ 32 ≤ sum (counts_of c) }
    ensures flat { (c : Context) → flat_in c.layout c.values ≡ Err (ComputeError TooLong) → 2 ^ 32 ≤ sum (counts_of c) }
    ensures apart { (c : Context) → final_of c ≡ Err (ComputeError TooLong) → 2 ^ 32 ≤ sum (counts_of c) }
    ensures flat_lists { (c : Context) → c.layout ≡ Flat → 2 ^ 32 ≤ sum (counts_of c) → aggregated c ≡ Err (ComputeError TooLong) }
    ensures joined { (c : Context) → c.layout ≡ Lists → 2 ^ 32 ≤ sum (counts_of c) → flat_in c.layout c.values ≡ Err (ComputeError TooLong) }
    ensures lists_apart { (c : Context) → c.layout ≡ Lists → 2 ^ 32 ≤ sum (counts_of c) → final_of c ≡ Err (ComputeError TooLong) }
    ensures pending { (c : Context) → is_pending c.update ≡ true → 2 ^ 32 ≤ sum (counts_of c) → groups_for c ≡ Err (ComputeError TooLong) }
{}
