//! Laws of partials of single reductions.
ghost use Rattle.std.specs.Prelude.{◌≡◌, List, Some, map};
ghost use Rattle.px_column.specs.Prelude.{Kind, Slot};
ghost use Rattle.px_column.specs.Sum.{sum_kind, summed};
ghost use Rattle.px_cuts.specs.Cut.{joined};
ghost use Rattle.px_cuts.specs.Merge.{any_slot};

/// Partial sums, summed in the type of a sum, are the sum of all rows in it; so are partial sums of partial
/// sums. A sum of sums has that type too.
#[tactic(auto, using(crate::proofs::Partials::sums_merge, crate::proofs::Partials::sums_of_sums_merge, crate::proofs::Partials::sums_keep_type))]
pub fn partial_sums_are_the_sum()
    ensures once { (j k : Kind) (xss : List (List Slot)) → sum_kind j ≡ Some k → summed k (map (summed k) xss) ≡ summed k (joined xss) }
    ensures twice { (j k : Kind) (xsss : List (List (List Slot))) → sum_kind j ≡ Some k
        → summed k (map (λ xss. summed k (map (summed k) xss)) xsss) ≡ summed k (joined (joined xsss)) }
    ensures same_type { (j k : Kind) → sum_kind j ≡ Some k → sum_kind k ≡ Some k }
{}

/// Whether some row of several lists is true is whether some of these lists' answers is.
#[tactic(auto, using(crate::proofs::Partials::any_merges))]
pub fn any_merges()
    ensures { (xss : List (List Slot)) → any_slot (joined xss) ≡ any_slot (map any_slot xss) }
{}
