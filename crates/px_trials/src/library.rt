//! The call of a library, on a frame.
ghost use Rattle.std.specs.Prelude.{◌≡◌, ◌<◌};

use px_column::{Px, Steps};
use px_frame::DataFrame;
use px_trial_texts::{four_rows, is_text, text_of_frame};
use px_vectors::totals;
use std::alloc::Global;
use std::marker::Brand;
use std::sync::ledger::{Blank, Ledger};
use std::test::Fail;

/// The sum of `x` and the length for each `k` of four rows.
pub(crate) const TOTALS: &str =
    "[\"k\",\"x\",\"len\"]\n[\"Int64\",\"Int64\",\"UInt32\"]\n[7,5,3]\n[9,1,1]\n";

fn totals_with_counters<L: Ledger, M: Ledger>(
    alloc: Global,
    frame: &DataFrame,
    kernels: Blank,
    groupings: Blank,
) -> Px<DataFrame>
    requires kernels_name { kernels.name ≡ L.name }
    requires kernels_parts { kernels.parts ≡ L.parts }
    requires kernels_some { 0 < kernels.parts }
    requires groupings_name { groupings.name ≡ M.name }
    requires groupings_parts { groupings.parts ≡ M.parts }
    requires groupings_some { 0 < groupings.parts }
{
    let mut kernels = Steps::<L>::new(kernels);
    let mut groupings = Steps::<M>::new(groupings);
    totals(alloc, frame, &mut kernels, &mut groupings)
}

fn totals_of(alloc: Global) -> Px<DataFrame> {
    let frame = four_rows(alloc)?;
    totals_with_counters::<Brand, Brand>(alloc, &frame, Blank::new(1), Blank::new(1))
}

#[test]
fn a_library_calls_the_steps(rt: HostRuntime) -> Result<(), Fail> {
    let alloc = rt.alloc();
    assert!(rt; is_text(text_of_frame(alloc, totals_of(alloc)), TOTALS)?);
    Ok(())
}
