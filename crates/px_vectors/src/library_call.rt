//! How a library calls the steps: the example of the README, as it stands there.

use px_column::{Name, Px, Steps};
use px_frame::DataFrame;
use px_steps::{Step, run_steps};
use px_tree::{AggExpr, Expr};
use px_window::ExecutionState;
use std::alloc::Global;
use std::rc::Rc;
use std::sync::ledger::Ledger;

/// For each distinct `k` the sum of `x`, and the number of rows.
pub fn totals<L: Ledger, M: Ledger>(
    alloc: Global,
    frame: &DataFrame,
    kernels: &mut Steps<L>,
    groupings: &mut Steps<M>,
) -> Px<DataFrame> {
    let key = Expr::Column(Name::new(alloc, "k")?);
    let sum = AggExpr::Sum(Rc::new(alloc, Expr::Column(Name::new(alloc, "x")?))?);
    let step = Step::GroupAgg {
        keys: vec![in alloc; key]?,
        aggs: vec![in alloc; Expr::Agg(sum), Expr::Len]?,
        chunks: None,
    };
    let mut state = ExecutionState::new(alloc, false)?;
    run_steps(alloc, frame, &[step], &mut state, kernels, groupings)
}
