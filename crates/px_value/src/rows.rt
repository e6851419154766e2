//! A table of small cases that show what the order means. The function does nothing when it runs: its
//! clause is the table.
ghost use Rattle.px_value.specs.OrderRows.{OrderRows};

/// How rows are sorted.
#[tactic(auto, using(crate::proofs::OrderRows::order_rows))]
pub fn order_rows()
    ensures { OrderRows }
{}
