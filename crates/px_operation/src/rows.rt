//! Tables of small cases that show what the definitions mean. Each function does nothing when it runs:
//! its clause is the table.
ghost use Rattle.px_operation.specs.CastRows.{CastRows};
ghost use Rattle.px_operation.specs.FunctionRows.{FunctionRows};
ghost use Rattle.px_operation.specs.OperatorRows.{OperatorRows};
ghost use Rattle.px_operation.specs.ReductionRows.{ReductionRows};
ghost use Rattle.px_operation.specs.WrapRows.{WrapRows};

/// What is left of numbers in each integer type.
#[tactic(auto, using(crate::proofs::WrapRows::wrap_rows))]
pub fn wrap_rows()
    ensures { WrapRows }
{}

/// What operators make of two slots.
#[tactic(auto, using(crate::proofs::OperatorRows::operator_rows))]
pub fn operator_rows()
    ensures { OperatorRows }
{}

/// What casts make of slots.
#[tactic(auto, using(crate::proofs::CastRows::cast_rows))]
pub fn cast_rows()
    ensures { CastRows }
{}

/// What functions make of slots and of columns.
#[tactic(auto, using(crate::proofs::FunctionRows::function_rows))]
pub fn function_rows()
    ensures { FunctionRows }
{}

/// What the reductions make of columns.
#[tactic(auto, using(crate::proofs::ReductionRows::reduction_rows))]
pub fn reduction_rows()
    ensures { ReductionRows }
{}
