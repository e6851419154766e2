//! What kernels answer, as cells.
ghost use Rattle.std.specs.Prelude.{◌≡◌, Result, IfOk, length, true};
ghost use Rattle.px_column.specs.Prelude.{Answers, AnswersBy, Kind, Refuses, Series, kind_of};
ghost use Rattle.px_value.specs.declared.error.PxError.{PxError as Refusal};
ghost use Rattle.px_frame.specs.CellView.{named_cell};
ghost use Rattle.px_nodes.specs.Named.{as_cell, as_short_cell, unequal};

use px_column::{Column, DataType, Px, PxError};
use px_frame::Cell;

/// The cell of a column that a kernel made: one unit where that is asked for, else its rows.
pub(crate) fn into_cell(column: Px<Column>, is_unit: bool) -> Px<Cell>
    requires { IfOk column (λ s. is_unit ≡ true → length s.slots ≡ 1) }
    ensures answer { (expected : Result Series Refusal) → Answers column expected → AnswersBy named_cell result (as_cell is_unit expected) }
    ensures short { (expected : Result Series Refusal) → Answers column expected → AnswersBy named_cell result (as_short_cell is_unit expected) }
{
    match column {
        Ok(column) => {
            // Each column has fewer than 2^32 rows.
            let _ = column.rows();
            Ok(Cell::new(column, is_unit))
        }
        Err(error) => Err(error),
    }
}

/// What is refused of cells whose lists differ in length: their types, where they have none together,
/// and else the lengths.
pub(crate) fn length_refusal(dtype: Px<DataType>) -> PxError
    ensures { (expected : Result Kind Refusal) → AnswersBy kind_of dtype expected → Refuses result (unequal expected) }
{
    match dtype {
        Ok(_) => PxError::ShapeMismatch,
        Err(error) => error,
    }
}
