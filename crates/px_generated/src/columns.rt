//! The columns of a generated document.
ghost use Rattle.std.specs.Prelude.{◌<◌, ◌%◌, ◌^◌, Ok, codes};
ghost use Rattle.px_column.specs.Prelude.{Answers};
ghost use Rattle.px_generated.specs.Generated.{column_of};

use px_column::{Column, ColumnBuilder, DataType, Name, Px, Value};
use std::alloc::Global;

/// The column `k` of `height` rows, with `i` mod 8 at row `i`.
pub(crate) fn keys(alloc: Global, height: u32) -> Px<Column>
    ensures { Answers result (Ok (column_of (codes "k") (λ i. i % 8) height)) }
{
    let name = Name::new(alloc, "k")?;
    let mut builder = ColumnBuilder::new(alloc, name, DataType::Int64, height)?;
    for row in 0..height {
        builder.push(Some(Value::Int((row % 8) as i128)))?;
    }
    builder.finish()
}

/// The column `x` of `height` rows, with `i` at row `i`.
pub(crate) fn values(alloc: Global, height: u32) -> Px<Column>
    ensures { Answers result (Ok (column_of (codes "x") (λ i. i) height)) }
{
    let name = Name::new(alloc, "x")?;
    let mut builder = ColumnBuilder::new(alloc, name, DataType::Int64, height)?;
    for row in 0..height {
        builder.push(Some(Value::Int(row as i128)))?;
    }
    builder.finish()
}
