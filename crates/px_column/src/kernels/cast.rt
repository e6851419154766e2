//! Columns in another type.
ghost use Rattle.std.specs.Prelude.{◌≡◌, ◌+◌};
ghost use Rattle.px_value.specs.Answer.{Answers};
ghost use Rattle.px_value.specs.KindView.{kind_of};
ghost use Rattle.px_column.specs.Retyped.{cast_column, cast_rows};

use crate::builder::ColumnBuilder;
use crate::column::Column;
use px_operation::{cast_type, cast_value};
use px_value::{CastOptions, DataType, Px, Steps};
use std::alloc::Global;
use std::sync::ledger::Ledger;

impl Column {
    /// The rows in another type, or the first that is refused.
    fn cast_rows(&self, alloc: Global, dtype: &DataType, options: CastOptions) -> Px<Column>
        ensures { Answers result (cast_rows (kind_of dtype.now) options self.now) }
    {
        let name = self.name().try_clone(alloc)?;
        let mut rows = ColumnBuilder::new(alloc, name, dtype.try_clone(alloc)?, self.len())?;
        for row in self.rows() {
            rows.push(cast_value(alloc, dtype, options, row)?)?;
        }
        rows.finish()
    }

    /// The column in another type (polars `cast_with_options`); a null stays a null. One step of the
    /// counter, whatever is answered. `Types` where values of this column's type are not cast to the
    /// other one; then a value that the type does not have is refused with `CastLost` under `Strict`,
    /// becomes a null under `NonStrict`, and wraps under `Overflowing`, where a text that is no number
    /// becomes a null.
    pub fn cast_with_options<L: Ledger>(
        &self,
        alloc: Global,
        dtype: &DataType,
        options: CastOptions,
        kernels: &mut Steps<L>,
    ) -> Px<Column>
        ensures answer { Answers result (cast_column (kind_of dtype.now) options self.now) }
        ensures ticks { kernels.new ≡ kernels.old + 1 }
    {
        kernels.tick();
        let dtype = cast_type(alloc, self.dtype(), dtype)?;
        self.cast_rows(alloc, &dtype, options)
    }
}
