//! The number of rows, or of those that hold a value.
ghost use Rattle.std.specs.Prelude.{◌≡◌};
ghost use Rattle.px_operation.specs.Reduction.{row_count};

use super::Reduce;
use px_value::{DataType, Px, Value, ValueRef};
use std::alloc::Global;

/// The number of rows (polars `count`): null rows are counted too where `NULLS` is not 0.
#[derive(Drop)]
pub struct CountReduce<const NULLS: u8> {
    count: u32,
}

impl<const NULLS: u8> Reduce for CountReduce<NULLS> {
    ghost use Rattle.std.specs.Prelude.{◌==◌, not};
    ghost use Rattle.px_value.specs.declared.method.GroupByMethod.TheVariants.{Count};

    ghost method = { Count (not (NULLS == 0)) };

    ghost stands_for = { λ s k xs. s.count ≡ row_count (not (NULLS == 0)) xs };

    fn start(_alloc: Global, _dtype: &DataType) -> Px<CountReduce<NULLS>> {
        Ok(CountReduce { count: 0 })
    }

    fn absorb(&mut self, value: Option<ValueRef<'_>>) -> Px<()> {
        if NULLS != 0 || value.is_some() {
            self.count += 1;
        }
        Ok(())
    }

    fn merge(&mut self, later: CountReduce<NULLS>) -> Px<()> {
        self.count += later.count;
        Ok(())
    }

    fn finish(self) -> Px<Option<Value>> {
        Ok(Some(Value::Int(self.count as i128)))
    }
}
