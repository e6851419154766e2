//! The sum of the present values.
ghost use Rattle.px_value.specs.KindView.{kind_of};
ghost use Rattle.px_operation.specs.Reduce.{IsTotal};

use super::Reduce;
use crate::operators::number_in;
use crate::sum::number;
use crate::types::sum_type;
use px_value::{DataType, InvalidWhy, Px, PxError, Value, ValueRef};
use std::alloc::Global;

/// The sum of the present values, modulo its type (polars `sum`). It is kept whole: fewer than 2^32
/// numbers of 64 bits do not leave 128 bits.
#[derive(Drop)]
pub struct SumReduce {
    dtype: DataType,
    total: i128,
}

impl Reduce for SumReduce {
    ghost use Rattle.px_value.specs.declared.method.GroupByMethod.TheVariants.{Sum};

    ghost method = { Sum };

    ghost stands_for = { λ s k xs. IsTotal (kind_of s.dtype) s.total k xs };

    fn start(_alloc: Global, dtype: &DataType) -> Px<SumReduce> {
        match sum_type(dtype) {
            None => Err(PxError::InvalidOperation(InvalidWhy::Types)),
            Some(dtype) => Ok(SumReduce { dtype, total: 0 }),
        }
    }

    fn absorb(&mut self, value: Option<ValueRef<'_>>) -> Px<()> {
        self.total += number(value);
        Ok(())
    }

    fn merge(&mut self, later: SumReduce) -> Px<()> {
        self.total += later.total;
        Ok(())
    }

    fn finish(self) -> Px<Option<Value>> {
        Ok(number_in(&self.dtype, self.total))
    }
}
