//! The list of all rows.
ghost use Rattle.std.specs.Prelude.{◌≡◌, ◌<◌, ◌^◌, vec_len};
ghost use Rattle.px_value.specs.View.{slots_of};

use super::Reduce;
use px_value::{DataType, Px, Value, ValueRef, Values, copy_slot};
use std::alloc::Global;

/// The list of all rows (polars `implode`).
#[derive(Drop)]
pub struct ImplodeReduce {
    alloc: Global,
    rows: Vec<Option<Value>>,
    ghost short: { vec_len rows < 2 ^ 32 },
}

impl Reduce for ImplodeReduce {
    ghost use Rattle.px_value.specs.declared.method.GroupByMethod.TheVariants.{Implode};

    ghost method = { Implode };

    ghost stands_for = { λ s k xs. slots_of s.rows.items ≡ xs };

    fn start(alloc: Global, _dtype: &DataType) -> Px<ImplodeReduce> {
        let rows = Vec::new(alloc);
        Ok(ImplodeReduce { alloc, rows })
    }

    fn absorb(&mut self, value: Option<ValueRef<'_>>) -> Px<()> {
        self.rows.push(copy_slot(self.alloc, value)?)?;
        Ok(())
    }

    fn merge(&mut self, mut later: ImplodeReduce) -> Px<()> {
        self.rows.append(&mut later.rows)?;
        Ok(())
    }

    fn finish(self) -> Px<Option<Value>> {
        Ok(Some(Value::List(Values::from_vec(self.rows))))
    }
}
