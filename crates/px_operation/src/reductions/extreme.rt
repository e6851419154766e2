//! The least and the greatest of the present values.
ghost use Rattle.std.specs.Prelude.{◌≡◌, if◌then◌else◌};
ghost use Rattle.std.specs.Ordering.{ord_max, ord_min};
ghost use Rattle.px_value.specs.LentView.{slot_of_ref};
ghost use Rattle.px_value.specs.Order.{datum_cmp};
ghost use Rattle.px_value.specs.View.{slot_of};
ghost use Rattle.px_operation.specs.Reduce.{IsBest};
ghost use Rattle.px_operation.specs.Reduction.{better};

use super::Reduce;
use px_value::{DataType, Px, Value, ValueRef, copy_slot, lend};
use std::alloc::Global;

/// Whether the lesser of two values is the other one, and not the best so far; a null is passed over.
fn is_lesser(best: Option<ValueRef<'_>>, other: Option<ValueRef<'_>>) -> bool
    ensures { (if result then slot_of_ref other.entry else slot_of_ref best.entry) ≡ better (ord_min datum_cmp) (slot_of_ref best.entry) (slot_of_ref other.entry) }
{
    match (best, other) {
        (Some(x), Some(y)) => y.compare(x).is_lt(),
        (_, other) => other.is_some(),
    }
}

/// Whether the greater of two values is the other one, and not the best so far; a null is passed over.
fn is_greater(best: Option<ValueRef<'_>>, other: Option<ValueRef<'_>>) -> bool
    ensures { (if result then slot_of_ref other.entry else slot_of_ref best.entry) ≡ better (ord_max datum_cmp) (slot_of_ref best.entry) (slot_of_ref other.entry) }
{
    match (best, other) {
        (Some(x), Some(y)) => !y.compare(x).is_lt(),
        (_, other) => other.is_some(),
    }
}

/// The least of the present values; a null where there is none (polars `min`).
#[derive(Drop)]
pub struct MinReduce {
    alloc: Global,
    least: Option<Value>,
}

impl Reduce for MinReduce {
    ghost use Rattle.px_value.specs.declared.method.GroupByMethod.TheVariants.{Min};

    ghost method = { Min };

    ghost stands_for = { λ s k xs. IsBest (ord_min datum_cmp) (slot_of s.least) k xs };

    fn start(alloc: Global, _dtype: &DataType) -> Px<MinReduce> {
        Ok(MinReduce { alloc, least: None })
    }

    fn absorb(&mut self, value: Option<ValueRef<'_>>) -> Px<()> {
        if !is_lesser(lend(&self.least), value) {
            return Ok(());
        }
        self.least = copy_slot(self.alloc, value)?;
        Ok(())
    }

    fn merge(&mut self, later: MinReduce) -> Px<()> {
        if !is_lesser(lend(&self.least), lend(&later.least)) {
            return Ok(());
        }
        self.least = later.least;
        Ok(())
    }

    fn finish(self) -> Px<Option<Value>> {
        Ok(self.least)
    }
}

/// The greatest of the present values; a null where there is none (polars `max`).
#[derive(Drop)]
pub struct MaxReduce {
    alloc: Global,
    greatest: Option<Value>,
}

impl Reduce for MaxReduce {
    ghost use Rattle.px_value.specs.declared.method.GroupByMethod.TheVariants.{Max};

    ghost method = { Max };

    ghost stands_for = { λ s k xs. IsBest (ord_max datum_cmp) (slot_of s.greatest) k xs };

    fn start(alloc: Global, _dtype: &DataType) -> Px<MaxReduce> {
        Ok(MaxReduce {
            alloc,
            greatest: None,
        })
    }

    fn absorb(&mut self, value: Option<ValueRef<'_>>) -> Px<()> {
        if !is_greater(lend(&self.greatest), value) {
            return Ok(());
        }
        self.greatest = copy_slot(self.alloc, value)?;
        Ok(())
    }

    fn merge(&mut self, later: MaxReduce) -> Px<()> {
        if !is_greater(lend(&self.greatest), lend(&later.greatest)) {
            return Ok(());
        }
        self.greatest = later.greatest;
        Ok(())
    }

    fn finish(self) -> Px<Option<Value>> {
        Ok(self.greatest)
    }
}
