//! Reductions: all rows of a column become one value.
ghost use Rattle.std.specs.Prelude.{◌≡◌, ◌+◌, IfOk, Ok, true};
ghost use Rattle.px_value.specs.Answer.{Answers, AnswersBy};
ghost use Rattle.px_value.specs.KindView.{kind_of};
ghost use Rattle.px_operation.specs.Reduce.{is_taken};
ghost use Rattle.px_operation.specs.Reduction.{count_slot, reduced, reduced_kind, reduced_slot, row_count};
ghost use Rattle.px_value.specs.View.{slot_of};

use crate::builder::ColumnBuilder;
use crate::column::Column;
use px_operation::{ImplodeReduce, MaxReduce, MinReduce, Reduce, reduced_type};
use px_value::{DataType, GroupByMethod, Px, Steps, Value, copy_slot};
use std::alloc::Global;
use std::sync::ledger::Ledger;

/// A number of rows.
fn count(rows: u32) -> Option<Value>
    ensures { slot_of result ≡ count_slot rows }
{
    Some(Value::Int(rows as i128))
}

impl Column {
    /// The number of rows, or of those that hold a value.
    #[tactic(auto, using(crate::proofs::Counting::present_count))]
    fn row_count(&self, include_nulls: bool) -> u32
        ensures { result ≡ row_count include_nulls self.now.slots }
    {
        if include_nulls {
            self.len()
        } else {
            self.len() - self.null_count()
        }
    }

    /// The type of a reduction of all rows.
    fn reduced_type(&self, alloc: Global, method: GroupByMethod) -> Px<DataType>
        ensures { AnswersBy kind_of result (reduced_kind method self.now.kind) }
    {
        reduced_type(alloc, method, self.dtype().try_clone(alloc)?)
    }

    /// The state of all rows, which it absorbs one by one.
    fn state<R: Reduce + Drop>(&self, alloc: Global) -> Px<R>
        requires { is_taken R.method self.now.kind ≡ true }
        ensures answer { AnswersBy (λ _. tt {0}) result (Ok (tt {0})) }
        ensures state { IfOk result (λ s. R.stands_for s self.now.kind self.now.slots) }
    {
        // There are fewer than 2^32 rows.
        let _ = self.rows();
        let mut state = R::start(alloc, self.dtype())?;
        for index in 0..self.len() {
            state.absorb(self.get(index))?;
        }
        Ok(state)
    }

    /// The reduction of all rows.
    pub(crate) fn reduce_by<R: Reduce + Drop>(&self, alloc: Global) -> Px<Option<Value>>
        requires { is_taken R.method self.now.kind ≡ true }
        ensures { AnswersBy slot_of result (Ok (reduced_slot R.method self.now.kind self.now.slots)) }
    {
        let state: R = self.state(alloc)?;
        state.finish()
    }

    /// What all rows become. The first and the last row are read in place.
    fn reduce_as(&self, alloc: Global, method: GroupByMethod) -> Px<Option<Value>>
        requires { is_taken method self.now.kind ≡ true }
        ensures { AnswersBy slot_of result (Ok (reduced_slot method self.now.kind self.now.slots)) }
    {
        match method {
            GroupByMethod::Min => self.reduce_by::<MinReduce>(alloc),
            GroupByMethod::Max => self.reduce_by::<MaxReduce>(alloc),
            GroupByMethod::Sum => self.sum_rows(alloc),
            GroupByMethod::First => copy_slot(alloc, self.get_or_null(0)),
            GroupByMethod::Last => copy_slot(alloc, self.get_or_null(self.len().saturating_sub(1))),
            GroupByMethod::NUnique => Ok(count(self.distinct_count(alloc)?)),
            GroupByMethod::Count { include_nulls } => Ok(count(self.row_count(include_nulls))),
            GroupByMethod::Implode => self.reduce_by::<ImplodeReduce>(alloc),
        }
    }

    /// The column of what all rows become, where that is of the type `dtype`.
    fn reduced_column(&self, alloc: Global, method: GroupByMethod, dtype: DataType) -> Px<Column>
        requires { reduced_kind method self.now.kind ≡ Ok (kind_of dtype) }
        ensures { Answers result (reduced method self.now) }
    {
        // Each row fits the type, and so does what they become.
        let _ = self.rows();
        let slot = self.reduce_as(alloc, method)?;
        let name = self.name().try_clone(alloc)?;
        let mut rows = ColumnBuilder::new(alloc, name, dtype, 1)?;
        rows.push(slot)?;
        rows.finish()
    }

    /// One row: the reduction of all rows. `ListKey` where lists would be compared, `Types` where the
    /// values cannot be summed.
    pub fn reduce<L: Ledger>(
        &self,
        alloc: Global,
        method: GroupByMethod,
        kernels: &mut Steps<L>,
    ) -> Px<Column>
        ensures answer { Answers result (reduced method self.now) }
        ensures ticks { kernels.new ≡ kernels.old + 1 }
    {
        kernels.tick();
        let dtype = self.reduced_type(alloc, method)?;
        self.reduced_column(alloc, method, dtype)
    }
}
