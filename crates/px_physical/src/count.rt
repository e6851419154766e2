//! The number of rows.
ghost use Rattle.std.specs.Prelude.{◌≡◌, []};
ghost use Rattle.px_tree.specs.Shape.{has_implode, is_literal_tree};
ghost use Rattle.px_tree.specs.Tree.{len};
ghost use Rattle.px_tree.specs.View.{tree};

use crate::physical::PhysicalExpr;
use indexmap::IndexSet;
use px_column::{Column, DataType, Name, Px, Steps, Value};
use px_context::{AggregationContext, ColRef, GroupsRef};
use px_frame::{DataFrame, Field, GroupPositions, Schema};
use px_plan::Expr;
use px_window::ExecutionState;
use std::alloc::Global;
use std::marker::Model;
use std::sync::ledger::Ledger;

/// The number of rows (polars `CountExpr`).
#[derive(Drop)]
pub struct CountExpr {
    expr: Expr,
}

impl Model for CountExpr {
    ghost use Rattle.px_answers.specs.Planned.{Planned, coded_planned};

    ghost Value = { Planned };

    ghost coded = { coded_planned };

    ghost use Rattle.std.specs.Prelude.{◌≡◌, []};
    ghost use Rattle.px_tree.specs.Tree.{len};
    ghost use Rattle.px_tree.specs.View.{tree};

    ghost view = { λ a. record { tree = len; columns = [] } };

    ghost invariant = { λ a. tree a.expr ≡ len };
}

impl CountExpr {
    /// The number of rows.
    pub fn new() -> CountExpr
        ensures tree { result.tree ≡ len }
        ensures columns { result.columns ≡ [] }
    {
        CountExpr { expr: Expr::Len }
    }

    /// The expression.
    pub fn expr(&self) -> &Expr
        ensures expression { tree result.now ≡ self.now.tree }
        ensures tree { self.now.tree ≡ len }
        ensures columns { self.now.columns ≡ [] }
    {
        &self.expr
    }

    /// Whether it is a literal.
    pub(crate) fn has_literals_alone(&self) -> bool
        ensures { result ≡ is_literal_tree self.now.tree }
    {
        let _ = &self.expr;
        false
    }

    /// Whether an Implode stands in it.
    pub(crate) fn has_implode(&self) -> bool
        ensures { result ≡ has_implode self.now.tree }
    {
        let _ = &self.expr;
        false
    }
}

impl PhysicalExpr for CountExpr {
    ghost planned = { λ a. a };

    fn as_expression(&self) -> Option<&Expr> {
        Some(&self.expr)
    }

    fn evaluate<L: Ledger, M: Ledger>(
        &self,
        alloc: Global,
        df: &DataFrame,
        state: &mut ExecutionState,
        kernels: &mut Steps<L>,
        groupings: &mut Steps<M>,
    ) -> Px<Column> {
        let _ = &self.expr;
        let name = Name::new(alloc, "len")?;
        let height = Value::Int(df.height() as i128);
        Column::full(alloc, name, DataType::UInt32, height, 1)
    }

    #[tactic(auto, using(px_group_answers::proofs::GroupCounts::idle_cost, px_group_answers::proofs::GroupCounts::idle_ticks))]
    fn evaluate_on_groups<'a, L: Ledger, M: Ledger>(
        &self,
        alloc: Global,
        df: &'a DataFrame,
        groups: &'a GroupPositions,
        state: &mut ExecutionState,
        kernels: &mut Steps<L>,
        groupings: &mut Steps<M>,
    ) -> Px<AggregationContext<'a>> {
        let _ = &self.expr;
        // The rows of each group are below the height.
        let _ = groups.len();
        let name = Name::new(alloc, "len")?;
        let lengths = groups.group_count(alloc)?.with_name(name);
        let column = ColRef::Owned(lengths);
        Ok(AggregationContext::new(column, GroupsRef::Borrowed(groups), true))
    }

    fn evaluate_inline_impl(&self, alloc: Global, depth_limit: u8) -> Px<Option<Column>> {
        let _ = &self.expr;
        Ok(None)
    }

    fn to_field(&self, alloc: Global, input_schema: &Schema) -> Px<Field> {
        let _ = &self.expr;
        let name = Name::new(alloc, "len")?;
        let dtype = DataType::UInt32;
        Ok(Field { name, dtype })
    }

    fn collect_live_columns(&self, alloc: Global, lv: &mut IndexSet<Name>) -> Px<()> {
        let _ = &self.expr;
        Ok(())
    }

    fn is_literal(&self) -> bool {
        let _ = &self.expr;
        false
    }

    fn is_scalar(&self) -> bool {
        let _ = &self.expr;
        true
    }

    fn is_partitioned_aggregator(&self) -> bool {
        let _ = &self.expr;
        true
    }
}
