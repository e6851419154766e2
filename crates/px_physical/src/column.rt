//! The column of a name.
ghost use Rattle.std.specs.Prelude.{◌≡◌, [], ◌∷◌};
ghost use Rattle.px_tree.specs.Shape.{has_implode, is_literal_tree, name_of};
ghost use Rattle.px_tree.specs.Tree.{column};
ghost use Rattle.px_tree.specs.View.{tree};

use crate::physical::PhysicalExpr;
use indexmap::IndexSet;
use px_column::{Column, Name, Px, PxError, Steps};
use px_context::{AggregationContext, ColRef, GroupsRef};
use px_frame::{DataFrame, Field, GroupPositions, Schema, SchemaRef};
use px_plan::Expr;
use px_scope::{copy_column, external_column, found_column};
use px_window::ExecutionState;
use std::alloc::Global;
use std::marker::Model;
use std::rc::Rc;
use std::sync::ledger::Ledger;

/// The column of a name, the frame's or else one beside it (polars `ColumnExpr`).
#[derive(Drop)]
pub struct ColumnExpr {
    name: Name,
    expr: Rc<Expr>,
    schema: SchemaRef,
}

impl Model for ColumnExpr {
    ghost use Rattle.px_answers.specs.Planned.{Planned, coded_planned};

    ghost Value = { Planned };

    ghost coded = { coded_planned };

    ghost use Rattle.std.specs.Prelude.{◌≡◌, [], ◌∷◌};
    ghost use Rattle.px_tree.specs.Tree.{column};
    ghost use Rattle.px_tree.specs.View.{tree};

    ghost view = { λ a. record { tree = column a.name; columns = record { name = a.name; schema = a.schema.value } ∷ [] } };

    ghost invariant = { λ a. tree a.expr.value ≡ column a.name };
}

impl ColumnExpr {
    /// The column of this name, planned over a schema; the expression is that column.
    pub fn new(name: Name, expr: Rc<Expr>, schema: SchemaRef) -> ColumnExpr
        requires { tree expr.value ≡ column name }
        ensures tree { result.tree ≡ column name }
        ensures columns { result.columns ≡ record { name = name; schema = schema.value } ∷ [] }
    {
        ColumnExpr { name, expr, schema }
    }

    /// The name.
    pub fn name(&self) -> &Name
        ensures { self.now.tree ≡ column result.now }
    {
        &self.name
    }

    /// The expression.
    pub fn expr(&self) -> &Expr
        ensures { tree result.now ≡ self.now.tree }
    {
        &self.expr
    }

    /// The schema that the node was planned over.
    pub fn schema(&self) -> &SchemaRef
        ensures { self.now.columns ≡ record { name = name_of self.now.tree; schema = result.now.value } ∷ [] }
    {
        &self.schema
    }

    /// Whether it is a literal.
    pub(crate) fn has_literals_alone(&self) -> bool
        ensures { result ≡ is_literal_tree self.now.tree }
    {
        let _ = &self.expr;
        false
    }

    /// Whether an Implode stands in it.
    pub(crate) fn has_implode(&self) -> bool
        ensures { result ≡ has_implode self.now.tree }
    {
        let _ = &self.expr;
        false
    }
}

impl PhysicalExpr for ColumnExpr {
    ghost planned = { λ a. a };

    fn as_expression(&self) -> Option<&Expr> {
        Some(&self.expr)
    }

    fn evaluate<L: Ledger, M: Ledger>(
        &self,
        alloc: Global,
        df: &DataFrame,
        state: &mut ExecutionState,
        kernels: &mut Steps<L>,
        groupings: &mut Steps<M>,
    ) -> Px<Column> {
        copy_column(alloc, df, state, &self.name, &self.schema)
    }

    #[tactic(auto, using(px_group_answers::proofs::GroupCounts::idle_cost, px_group_answers::proofs::GroupCounts::idle_ticks))]
    fn evaluate_on_groups<'a, L: Ledger, M: Ledger>(
        &self,
        alloc: Global,
        df: &'a DataFrame,
        groups: &'a GroupPositions,
        state: &mut ExecutionState,
        kernels: &mut Steps<L>,
        groupings: &mut Steps<M>,
    ) -> Px<AggregationContext<'a>> {
        // The rows of each group are below the height.
        let _ = groups.len();
        match found_column(df, &self.name, &self.schema) {
            Some(column) => {
                let column = ColRef::Borrowed(column);
                let groups = GroupsRef::Borrowed(groups);
                Ok(AggregationContext::new(column, groups, false))
            }
            None => {
                let column = external_column(alloc, df, state, &self.name, &self.schema)?;
                let column = ColRef::Owned(column);
                let groups = GroupsRef::Borrowed(groups);
                Ok(AggregationContext::new(column, groups, false))
            }
        }
    }

    fn evaluate_inline_impl(&self, alloc: Global, depth_limit: u8) -> Px<Option<Column>> {
        let _ = &self.expr;
        Ok(None)
    }

    fn to_field(&self, alloc: Global, input_schema: &Schema) -> Px<Field> {
        match input_schema.get_field(alloc, &self.name)? {
            Some(field) => Ok(field),
            None => Err(PxError::ColumnNotFound(self.name.try_clone(alloc)?)),
        }
    }

    fn collect_live_columns(&self, alloc: Global, lv: &mut IndexSet<Name>) -> Px<()> {
        lv.insert_full(self.name.try_clone(alloc)?)?;
        Ok(())
    }

    fn is_literal(&self) -> bool {
        let _ = &self.expr;
        false
    }

    fn is_scalar(&self) -> bool {
        let _ = &self.expr;
        false
    }

    fn is_partitioned_aggregator(&self) -> bool {
        let _ = &self.expr;
        true
    }
}
