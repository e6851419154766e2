//! Nodes under other names.
ghost use Rattle.std.specs.Prelude.{◌≡◌};
ghost use Rattle.px_tree.specs.Shape.{name_of};
ghost use Rattle.px_tree.specs.Tree.{alias};
ghost use Rattle.px_tree.specs.View.{tree};
ghost use Rattle.px_physical.specs.NodeView.{plan_of};

use crate::child::Child;
use crate::phys_expr::PhysExpr;
use crate::physical::PhysicalExpr;
use indexmap::IndexSet;
use px_column::{Column, Name, Px, Steps};
use px_context::AggregationContext;
use px_frame::{DataFrame, Field, GroupPositions, Schema};
use px_plan::Expr;
use px_window::ExecutionState;
use std::alloc::Global;
use std::marker::Model;
use std::rc::Rc;
use std::sync::ledger::Ledger;

/// A node under another name (polars `AliasExpr`).
#[cycle(node)]
#[derive(Drop)]
pub struct AliasExpr {
    physical_expr: Child,
    name: Name,
    expr: Rc<Expr>,
}

impl Model for AliasExpr {
    ghost use Rattle.px_answers.specs.Planned.{Planned, coded_planned};

    ghost Value = { Planned };

    ghost coded = { coded_planned };

    ghost use Rattle.std.specs.Prelude.{◌≡◌};
    ghost use Rattle.px_tree.specs.Tree.{alias};
    ghost use Rattle.px_tree.specs.View.{tree};
    ghost use Rattle.px_physical.specs.NodeView.{plan_of};
    ghost use Rattle.px_physical.specs.Size.{plan_size};

    ghost view = { λ a. record { tree = alias (plan_of a.physical_expr.node.value).tree a.name; columns = (plan_of a.physical_expr.node.value).columns } };

    ghost invariant = { λ a. tree a.expr.value ≡ (plan_of a.physical_expr.node.value).tree };

    ghost size = { plan_size };

    ghost use Rattle.px_physical.specs.Deep.{falls_alias};

    ghost size_decreases = { falls_alias };
}

impl AliasExpr {
    /// A node under this name; the expression is the node's.
    pub fn new(physical_expr: Box<PhysExpr>, name: Name, expr: Rc<Expr>) -> AliasExpr
        requires { tree expr.value ≡ (plan_of physical_expr.value).tree }
        ensures tree { result.tree ≡ alias (plan_of physical_expr.value).tree name }
        ensures columns { result.columns ≡ (plan_of physical_expr.value).columns }
    {
        AliasExpr {
            physical_expr: Child {
                node: physical_expr,
            },
            name,
            expr,
        }
    }

    /// The node that has the other name.
    pub fn physical_expr(&self) -> &PhysExpr
        ensures tree { self.now.tree ≡ alias (plan_of result.now).tree (name_of self.now.tree) }
        ensures columns { self.now.columns ≡ (plan_of result.now).columns }
    {
        &self.physical_expr.node
    }

    /// The name.
    pub fn name(&self) -> &Name
        ensures { name_of self.now.tree ≡ result.now }
    {
        &self.name
    }

    /// The expression that has the other name.
    pub fn expr(&self) -> &Expr
        ensures { self.now.tree ≡ alias (tree result.now) (name_of self.now.tree) }
    {
        &self.expr
    }
}

impl PhysicalExpr for AliasExpr {
    ghost planned = { λ a. a };

    fn as_expression(&self) -> Option<&Expr> {
        Some(&self.expr)
    }

    #[cycle(evaluate)]
    fn evaluate<L: Ledger, M: Ledger>(
        &self,
        alloc: Global,
        df: &DataFrame,
        state: &mut ExecutionState,
        kernels: &mut Steps<L>,
        groupings: &mut Steps<M>,
    ) -> Px<Column> {
        let name = self.name.try_clone(alloc)?;
        let column = self
            .physical_expr
            .node
            .evaluate(alloc, df, state, kernels, groupings)?;
        Ok(column.with_name(name))
    }

    #[tactic(auto, using(px_group_answers::proofs::GroupCounts::alias_group_ticks))]
    #[cycle(groups)]
    fn evaluate_on_groups<'a, L: Ledger, M: Ledger>(
        &self,
        alloc: Global,
        df: &'a DataFrame,
        groups: &'a GroupPositions,
        state: &mut ExecutionState,
        kernels: &mut Steps<L>,
        groupings: &mut Steps<M>,
    ) -> Px<AggregationContext<'a>> {
        let name = self.name.try_clone(alloc)?;
        let context = self
            .physical_expr
            .node
            .evaluate_on_groups(alloc, df, groups, state, kernels, groupings)?;
        context.with_name(alloc, name)
    }

    #[cycle(inline)]
    #[tactic(auto, using(crate::proofs::Inlined::alias_inline, crate::proofs::Inlined::not_inline))]
    fn evaluate_inline_impl(&self, alloc: Global, depth_limit: u8) -> Px<Option<Column>> {
        let input = &self.physical_expr.node;
        if depth_limit == 0 {
            return Ok(None);
        }
        match input.evaluate_inline_impl(alloc, depth_limit - 1)? {
            Some(column) => Ok(Some(column.with_name(self.name.try_clone(alloc)?))),
            None => Ok(None),
        }
    }

    #[cycle(field)]
    fn to_field(&self, alloc: Global, input_schema: &Schema) -> Px<Field> {
        let name = self.name.try_clone(alloc)?;
        let field = self.physical_expr.node.to_field(alloc, input_schema)?;
        let dtype = field.dtype;
        Ok(Field { name, dtype })
    }

    #[cycle(live)]
    fn collect_live_columns(&self, alloc: Global, lv: &mut IndexSet<Name>) -> Px<()> {
        self.physical_expr.node.collect_live_columns(alloc, lv)?;
        lv.insert_full(self.name.try_clone(alloc)?)?;
        Ok(())
    }

    #[cycle(literal)]
    fn is_literal(&self) -> bool {
        self.physical_expr.node.is_literal()
    }

    #[cycle(scalar)]
    fn is_scalar(&self) -> bool {
        self.physical_expr.node.is_scalar()
    }

    fn is_partitioned_aggregator(&self) -> bool {
        let _ = &self.expr;
        true
    }
}
