//! What each node offers.
ghost use Rattle.std.specs.Prelude.{◌≡◌, ◌+◌, length, Ok, IfOk, IfErr, OnOk, OnErr, option_map};
ghost use Rattle.px_column.specs.Prelude.{AnswersBy, Answers};
ghost use Rattle.px_frame.specs.Frame.{height_of};
ghost use Rattle.px_frame.specs.SchemaView.{field_kind};
ghost use Rattle.px_tree.specs.Cost.{windows_in};
ghost use Rattle.px_tree.specs.Shape.{is_unit};
ghost use Rattle.px_tree.specs.View.{tree};
ghost use Rattle.px_answers.specs.Counted.{GroupedAtMost, RunAtMost, RunExactly};
ghost use Rattle.px_answers.specs.Inline.{IsInline};
ghost use Rattle.px_answers.specs.Live.{expression_of, field_on, is_literal_node, is_partitioned, live_names, added, AddsFront};
ghost use Rattle.px_answers.specs.Planned.{Planned};
ghost use Rattle.px_answers.specs.Value.{IsValue, IsCause};
ghost use Rattle.px_group_answers.specs.Counted.{RunOnGroups};
ghost use Rattle.px_group_answers.specs.OnGroups.{IsContextOf, IsGroupCause};
ghost use Rattle.px_window.specs.State.{beside};

use indexmap::IndexSet;
use px_column::{Column, Name, Px, Steps};
use px_context::AggregationContext;
use px_frame::{DataFrame, Field, GroupPositions, Schema};
use px_plan::{Context, Expr, output_name, type_of};
use px_window::ExecutionState;
use std::alloc::Global;
use std::sync::ledger::Ledger;

/// An expression that can be evaluated on a frame (polars `PhysicalExpr`).
pub trait PhysicalExpr {
    ghost planned: { Self → Planned };

    /// The expression: none for a reduction; for an alias the one that it stands over.
    fn as_expression(&self) -> Option<&Expr>
        ensures { option_map (λ e. tree e.now) result ≡ expression_of (planned self.now).tree };

    /// The value on a frame, beside which stand the columns of the state's external frames, as a column, a
    /// unit as one row. What is refused, missing or a fault is told by its error; `TooLong` comes only where
    /// the expression, or one in it, has 2^32 values or more. `kernels` rises by one for each kernel that
    /// runs: where the expression is flat, exactly once a node that has one, and never by more than the
    /// expression's cost. `groupings` rises once for each window.
    fn evaluate<L: Ledger, M: Ledger>(
        &self,
        alloc: Global,
        df: &DataFrame,
        state: &mut ExecutionState,
        kernels: &mut Steps<L>,
        groupings: &mut Steps<M>,
    ) -> Px<Column>
        ensures value { IfOk result (λ c. IsValue (planned self.now) (beside df.now state.old) c) }
        ensures causes { IfErr result (λ e. IsCause e (planned self.now) (beside df.now state.old)) }
        ensures frame { state.new ≡ state.old }
        ensures grouped { OnOk result (groupings.new ≡ groupings.old + windows_in (planned self.now).tree) }
        ensures grouped_most { GroupedAtMost (planned self.now).tree groupings.old groupings.new }
        ensures ticks { OnOk result (RunExactly (planned self.now).tree kernels.old kernels.new) }
        ensures cost { RunAtMost (planned self.now).tree (beside df.now state.old) kernels.old kernels.new };

    /// The value on the frame of each group's rows, as a context with a cell for each group; `groups` have
    /// the frame's height, and the columns of the state's external frames stand beside the frame. What is
    /// refused on groups, missing, or a fault of some group is told by its error; `TooLong` comes only where
    /// the expression, or one in it, has 2^32 values or more over all groups together. `kernels` rises by
    /// one for each kernel that runs: where the expression is flat, exactly once a node that has one, else at
    /// most once a node for each group and once more.
    fn evaluate_on_groups<'a, L: Ledger, M: Ledger>(
        &self,
        alloc: Global,
        df: &'a DataFrame,
        groups: &'a GroupPositions,
        state: &mut ExecutionState,
        kernels: &mut Steps<L>,
        groupings: &mut Steps<M>,
    ) -> Px<AggregationContext<'a>>
        requires { groups.now.height ≡ height_of df.now }
        ensures context { IfOk result (IsContextOf (planned self.now) (beside df.now state.old) groups.now) }
        ensures causes { IfErr result (λ e. IsGroupCause e (planned self.now) (beside df.now state.old) groups.now) }
        ensures frame { state.new ≡ state.old }
        ensures grouped { groupings.new ≡ groupings.old }
        ensures ticks { OnOk result (RunExactly (planned self.now).tree kernels.old kernels.new) }
        ensures cost { RunOnGroups (planned self.now).tree (length groups.now.groups) kernels.old kernels.new };

    /// The value without a frame, where there is one: that of a literal which is no range, under at most
    /// four aliases, casts and functions. What is cast, or a function's input, has one row. None for any
    /// other expression, and where it is refused, has a fault or has 2^32 values.
    fn evaluate_inline(&self, alloc: Global) -> Px<Option<Column>>
        ensures inline { IfOk result (IsInline 4 (planned self.now).tree) }
    {
        self.evaluate_inline_impl(alloc, 4)
    }

    /// The same under at most `depth_limit` aliases, casts and functions.
    fn evaluate_inline_impl(&self, alloc: Global, depth_limit: u8) -> Px<Option<Column>>
        ensures inline { IfOk result (IsInline depth_limit (planned self.now).tree) };

    /// The name and the type over a schema, or the first refusal.
    fn to_field(&self, alloc: Global, input_schema: &Schema) -> Px<Field>
        ensures field { AnswersBy field_kind result (field_on (planned self.now).tree input_schema.now) };

    /// Adds the names of the columns that are read and those that aliases give, in the order of visit.
    /// Out of memory, the names that were added so far stay.
    fn collect_live_columns(&self, alloc: Global, lv: &mut IndexSet<Name>) -> Px<()>
        ensures answer { Answers result (Ok tt) }
        ensures live { OnOk result (lv.new.keys ≡ added lv.old.keys (live_names (planned self.now).tree)) }
        ensures part { OnErr result (AddsFront lv.old.keys (live_names (planned self.now).tree) lv.new.keys) };

    /// Whether it is a literal, also under aliases.
    fn is_literal(&self) -> bool
        ensures { result ≡ is_literal_node (planned self.now).tree };

    /// Whether it has one value, whatever the frame.
    fn is_scalar(&self) -> bool
        ensures { result ≡ is_unit (planned self.now).tree };

    /// Whether its kind can be evaluated on chunks of rows, whose partial results are merged.
    fn is_partitioned_aggregator(&self) -> bool
        ensures { result ≡ is_partitioned (planned self.now).tree };
}

/// The name and the type of an expression over a schema, or its first refusal.
pub(crate) fn expression_field(alloc: Global, expr: &Expr, schema: &Schema) -> Px<Field>
    ensures { AnswersBy field_kind result (field_on (tree expr.now) schema.now) }
{
    let dtype = type_of(alloc, expr, schema, Context::Default)?;
    let name = output_name(alloc, expr)?;
    Ok(Field { name, dtype })
}
