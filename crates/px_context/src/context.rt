//! The context of an expression over groups (polars `AggregationContext`).
ghost use Rattle.std.specs.Prelude.{◌≡◌, Bool, IsTrue, length, not, true, if◌then◌else◌};
ghost use Rattle.px_context.specs.LentView.{series_of, groups_in, layout_of, values_of};
ghost use Rattle.px_context.specs.Context.{HasShape};
ghost use Rattle.px_context.specs.Built.{is_aggregated, is_literal, is_unit_literal};

mod aggregation;
mod final_aggregation;
mod groups;
mod joining;
mod lending;
mod pieces;
mod setters;

use crate::agg_state::{AggState, Layout, UpdateGroups};
use crate::lent::{ColRef, GroupsRef};
use px_column::Column;
use std::marker::Model;

/// One cell for each group, laid out in one of four states: what an expression has on that group's rows
/// alone. Seen as its layout, its column of values, its groups, the update of the groups that is
/// pending, and the mark that its layout is the frame's own and untouched; its cells are told by these.
pub struct AggregationContext<'a> {
    state: AggState<'a>,
    groups: GroupsRef<'a>,
    update: UpdateGroups,
    // Of a literal, whether it is a unit.
    is_unit: bool,
    is_untouched: bool,
}

/// One call where a context is let go, so that proofs see no more of what is inside.
impl Drop for AggregationContext<'_> {
    fn drop(self) {
        let AggregationContext {
            state: _state,
            groups: _groups,
            update: _,
            is_unit: _,
            is_untouched: _,
        } = self;
    }
}

impl<'a> Model for AggregationContext<'a> {
    ghost use Rattle.px_context.specs.Context.{Context, coded_context};

    ghost Value = { Context };

    ghost coded = { coded_context };

    ghost use Rattle.px_context.specs.LentView.{groups_in, layout_of, values_of};
    ghost use Rattle.px_context.specs.Context.{IsContext};

    ghost view = { λ c. record {
      layout = layout_of c.is_unit c.state;
      values = values_of c.state;
      groups = groups_in c.groups;
      update = c.update;
      untouched = c.is_untouched;
    } };

    ghost invariant = { λ c. IsContext (record {
      layout = layout_of c.is_unit c.state;
      values = values_of c.state;
      groups = groups_in c.groups;
      update = c.update;
      untouched = c.is_untouched;
    }) };
}

impl<'a> AggregationContext<'a> {
    ghost use Rattle.px_context.specs.Context.{IsContext};
    ghost use Rattle.px_context.specs.Built.{new_context, state_context, literal_context};

    /// The context of a column that has a value for each group, where it is aggregated, or else one for
    /// each row of the groups' height; the latter is untouched.
    pub fn new(
        column: ColRef<'a>,
        groups: GroupsRef<'a>,
        aggregated: bool,
    ) -> AggregationContext<'a>
        requires { length (series_of column).slots ≡ (if aggregated then length (groups_in groups).groups else (groups_in groups).height) }
        ensures { result ≡ new_context aggregated (series_of column.entry) (groups_in groups.entry) }
    {
        let state = if aggregated {
            AggState::AggregatedScalar(column)
        } else {
            AggState::NotAggregated(column)
        };
        AggregationContext {
            state,
            groups,
            update: UpdateGroups::No,
            is_unit: false,
            is_untouched: !aggregated,
        }
    }

    /// The context of a state whose column has the rows that the state wants: lists and no nulls, one for
    /// each group; a value for each group; one for each row of the groups' height; a literal of one row,
    /// which is a unit. A context of `NotAggregated` is untouched.
    pub fn from_agg_state(state: AggState<'a>, groups: GroupsRef<'a>) -> AggregationContext<'a>
        requires { HasShape (layout_of true state) (values_of state) (groups_in groups) }
        ensures { result ≡ state_context (layout_of true state.entry) (values_of state.entry) (groups_in groups.entry) }
    {
        let is_untouched = matches!(&state, AggState::NotAggregated(_));
        AggregationContext {
            state,
            groups,
            update: UpdateGroups::No,
            is_unit: true,
            is_untouched,
        }
    }

    /// The context of a literal, of which a unit has one row.
    pub fn from_literal(
        lit: ColRef<'a>,
        groups: GroupsRef<'a>,
        unit: bool,
    ) -> AggregationContext<'a>
        requires { IsTrue unit → length (series_of lit).slots ≡ 1 }
        ensures { result ≡ literal_context unit (series_of lit.entry) (groups_in groups.entry) }
    {
        AggregationContext {
            state: AggState::Literal(lit),
            groups,
            update: UpdateGroups::No,
            is_unit: unit,
            is_untouched: false,
        }
    }

    /// How the values are laid out.
    pub(crate) fn layout(&self) -> Layout
        ensures layout { result ≡ self.now.layout }
        ensures context { IsContext self.now }
    {
        match &self.state {
            AggState::AggregatedList(_) => Layout::Lists,
            AggState::AggregatedScalar(_) => Layout::Scalars,
            AggState::NotAggregated(_) => Layout::Flat,
            AggState::Literal(_) => {
                if self.is_unit {
                    Layout::Unit
                } else {
                    Layout::Rows
                }
            }
        }
    }

    /// The state.
    pub fn agg_state(&self) -> &AggState<'a>
        ensures layout { (unit : Bool) × (layout_of unit result.now ≡ self.now.layout) }
        ensures values { values_of result.now ≡ self.now.values }
    {
        &self.state
    }

    /// The column of values, as the state keeps it.
    pub fn get_values(&self) -> &Column
        ensures { result.now ≡ self.now.values }
    {
        self.state.column()
    }

    /// Whether there is a list or a value for each group.
    pub fn is_aggregated(&self) -> bool
        ensures { result ≡ is_aggregated self.now.layout }
    {
        matches!(
            &self.state,
            AggState::AggregatedList(_) | AggState::AggregatedScalar(_)
        )
    }

    /// Whether there are rows to which the groups point, or a literal.
    pub fn is_not_aggregated(&self) -> bool
        ensures { result ≡ not (is_aggregated self.now.layout) }
    {
        !self.is_aggregated()
    }

    /// Whether there is a literal, the same for each group.
    pub fn is_literal(&self) -> bool
        ensures { result ≡ is_literal self.now.layout }
    {
        matches!(&self.state, AggState::Literal(_))
    }

    /// Whether there is a literal that is a unit.
    pub fn is_unit_literal(&self) -> bool
        ensures { result ≡ is_unit_literal self.now.layout }
    {
        self.is_literal() && self.is_unit
    }

    /// Whether the layout is the frame's own and untouched: then the values are flat, and the groups are
    /// those that the context was made with.
    pub fn is_untouched(&self) -> bool
        ensures mark { result ≡ self.now.untouched }
        ensures context { IsContext self.now }
    {
        self.is_untouched
    }
}
