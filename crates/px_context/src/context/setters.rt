//! Contexts whose column is replaced or renamed.
ghost use Rattle.std.specs.Prelude.{◌≡◌, IfOk, IsTrue, Ok, length, if◌then◌else◌};
ghost use Rattle.px_column.specs.Prelude.{Answers};
ghost use Rattle.px_context.specs.Built.{renamed, with_column, with_flat, with_lit};
ghost use Rattle.px_context.specs.Context.{cells_of};

use crate::agg_state::{AggState, UpdateGroups};
use crate::context::AggregationContext;
use crate::lent::ColRef;
use px_column::{Column, Name, Px};
use std::alloc::Global;

impl<'a> AggregationContext<'a> {
    /// Keeps a column with a value for each row of the groups' height.
    fn put_flat(&mut self, column: Column)
        requires { length column.slots ≡ self.old.groups.height }
        ensures { self.new ≡ with_flat self.old column }
    {
        self.state = AggState::NotAggregated(ColRef::Owned(column));
        self.update = UpdateGroups::No;
    }

    /// Keeps another column, with a value for each group, where it is aggregated, or else one for each
    /// row of the groups' height, which leaves the mark `is_untouched` as it is. No update of the groups
    /// is pending then (polars `with_values`).
    pub fn with_values(&mut self, column: Column, aggregated: bool)
        requires { length column.slots ≡ (if aggregated then length self.old.groups.groups else self.old.groups.height) }
        ensures { self.new ≡ with_column aggregated self.old column }
    {
        if aggregated {
            self.put_scalars(column);
        } else {
            self.put_flat(column);
        }
    }

    /// Keeps a literal, of which a unit has one row. No update of the groups is pending then (polars
    /// `with_literal`).
    pub fn with_literal(&mut self, column: Column, unit: bool)
        requires { IsTrue unit → length column.slots ≡ 1 }
        ensures { self.new ≡ with_lit unit self.old column }
    {
        self.state = AggState::Literal(ColRef::Owned(column));
        self.is_unit = unit;
        self.update = UpdateGroups::No;
        self.is_untouched = false;
    }
    /// The context with its column under another name; its cells stay as they were (polars `rename` of
    /// the state's column).
    pub fn with_name(self, alloc: Global, name: Name) -> Px<AggregationContext<'a>>
        ensures answer { Answers result (Ok (renamed self.entry name)) }
        ensures cells { IfOk result (λ c. cells_of c ≡ cells_of self.entry) }
    {
        let AggregationContext {
            state,
            groups,
            update,
            is_unit,
            is_untouched,
        } = self;
        let state = state.with_name(alloc, name)?;
        Ok(AggregationContext {
            state,
            groups,
            update,
            is_unit,
            is_untouched,
        })
    }
}
