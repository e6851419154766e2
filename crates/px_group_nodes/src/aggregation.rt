//! Reductions of a context's cells.
ghost use Rattle.std.specs.Prelude.{◌≡◌, ◌⊎◌, ◌+◌, ◌<◌, ◌≤◌, ◌^◌, [], ◌∷◌, Err, IfOk, IfErr, Ok, OnOk, false, length, replicate, true};
ghost use Rattle.px_column.specs.Prelude.{Answers, AnswersBy};
ghost use Rattle.px_column.specs.Reduction.{reduced_kind};
ghost use Rattle.px_value.specs.declared.error.PxError.TheVariants.{OutOfMemory};
ghost use Rattle.px_frame.specs.Cell.{is_unit_cell};
ghost use Rattle.px_frame.specs.CellView.{named_cell};
ghost use Rattle.px_frame.specs.Groups.{IsGroups};
ghost use Rattle.px_frame.specs.Spread.{column_of_cell};
ghost use Rattle.px_tree.specs.Shape.{is_implode};
ghost use Rattle.px_context.specs.Built.{is_unit_literal, with_column, with_lit};
ghost use Rattle.px_context.specs.Context.{IsContext, cell_kind, has_units};
ghost use Rattle.px_lanes.specs.Made.{IsRefusal, KeepsGroups, named_cells};
ghost use Rattle.px_group_nodes.specs.Reduction.{IsReduced, laid_count, reads_groups, reduced_column, reduces_at_once, reduction_answers, rows_apart};

use px_column::{Column, GroupByMethod, Px, Steps, reduced_type};
use px_context::AggregationContext;
use px_frame::{
    Cell, GroupPositions, agg_count, agg_first, agg_last, agg_list, agg_max, agg_min, agg_n_unique,
    agg_sum,
};
use px_lanes::each_one::{One, make_each};
use px_lanes::lane::lane;
use px_lanes::laying::flat_over;
use px_nodes::aggregation_cells;
use std::alloc::Global;
use std::sync::ledger::Ledger;

/// A reduction as a node of one input.
#[derive(Clone, Copy)]
struct Reduction {
    method: GroupByMethod,
}

impl One for Reduction {
    ghost use Rattle.px_nodes.specs.Named.{aggregation_named};

    ghost node = { λ n. aggregation_named n.method };

    fn make<L: Ledger>(&self, alloc: Global, input: Cell, kernels: &mut Steps<L>) -> Px<Cell> {
        aggregation_cells(alloc, input, self.method, kernels)
    }
}

/// Whether a reduction gives lists.
fn is_implode(method: GroupByMethod) -> bool
    ensures { result ≡ is_implode method }
{
    matches!(method, GroupByMethod::Implode)
}

/// Whether the cells of a context are the rows of one column at its groups.
fn reads_groups(context: &AggregationContext<'_>) -> bool
    ensures flat { result ≡ reads_groups context.now }
    ensures context { IsContext context.now }
    ensures groups { IsGroups context.now.groups.height context.now.groups.groups }
{
    let is_untouched = context.is_untouched();
    let _ = context.kept_groups().len();
    is_untouched || (context.is_not_aggregated() && !context.is_literal())
}

/// The reductions of a column at the rows of each group, by one kernel.
fn reduce_column<L: Ledger>(
    alloc: Global,
    values: &Column,
    groups: &GroupPositions,
    method: GroupByMethod,
    kernels: &mut Steps<L>,
) -> Px<Column>
    requires { length values.now.slots ≡ groups.now.height }
    ensures answer { Answers result (reduced_column method values.now groups.now) }
    ensures ticks { kernels.new ≡ kernels.old + 1 }
{
    match method {
        GroupByMethod::Min => agg_min(alloc, values, groups, kernels),
        GroupByMethod::Max => agg_max(alloc, values, groups, kernels),
        GroupByMethod::Sum => agg_sum(alloc, values, groups, kernels),
        GroupByMethod::First => agg_first(alloc, values, groups, kernels),
        GroupByMethod::Last => agg_last(alloc, values, groups, kernels),
        GroupByMethod::NUnique => agg_n_unique(alloc, values, groups, kernels),
        GroupByMethod::Count { include_nulls } => {
            agg_count(alloc, values, groups, include_nulls, kernels)
        }
        GroupByMethod::Implode => agg_list(alloc, values, groups, kernels),
    }
}

/// `len` times one.
fn ones(alloc: Global, len: u32) -> Px<Vec<u32>>
    ensures { AnswersBy (λ v. v.items) result (Ok (replicate len 1)) }
{
    let mut ones = Vec::with_capacity(alloc, len as usize)?;
    for _ in 0..len {
        ones.push(1)?;
    }
    Ok(ones)
}

/// The context of the rows of a column, each of them a list of its own.
fn lists_of_rows<'a>(alloc: Global, column: Column) -> Px<AggregationContext<'a>>
    ensures cells { IfOk result (λ c. named_cells c ≡ rows_apart column) }
    ensures name { IfOk result (λ c. c.values.name ≡ column.name) }
    ensures kind { IfOk result (λ c. cell_kind c ≡ column.kind) }
    ensures shape { IfOk result (λ c. has_units c.layout ≡ false) }
    ensures count { IfOk result (λ c. length c.groups.groups ≡ length column.slots) }
    ensures touched { IfOk result (λ c. c.untouched ≡ false) }
    ensures refused { IfErr result (λ e. e ≡ OutOfMemory) }
{
    // A column has fewer than 2^32 rows.
    let _ = column.rows();
    let lengths = ones(alloc, column.len())?;
    let groups = GroupPositions::slices_of_lengths(alloc, &lengths)?;
    flat_over(alloc, column, groups)
}

/// The context with a value for each group.
fn with_units<'a>(mut context: AggregationContext<'a>, column: Column) -> AggregationContext<'a>
    requires { length column.slots ≡ length context.groups.groups }
    ensures { result ≡ with_column true context.entry column }
{
    context.with_values(column, true);
    context
}

/// The reductions of a context whose cells are the rows of one column at its groups, by one kernel.
fn reduce_values<'a, L: Ledger>(
    alloc: Global,
    input: AggregationContext<'a>,
    method: GroupByMethod,
    kernels: &mut Steps<L>,
) -> Px<AggregationContext<'a>>
    requires { reads_groups input ≡ true }
    ensures made { IfOk result (IsReduced method input.entry) }
    ensures touched { IfOk result (λ c. c.untouched ≡ false) }
    ensures refused { IfErr result (λ e. (reduced_kind method (cell_kind input.entry) ≡ Err e) ⊎ IsRefusal e (reduction_answers method input.entry) (laid_count method input.entry)) }
    ensures most { kernels.new ≤ kernels.old + 1 }
    ensures rises { kernels.old ≤ kernels.new }
    ensures ticks { OnOk result (kernels.new ≡ kernels.old + 1) }
{
    // Its column has the rows to which the groups point.
    let _ = reads_groups(&input);
    let values = input.get_values();
    let column = reduce_column(alloc, values, input.kept_groups(), method, kernels)?;
    if is_implode(method) {
        lists_of_rows(alloc, column)
    } else {
        Ok(with_units(input, column))
    }
}

/// A context with the same cell for each group.
#[tactic(auto, using(px_lanes::proofs::Lanes::unit_length))]
fn with_same<'a>(mut context: AggregationContext<'a>, cell: Cell) -> AggregationContext<'a>
    ensures { result ≡ with_lit (is_unit_cell (named_cell cell).cell) context.entry (column_of_cell (named_cell cell)) }
{
    let is_unit = cell.is_unit();
    context.with_literal(cell.into_column(), is_unit);
    context
}

/// The reduction of a unit literal, which is the same for each group, by one kernel.
fn reduce_literal<'a, L: Ledger>(
    alloc: Global,
    input: AggregationContext<'a>,
    method: GroupByMethod,
    kernels: &mut Steps<L>,
) -> Px<AggregationContext<'a>>
    requires { is_unit_literal input.layout ≡ true }
    ensures made { IfOk result (IsReduced method input.entry) }
    ensures touched { IfOk result (λ c. c.untouched ≡ false) }
    ensures refused { IfErr result (λ e. (reduced_kind method (cell_kind input.entry) ≡ Err e) ⊎ IsRefusal e (reduction_answers method input.entry) (laid_count method input.entry)) }
    ensures most { kernels.new ≤ kernels.old + 1 }
    ensures rises { kernels.old ≤ kernels.new }
    ensures ticks { OnOk result (kernels.new ≡ kernels.old + 1) }
{
    let cell = lane(alloc, &input)?;
    let made = aggregation_cells(alloc, cell, method, kernels)?;
    Ok(with_same(input, made))
}

/// The reductions of the cells of a context, group by group.
fn reduce_each<'a, L: Ledger>(
    alloc: Global,
    input: AggregationContext<'a>,
    method: GroupByMethod,
    kernels: &mut Steps<L>,
) -> Px<AggregationContext<'a>>
    ensures made { IfOk result (IsReduced method input.entry) }
    ensures touched { IfOk result (λ c. c.untouched ≡ false) }
    ensures refused { IfErr result (λ e. (reduced_kind method (cell_kind input.entry) ≡ Err e) ⊎ IsRefusal e (reduction_answers method input.entry) (laid_count method input.entry)) }
    ensures most { kernels.new ≤ kernels.old + length input.entry.groups.groups }
    ensures rises { kernels.old ≤ kernels.new }
{
    // There are as many cells as groups, of which there are fewer than 2^32.
    let _ = reads_groups(&input);
    let dtype = input.cell_type().try_clone(alloc)?;
    let reduced = reduced_type(alloc, method, dtype)?;
    let is_unit = !is_implode(method);
    let node = Reduction { method };
    make_each(alloc, &node, input, reduced, is_unit, kernels)
}

/// What a reduction makes of the cells of a context group by group, under its name: units, and for an
/// Implode lists of one row. Where the cells are the rows of one column at the groups, as those of an
/// untouched context are, or a unit literal, one kernel runs. Refused with `ListKey` where lists would be
/// compared, with `Types` where the values cannot be summed, and with `TooLong` where the cells of an
/// Implode have 2^32 values together.
pub fn aggregation_groups<'a, L: Ledger>(
    alloc: Global,
    input: AggregationContext<'a>,
    method: GroupByMethod,
    kernels: &mut Steps<L>,
) -> Px<AggregationContext<'a>>
    ensures made { IfOk result (IsReduced method input.entry) }
    ensures groups { IfOk result (KeepsGroups (input.entry ∷ [])) }
    ensures refused { IfErr result (λ e. (reduced_kind method (cell_kind input.entry) ≡ Err e) ⊎ IsRefusal e (reduction_answers method input.entry) (laid_count method input.entry)) }
    ensures most { kernels.new ≤ kernels.old + (length input.entry.groups.groups + 1) }
    ensures rises { kernels.old ≤ kernels.new }
    ensures once { reduces_at_once input.entry ≡ true → kernels.new ≤ kernels.old + 1 }
    ensures ticks { reduces_at_once input.entry ≡ true → OnOk result (kernels.new ≡ kernels.old + 1) }
{
    if input.is_unit_literal() {
        reduce_literal(alloc, input, method, kernels)
    } else if reads_groups(&input) {
        reduce_values(alloc, input, method, kernels)
    } else {
        reduce_each(alloc, input, method, kernels)
    }
}
