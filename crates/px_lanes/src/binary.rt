//! An operator on two contexts.
ghost use Rattle.std.specs.Prelude.{◌≡◌, ◌⊎◌, ◌+◌, ◌≤◌, ◌&&◌, [], ◌∷◌, Ok, Err, IfOk, IfErr, OnOk, false, length, map, true};
ghost use Rattle.px_column.specs.Operator.{operator_kind};
ghost use Rattle.px_column.specs.Prelude.{AnswersBy, kind_of};
ghost use Rattle.px_frame.specs.CellView.{named_cell};
ghost use Rattle.px_nodes.specs.Named.{binary_named};
ghost use Rattle.px_context.specs.Context.{cell_kind, has_units};
ghost use Rattle.px_lanes.specs.Lane.{has_lane, lane_of};
ghost use Rattle.px_lanes.specs.Made.{ArePaired, IsFault, IsRefusal, KeepsGroups, counts_in};
ghost use Rattle.px_lanes.specs.Operator.{IsOperated, operator_answers};

use crate::each::{Two, each_two};
use crate::lane::{has_lane, have_lanes, lane, untouched_of, with_lane};
use crate::laying::from_cells;
use px_column::{DataType, Name, Operator, Px, Steps, operator_type};
use px_context::AggregationContext;
use px_frame::Cell;
use px_nodes::binary_cells;
use std::alloc::Global;
use std::sync::ledger::Ledger;

/// An operator as a node of two inputs.
#[derive(Clone, Copy)]
struct Operation {
    op: Operator,
}

impl Two for Operation {
    ghost use Rattle.px_nodes.specs.Named.{binary_named};

    ghost node = { λ n. binary_named n.op };

    fn make<L: Ledger>(
        &self,
        alloc: Global,
        left: Cell,
        right: Cell,
        kernels: &mut Steps<L>,
    ) -> Px<Cell> {
        binary_cells(alloc, left, right, self.op, kernels)
    }
}

/// What an operator makes of the cells from which two contexts read.
fn operate_read<L: Ledger>(
    alloc: Global,
    left: &AggregationContext<'_>,
    right: &AggregationContext<'_>,
    op: Operator,
    kernels: &mut Steps<L>,
) -> Px<Cell>
    ensures answer { AnswersBy named_cell result (binary_named op (lane_of left.now) (lane_of right.now)) }
    ensures most { kernels.new ≤ kernels.old + 1 }
    ensures rises { kernels.old ≤ kernels.new }
    ensures ticks { OnOk result (kernels.new ≡ kernels.old + 1) }
{
    let x = lane(alloc, left)?;
    let y = lane(alloc, right)?;
    binary_cells(alloc, x, y, op, kernels)
}

/// An operator on the cells from which two contexts read, as a context.
fn operate_lanes<'a, L: Ledger>(
    alloc: Global,
    left: AggregationContext<'a>,
    right: AggregationContext<'a>,
    op: Operator,
    kernels: &mut Steps<L>,
) -> Px<AggregationContext<'a>>
    requires paired { ArePaired left right }
    requires left { has_lane left ≡ true }
    requires right { has_lane right ≡ true }
    ensures made { IfOk result (IsOperated op left.entry right.entry) }
    ensures groups { IfOk result (KeepsGroups (left.entry ∷ right.entry ∷ [])) }
    ensures lane { IfOk result (λ c. has_lane c ≡ true) }
    ensures refused { IfErr result (λ e. (operator_kind op (cell_kind left.entry) (cell_kind right.entry) ≡ Err e) ⊎ IsRefusal e (operator_answers op left.entry right.entry) (counts_in (operator_answers op left.entry right.entry))) }
    ensures most { kernels.new ≤ kernels.old + 1 }
    ensures rises { kernels.old ≤ kernels.new }
    ensures ticks { OnOk result (kernels.new ≡ kernels.old + 1) }
{
    // Each has the rows that its layout wants.
    let _ = has_lane(&left);
    let _ = has_lane(&right);
    let made = operate_read(alloc, &left, &right, op, kernels)?;
    Ok(with_lane(untouched_of(left, right), made))
}

/// Cells that were made group by group, and their name, type and shape.
#[derive(Drop)]
struct Answers {
    cells: Vec<Cell>,
    name: Name,
    dtype: DataType,
    is_unit: bool,
}

/// The type of an operator on the cells of two contexts.
fn operated_type(
    alloc: Global,
    left: &AggregationContext<'_>,
    right: &AggregationContext<'_>,
    op: Operator,
) -> Px<DataType>
    ensures { AnswersBy kind_of result (operator_kind op (cell_kind left.now) (cell_kind right.now)) }
{
    let dtype = left.cell_type().try_clone(alloc)?;
    operator_type(op, dtype, right.cell_type())
}

/// What an operator makes of the cells of two contexts, group by group.
fn operate_cells<L: Ledger>(
    alloc: Global,
    left: &AggregationContext<'_>,
    right: &AggregationContext<'_>,
    op: Operator,
    kernels: &mut Steps<L>,
) -> Px<Answers>
    requires { length left.now.groups.groups ≡ length right.now.groups.groups }
    ensures cells { IfOk result (λ a. operator_answers op left.now right.now ≡ map Ok (map named_cell a.cells.items)) }
    ensures name { IfOk result (λ a. a.name ≡ left.now.values.name) }
    ensures kind { IfOk result (λ a. operator_kind op (cell_kind left.now) (cell_kind right.now) ≡ Ok (kind_of a.dtype)) }
    ensures shape { IfOk result (λ a. a.is_unit ≡ (has_units left.now.layout && has_units right.now.layout)) }
    ensures count { IfOk result (λ a. length a.cells.items ≡ length left.now.groups.groups) }
    ensures refused { IfErr result (λ e. (operator_kind op (cell_kind left.now) (cell_kind right.now) ≡ Err e) ⊎ IsFault e (operator_answers op left.now right.now)) }
    ensures most { kernels.new ≤ kernels.old + length left.now.groups.groups }
    ensures rises { kernels.old ≤ kernels.new }
{
    let dtype = operated_type(alloc, left, right, op)?;
    let name = left.get_values().name().try_clone(alloc)?;
    let is_unit = left.has_units() && right.has_units();
    let cells = each_two(alloc, &Operation { op }, left, right, kernels)?;
    Ok(Answers {
        cells,
        name,
        dtype,
        is_unit,
    })
}

/// The context of what an operator made of the cells of two contexts.
fn operate_each<'a, L: Ledger>(
    alloc: Global,
    left: AggregationContext<'a>,
    right: &AggregationContext<'_>,
    op: Operator,
    kernels: &mut Steps<L>,
) -> Px<AggregationContext<'a>>
    requires { length left.groups.groups ≡ length right.now.groups.groups }
    ensures made { IfOk result (IsOperated op left.entry right.now) }
    ensures touched { IfOk result (λ c. c.untouched ≡ false) }
    ensures refused { IfErr result (λ e. (operator_kind op (cell_kind left.entry) (cell_kind right.now) ≡ Err e) ⊎ IsRefusal e (operator_answers op left.entry right.now) (counts_in (operator_answers op left.entry right.now))) }
    ensures most { kernels.new ≤ kernels.old + length left.entry.groups.groups }
    ensures rises { kernels.old ≤ kernels.new }
{
    let made = operate_cells(alloc, &left, right, op, kernels)?;
    let Answers {
        cells,
        name,
        dtype,
        is_unit,
    } = made;
    from_cells(alloc, &cells, name, dtype, is_unit, left)
}

/// What an operator makes of the cells of two contexts group by group, under the left one's name. Where
/// each is a unit literal or untouched, one kernel runs over their columns. Refused where there is no
/// such operator on their types, where it refuses the cells of a group, and with `TooLong` where all
/// answers have 2^32 values together.
pub fn binary_groups<'a, L: Ledger>(
    alloc: Global,
    left: AggregationContext<'a>,
    right: AggregationContext<'a>,
    op: Operator,
    kernels: &mut Steps<L>,
) -> Px<AggregationContext<'a>>
    requires { ArePaired left right }
    ensures made { IfOk result (IsOperated op left.entry right.entry) }
    ensures groups { IfOk result (KeepsGroups (left.entry ∷ right.entry ∷ [])) }
    ensures lane { has_lane left.entry ≡ true → has_lane right.entry ≡ true → IfOk result (λ c. has_lane c ≡ true) }
    ensures refused { IfErr result (λ e. (operator_kind op (cell_kind left.entry) (cell_kind right.entry) ≡ Err e) ⊎ IsRefusal e (operator_answers op left.entry right.entry) (counts_in (operator_answers op left.entry right.entry))) }
    ensures most { kernels.new ≤ kernels.old + (length left.entry.groups.groups + 1) }
    ensures rises { kernels.old ≤ kernels.new }
    ensures once { has_lane left.entry ≡ true → has_lane right.entry ≡ true → kernels.new ≤ kernels.old + 1 }
    ensures ticks { has_lane left.entry ≡ true → has_lane right.entry ≡ true → OnOk result (kernels.new ≡ kernels.old + 1) }
{
    if have_lanes(&left, &right) {
        operate_lanes(alloc, left, right, op, kernels)
    } else {
        operate_each(alloc, left, &right, op, kernels)
    }
}
