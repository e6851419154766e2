//! A slice of three contexts.
ghost use Rattle.std.specs.Prelude.{◌≡◌, ◌⊎◌, ◌+◌, ◌<◌, ◌≤◌, ◌==◌, ◌&&◌, [], ◌∷◌, Some, Err, IfOk, IfErr, ℤ, false, length, not, option_map, true};
ghost use Rattle.px_column.specs.Prelude.{Answers, AnswersBy, integer, kind_of, slot_at};
ghost use Rattle.px_column.specs.Window.{IsLimit, IsOffset};
ghost use Rattle.px_tree.specs.Node.{length_of, offset_of};
ghost use Rattle.px_tree.specs.Typing.{is_integer_or_null};
ghost use Rattle.px_nodes.specs.Named.{slice_named};
ghost use Rattle.px_context.specs.Built.{is_flat, is_unit_literal};
ghost use Rattle.px_context.specs.Context.{cell_kind};
ghost use Rattle.px_lanes.specs.Made.{IsRefusal, KeepsGroups, counts_in};
ghost use Rattle.px_group_nodes.specs.Slice.{IsSliced, slice_answers, slice_kind};
ghost use Rattle.px_group_nodes.specs.Three.{AreThreePaired};
ghost use Rattle.px_group_nodes.specs.Windows.{window_by};

use crate::each_three::{Three, each_three};
use crate::group_windows::window_groups;
use px_column::{ComputeWhy, DataType, InvalidWhy, Px, PxError, Steps, ValueRef, is_integer};
use px_context::AggregationContext;
use px_frame::Cell;
use px_lanes::laying::from_cells;
use px_nodes::slice_cells;
use std::alloc::Global;
use std::sync::ledger::Ledger;

/// A slice as a node of three inputs.
#[derive(Clone, Copy)]
struct Slice;

impl Three for Slice {
    ghost use Rattle.px_nodes.specs.Named.{slice_named};

    ghost node = { λ n. slice_named };

    fn make<L: Ledger>(
        &self,
        alloc: Global,
        first: Cell,
        second: Cell,
        third: Cell,
        kernels: &mut Steps<L>,
    ) -> Px<Cell> {
        slice_cells(alloc, first, second, third, kernels)
    }
}

/// Whether it is a type of integers, or the type of nulls.
fn is_integer_or_null(dtype: &DataType) -> bool
    ensures { result ≡ is_integer_or_null (kind_of dtype.now) }
{
    is_integer(dtype) || matches!(dtype, DataType::Null)
}

/// Whether two contexts have the types of an offset and of a length.
fn are_arguments(offset: &AggregationContext<'_>, limit: &AggregationContext<'_>) -> bool
    ensures { result ≡ (is_integer_or_null (cell_kind offset.now) && is_integer_or_null (cell_kind limit.now)) }
{
    is_integer_or_null(offset.cell_type()) && is_integer_or_null(limit.cell_type())
}

/// The type of a slice of the cells of three contexts.
fn slice_type(
    alloc: Global,
    input: &AggregationContext<'_>,
    offset: &AggregationContext<'_>,
    limit: &AggregationContext<'_>,
) -> Px<DataType>
    ensures { AnswersBy kind_of result (slice_kind (cell_kind input.now) (cell_kind offset.now) (cell_kind limit.now)) }
{
    if are_arguments(offset, limit) {
        input.cell_type().try_clone(alloc)
    } else {
        Err(PxError::InvalidOperation(InvalidWhy::Types))
    }
}

/// What a slice makes of the cells of three contexts, group by group.
fn slice_each<'a, L: Ledger>(
    alloc: Global,
    input: AggregationContext<'a>,
    offset: &AggregationContext<'_>,
    limit: &AggregationContext<'_>,
    kernels: &mut Steps<L>,
) -> Px<AggregationContext<'a>>
    requires offset { length input.groups.groups ≡ length offset.now.groups.groups }
    requires limit { length input.groups.groups ≡ length limit.now.groups.groups }
    ensures made { IfOk result (IsSliced input.entry offset.now limit.now) }
    ensures touched { IfOk result (λ c. c.untouched ≡ false) }
    ensures refused { IfErr result (λ e. (slice_kind (cell_kind input.entry) (cell_kind offset.now) (cell_kind limit.now) ≡ Err e) ⊎ IsRefusal e (slice_answers input.entry offset.now limit.now) (counts_in (slice_answers input.entry offset.now limit.now))) }
    ensures most { kernels.new ≤ kernels.old + length input.entry.groups.groups }
    ensures rises { kernels.old ≤ kernels.new }
{
    let dtype = slice_type(alloc, &input, offset, limit)?;
    let name = input.get_values().name().try_clone(alloc)?;
    let cells = each_three(alloc, &Slice, &input, offset, limit, kernels)?;
    from_cells(alloc, &cells, name, dtype, false, input)
}

/// The one number of a unit literal, none for a null.
#[tactic(auto, using(px_lanes::proofs::Lanes::unit_one))]
fn literal_number(context: &AggregationContext<'_>) -> Option<i128>
    requires unit { is_unit_literal context.now.layout ≡ true }
    requires kind { is_integer_or_null (cell_kind context.now) ≡ true }
    ensures number { option_map integer result ≡ slot_at context.now.values.slots 0 }
    ensures within { (z : ℤ) → result ≡ Some z → IsOffset z }
{
    let _ = context.is_untouched();
    match context.get_values().get(0) {
        Some(ValueRef::Int(number)) => Some(number),
        _ => None,
    }
}

/// An offset is there.
fn offset_of(number: Option<i128>) -> Px<i128>
    requires { (z : ℤ) → number ≡ Some z → IsOffset z }
    ensures answer { Answers result (offset_of (option_map integer number)) }
    ensures within { IfOk result IsOffset }
{
    match number {
        Some(offset) => Ok(offset),
        None => Err(PxError::ComputeError(ComputeWhy::SliceArgument)),
    }
}

/// A length is not negative; none is no limit.
fn length_of(number: Option<i128>) -> Px<Option<i128>>
    requires { (z : ℤ) → number ≡ Some z → IsOffset z }
    ensures answer { Answers result (length_of (option_map integer number)) }
    ensures within { IfOk result IsLimit }
{
    match number {
        Some(length) if length < 0 => Err(PxError::ComputeError(ComputeWhy::SliceArgument)),
        limit => Ok(limit),
    }
}

/// The offset and the length that two unit literals say.
fn slice_arguments(
    offset: &AggregationContext<'_>,
    limit: &AggregationContext<'_>,
) -> Px<(i128, Option<i128>)>
    requires offset { is_unit_literal offset.now.layout ≡ true }
    requires limit { is_unit_literal limit.now.layout ≡ true }
    requires offset_kind { is_integer_or_null (cell_kind offset.now) ≡ true }
    requires limit_kind { is_integer_or_null (cell_kind limit.now) ≡ true }
    ensures answer { Answers result (window_by (slot_at offset.now.values.slots 0) (slot_at limit.now.values.slots 0)) }
    ensures within { IfOk result (λ p. IsOffset p.0 × IsLimit p.1) }
{
    let start = offset_of(literal_number(offset))?;
    let count = length_of(literal_number(limit))?;
    Ok((start, count))
}

/// Whether a context's values are flat.
fn is_flat(context: &AggregationContext<'_>) -> bool
    ensures { result ≡ is_flat context.now.layout }
{
    context.is_not_aggregated() && !context.is_literal()
}

/// A slice of flat rows by an offset and a length that are the same for each group: the column stays,
/// and each group keeps the rows of its slice.
fn slice_flat<'a, L: Ledger>(
    alloc: Global,
    mut input: AggregationContext<'a>,
    offset: &AggregationContext<'_>,
    limit: &AggregationContext<'_>,
    kernels: &mut Steps<L>,
) -> Px<AggregationContext<'a>>
    requires flat { is_flat input.layout ≡ true }
    requires offset { is_unit_literal offset.now.layout ≡ true }
    requires limit { is_unit_literal limit.now.layout ≡ true }
    requires many { length input.groups.groups ≡ length offset.now.groups.groups }
    requires others { length input.groups.groups ≡ length limit.now.groups.groups }
    requires some { 0 < length input.groups.groups }
    ensures made { IfOk result (IsSliced input.entry offset.now limit.now) }
    ensures touched { IfOk result (λ c. c.untouched ≡ false) }
    ensures refused { IfErr result (λ e. (slice_kind (cell_kind input.entry) (cell_kind offset.now) (cell_kind limit.now) ≡ Err e) ⊎ IsRefusal e (slice_answers input.entry offset.now limit.now) (counts_in (slice_answers input.entry offset.now limit.now))) }
    ensures once { kernels.new ≤ kernels.old + 1 }
    ensures rises { kernels.old ≤ kernels.new }
{
    if !are_arguments(offset, limit) {
        return Err(PxError::InvalidOperation(InvalidWhy::Types));
    }
    // There is a row for each of the groups' height.
    let _ = input.is_untouched();
    let (start, count) = slice_arguments(offset, limit)?;
    kernels.tick();
    let groups = window_groups(alloc, input.kept_groups(), start, count)?;
    input.with_groups(groups);
    Ok(input)
}

/// Whether a slice of three contexts keeps the column and changes the groups alone: flat rows, of which
/// there are groups, and unit literals.
fn is_regrouped(
    input: &AggregationContext<'_>,
    offset: &AggregationContext<'_>,
    limit: &AggregationContext<'_>,
) -> bool
    ensures { result ≡ (is_flat input.now.layout && (is_unit_literal offset.now.layout && (is_unit_literal limit.now.layout && not (length input.now.groups.groups == 0)))) }
{
    is_flat(input)
        && (offset.is_unit_literal()
            && (limit.is_unit_literal() && !input.kept_groups().is_empty()))
}

/// Of the cells of three contexts, group by group, the first one's rows from the second one's offset on,
/// as many as the third one says, as lists under the first one's name. Where the first one is flat and the
/// others are unit literals, the column stays and one kernel changes the groups. `Types` where the offsets
/// or the lengths are neither of integers nor of nulls; refused where the cells of a group are, and with
/// `TooLong` where all answers have 2^32 values together.
pub fn slice_groups<'a, L: Ledger>(
    alloc: Global,
    input: AggregationContext<'a>,
    offset: AggregationContext<'a>,
    limit: AggregationContext<'a>,
    kernels: &mut Steps<L>,
) -> Px<AggregationContext<'a>>
    requires { AreThreePaired input offset limit }
    ensures made { IfOk result (IsSliced input.entry offset.entry limit.entry) }
    ensures groups { IfOk result (KeepsGroups (input.entry ∷ offset.entry ∷ limit.entry ∷ [])) }
    ensures refused { IfErr result (λ e. (slice_kind (cell_kind input.entry) (cell_kind offset.entry) (cell_kind limit.entry) ≡ Err e) ⊎ IsRefusal e (slice_answers input.entry offset.entry limit.entry) (counts_in (slice_answers input.entry offset.entry limit.entry))) }
    ensures most { kernels.new ≤ kernels.old + (length input.entry.groups.groups + 1) }
    ensures rises { kernels.old ≤ kernels.new }
    ensures once { is_flat input.entry.layout ≡ true → is_unit_literal offset.entry.layout ≡ true → is_unit_literal limit.entry.layout ≡ true → kernels.new ≤ kernels.old + 1 }
{
    if is_regrouped(&input, &offset, &limit) {
        slice_flat(alloc, input, &offset, &limit, kernels)
    } else {
        slice_each(alloc, input, &offset, &limit, kernels)
    }
}
