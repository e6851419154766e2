//! Contexts of cells that nodes made group by group.
ghost use Rattle.std.specs.Prelude.{◌≡◌, ◌⊎◌, ◌+◌, ◌<◌, ◌≤◌, ◌^◌, ◌++◌, [], Ok, IfOk, IfErr, OnOk, false, true, length, map, sum};
ghost use Rattle.px_column.specs.Prelude.{Answers, AnswersBy, kind_of};
ghost use Rattle.px_value.specs.declared.error.ComputeWhy.TheVariants.{TooLong};
ghost use Rattle.px_value.specs.declared.error.PxError.TheVariants.{ComputeError, OutOfMemory};
ghost use Rattle.px_frame.specs.CellView.{named_cell};
ghost use Rattle.px_context.specs.Built.{with_column};
ghost use Rattle.px_context.specs.Context.{cell_kind, has_units};
ghost use Rattle.px_lanes.specs.Alike.{AreLike, AreOf, flat_over, lengths_in, values_in};
ghost use Rattle.px_lanes.specs.Made.{named_cells};

use px_column::{Column, ColumnBuilder, DataType, Name, Px};
use px_context::{AggregationContext, ColRef, GroupsRef};
use px_frame::{Cell, GroupPositions, GroupsType};
use std::alloc::Global;

/// The number of values of each cell.
fn cell_lengths(alloc: Global, cells: &[Cell]) -> Px<Vec<u32>>
    ensures { AnswersBy (λ v. v.items) result (Ok (lengths_in (map named_cell cells.now))) }
{
    let mut lengths = Vec::with_capacity(alloc, cells.len())?;
    for cell in cells {
        lengths.push(cell.as_column().len())?;
    }
    Ok(lengths)
}

/// Adds copies of the rows of a column.
fn push_rows(rows: &mut ColumnBuilder, column: &Column) -> Px<()>
    requires kind { column.now.kind ≡ rows.old.kind }
    requires room { length rows.old.slots + length column.now.slots < 2 ^ 32 }
    ensures answer { Answers result (Ok tt) }
    ensures ok { OnOk result (rows.new ≡ record rows.old { slots = rows.old.slots ++ column.now.slots }) }
{
    for row in column.rows() {
        rows.push_ref(row)?;
    }
    Ok(())
}

/// The values of all cells, one after another.
fn join_cells(cells: &[Cell], mut rows: ColumnBuilder) -> Px<Column>
    requires kinds { AreOf rows.kind (map named_cell cells.now) }
    requires empty { rows.slots ≡ [] }
    requires short { length (values_in (map named_cell cells.now)) < 2 ^ 32 }
    ensures { Answers result (Ok (record rows { slots = values_in (map named_cell cells.now) })) }
{
    for cell in cells {
        push_rows(&mut rows, cell.as_column())?;
    }
    rows.finish()
}

/// The context of the rows of a column at groups that are not the frame's own.
pub fn flat_over<'a>(
    alloc: Global,
    column: Column,
    groups: GroupPositions,
) -> Px<AggregationContext<'a>>
    requires { length column.slots ≡ groups.height }
    ensures { Answers result (Ok (flat_over column groups)) }
{
    let none = GroupsType::Slice {
        groups: Vec::new(alloc),
        rolling: false,
    };
    let none = GroupsRef::Owned(GroupPositions::new(none, column.len())?);
    let mut context = AggregationContext::new(ColRef::Owned(column), none, false);
    context.with_groups(groups);
    Ok(context)
}

/// The context of fewer than 2^32 cells of this name and this type, which are lists. `TooLong` where these
/// have 2^32 values together.
pub fn from_lists<'a>(
    alloc: Global,
    cells: &[Cell],
    name: Name,
    dtype: DataType,
) -> Px<AggregationContext<'a>>
    requires few { length cells.now < 2 ^ 32 }
    requires like { AreLike name (kind_of dtype) false (map named_cell cells.now) }
    ensures cells { IfOk result (λ c. named_cells c ≡ map named_cell cells.now) }
    ensures name { IfOk result (λ c. c.values.name ≡ name) }
    ensures kind { IfOk result (λ c. cell_kind c ≡ kind_of dtype) }
    ensures shape { IfOk result (λ c. has_units c.layout ≡ false) }
    ensures count { IfOk result (λ c. length c.groups.groups ≡ length cells.now) }
    ensures touched { IfOk result (λ c. c.untouched ≡ false) }
    ensures refused { IfErr result (λ e. (e ≡ OutOfMemory) ⊎ ((e ≡ ComputeError TooLong) × (2 ^ 32 ≤ sum (lengths_in (map named_cell cells.now))))) }
{
    let lengths = cell_lengths(alloc, cells)?;
    let groups = GroupPositions::slices_of_lengths(alloc, &lengths)?;
    let rows = ColumnBuilder::new(alloc, name, dtype, groups.height())?;
    flat_over(alloc, join_cells(cells, rows)?, groups)
}

/// The context of cells that are units, one for each group of another context.
fn from_units<'a>(
    alloc: Global,
    cells: &[Cell],
    name: Name,
    dtype: DataType,
    mut context: AggregationContext<'a>,
) -> Px<AggregationContext<'a>>
    requires few { length cells.now < 2 ^ 32 }
    requires count { length cells.now ≡ length context.groups.groups }
    requires like { AreLike name (kind_of dtype) true (map named_cell cells.now) }
    ensures { Answers result (Ok (with_column true context.entry (record { name = name; kind = kind_of dtype; slots = values_in (map named_cell cells.now) }))) }
{
    let rows = ColumnBuilder::new(alloc, name, dtype, context.kept_groups().len())?;
    context.with_values(join_cells(cells, rows)?, true);
    Ok(context)
}

/// The context of cells of this name, this type and this shape, one for each group of another context.
/// `TooLong` where lists have 2^32 values together.
pub fn from_cells<'a>(
    alloc: Global,
    cells: &[Cell],
    name: Name,
    dtype: DataType,
    is_unit: bool,
    context: AggregationContext<'a>,
) -> Px<AggregationContext<'a>>
    requires count { length cells.now ≡ length context.groups.groups }
    requires like { AreLike name (kind_of dtype) is_unit (map named_cell cells.now) }
    ensures cells { IfOk result (λ c. named_cells c ≡ map named_cell cells.now) }
    ensures name { IfOk result (λ c. c.values.name ≡ name) }
    ensures kind { IfOk result (λ c. cell_kind c ≡ kind_of dtype) }
    ensures shape { IfOk result (λ c. has_units c.layout ≡ is_unit) }
    ensures count { IfOk result (λ c. length c.groups.groups ≡ length cells.now) }
    ensures touched { IfOk result (λ c. c.untouched ≡ false) }
    ensures refused { IfErr result (λ e. (e ≡ OutOfMemory) ⊎ ((e ≡ ComputeError TooLong) × (2 ^ 32 ≤ sum (lengths_in (map named_cell cells.now))))) }
{
    // There are fewer than 2^32 groups.
    let _ = context.kept_groups().len();
    if is_unit {
        from_units(alloc, cells, name, dtype, context)
    } else {
        from_lists(alloc, cells, name, dtype)
    }
}
