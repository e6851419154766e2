//! Columns of the cells of a window's parts: at the parts' rows, whole at each of them, or one after
//! another.
ghost use Rattle.std.specs.Prelude.{◌≡◌, ℕ, ◌+◌, ◌<◌, ◌≤◌, ◌^◌, ◌++◌, [], List, Ok, IfErr, IfOk, OnOk, length, replicate, sum, true};
ghost use Rattle.std.specs.List.{concat, flat_map, zip};
ghost use Rattle.px_value.specs.declared.error.PxError.TheVariants.{ComputeError};
ghost use Rattle.px_value.specs.declared.error.ComputeWhy.TheVariants.{TooLong};
ghost use Rattle.px_column.specs.Prelude.{Answers, AnswersBy, slot_at};
ghost use Rattle.px_frame.specs.Cell.{count_of, list_of, rows};
ghost use Rattle.px_frame.specs.Groups.{is_group, rows_of};
ghost use Rattle.px_frame.specs.GroupsView.{lent_group};
ghost use Rattle.px_tree.specs.Window.{window_cell};
ghost use Rattle.px_tree.specs.declared.window.WindowMapping.TheVariants.{Explode};
ghost use Rattle.px_context.specs.Changes.{KeepsType, LaidOrKept, counts_of, laid_kind};
ghost use Rattle.px_context.specs.Context.{cell_kind, cells_of};
ghost use Rattle.px_window.specs.Places.{HoldsEachRowOnce, row_places};
ghost use Rattle.px_window.specs.Placed.{column_with, laid_slots, part_added, rows_exploded, rows_joined, rows_placed};

use crate::places::group_numbers;
use px_column::{Column, ColumnBuilder, ComputeWhy, Px, PxError};
use px_context::{AggregationContext, GroupPiece};
use px_frame::{GroupPositions, GroupsIndicator, take_rows};
use std::alloc::Global;

/// No row yet, under the name and of the type of the cells.
fn cells_builder(alloc: Global, ac: &AggregationContext<'_>, capacity: u32) -> Px<ColumnBuilder>
    ensures { Answers result (Ok (record { name = ac.now.values.name; kind = cell_kind ac.now; slots = [] })) }
{
    let name = ac.get_values().name().try_clone(alloc)?;
    let dtype = ac.cell_type().try_clone(alloc)?;
    ColumnBuilder::new(alloc, name, dtype, capacity)
}

/// Adds the values of a cell.
fn push_cell(rows: &mut ColumnBuilder, piece: &GroupPiece<'_>) -> Px<()>
    requires kind { rows.old.kind ≡ piece.now.kind }
    requires room { length rows.old.slots + count_of piece.now.cell < 2 ^ 32 }
    ensures answer { Answers result (Ok tt) }
    ensures ok { OnOk result (rows.new ≡ record rows.old { slots = rows.old.slots ++ list_of piece.now.cell }) }
{
    for index in 0..piece.len() {
        rows.push_ref(piece.get(index))?;
    }
    Ok(())
}

/// Adds the value of a unit so many times.
fn push_unit(rows: &mut ColumnBuilder, piece: &GroupPiece<'_>, count: u32) -> Px<()>
    requires kind { rows.old.kind ≡ piece.now.kind }
    requires some { 0 < count_of piece.now.cell }
    requires room { length rows.old.slots + count < 2 ^ 32 }
    ensures answer { Answers result (Ok tt) }
    ensures ok { OnOk result (rows.new ≡ record rows.old { slots = rows.old.slots ++ replicate count (slot_at (list_of piece.now.cell) 0) }) }
{
    for _ in 0..count {
        rows.push_ref(piece.get(0))?;
    }
    Ok(())
}

/// Adds what a cell has for the rows of its part: a unit at each, or as many values; `WindowLength` where
/// it has another number.
fn push_part(rows: &mut ColumnBuilder, piece: &GroupPiece<'_>, part: GroupsIndicator<'_>) -> Px<()>
    requires kind { rows.old.kind ≡ piece.now.kind }
    requires part { length (lent_group part).rows < 2 ^ 32 }
    requires room { length rows.old.slots + length (lent_group part).rows < 2 ^ 32 }
    ensures { AnswersBy (λ _. rows.new) result (part_added rows.old (lent_group part.entry).rows piece.now.cell) }
{
    if piece.is_unit() {
        push_unit(rows, piece, part.len())
    } else if piece.len() == part.len() {
        push_cell(rows, piece)
    } else {
        Err(PxError::ComputeError(ComputeWhy::WindowLength))
    }
}

/// What each cell has for the rows of its part, one part after another; `WindowLength` where it has
/// another number of values.
fn join_parts(alloc: Global, ac: &AggregationContext<'_>, parts: &GroupPositions) -> Px<Column>
    requires cells { length ac.now.groups.groups ≡ length parts.now.groups }
    requires few { length (concat (rows_of parts.now)) < 2 ^ 32 }
    ensures { Answers result (column_with ac.now.values.name (cell_kind ac.now) (laid_slots (rows_of parts.now) (cells_of ac.now))) }
{
    // There are fewer than 2^32 parts.
    let _ = parts.len();
    let mut rows = cells_builder(alloc, ac, parts.height())?;
    let mut index = 0;
    for piece in ac.pieces() {
        push_part(&mut rows, &piece, parts.group(index))?;
        index += 1;
    }
    rows.finish()
}

/// The cells at their parts' rows, under their name and of their type: the i-th value of a cell at the
/// i-th row of its part, and a unit at each row of it. There are as many cells as parts, which hold each
/// row once, and the map gives each row's place, as `inverse_map` does. `WindowLength` exactly where a
/// cell is a list of another length than its part. The context stays as it is.
pub fn place_rows(
    alloc: Global,
    ac: &mut AggregationContext<'_>,
    parts: &GroupPositions,
    map: &[u32],
) -> Px<Column>
    requires cells { length ac.old.groups.groups ≡ length parts.now.groups }
    requires once { HoldsEachRowOnce parts.now }
    requires map { map.now ≡ row_places parts.now }
    ensures answer { Answers result (rows_placed ac.old parts.now) }
    ensures context { ac.new ≡ ac.old }
{
    // There are as many cells as groups, and the height is below 2^32.
    let _ = ac.pieces();
    let _ = parts.height();
    let joined = join_parts(alloc, ac, parts)?;
    take_rows(alloc, &joined, map)
}

/// Each cell as a whole at each row of its part, under the cells' name: a unit's value in their type, a
/// list in the type of lists of it. There are as many cells as parts, which hold each row once.
/// `TooLong` only where the cells together have 2^32 values. The cells stay as they were.
pub fn place_join(
    alloc: Global,
    ac: &mut AggregationContext<'_>,
    parts: &GroupPositions,
) -> Px<Column>
    requires cells { length ac.old.groups.groups ≡ length parts.now.groups }
    requires once { HoldsEachRowOnce parts.now }
    ensures answer { Answers result (rows_joined ac.old parts.now) }
    ensures long { IfErr result (λ e. e ≡ ComputeError TooLong → 2 ^ 32 ≤ sum (counts_of ac.old)) }
    ensures name { IfOk result (λ s. s.name ≡ ac.old.values.name) }
    ensures kind { IfOk result (λ s. s.kind ≡ laid_kind ac.old) }
    ensures kept { LaidOrKept ac.old ac.new }
    ensures cells { cells_of ac.new ≡ cells_of ac.old }
    ensures types { KeepsType ac.old ac.new }
{
    // There are as many cells as groups.
    let _ = ac.pieces();
    let whole = ac.finalize(alloc)?;
    let numbers = group_numbers(alloc, parts)?;
    take_rows(alloc, &whole, &numbers)
}

/// The number of values of all cells.
fn total_count(ac: &AggregationContext<'_>) -> u64
    ensures total { result ≡ length (flat_map list_of (cells_of ac.now)) }
    ensures many { length (cells_of ac.now) ≡ length ac.now.groups.groups }
{
    // There are fewer than 2^32 groups.
    let _ = ac.kept_groups().len();
    let mut total = 0;
    for piece in ac.pieces() {
        total += u64::from(piece.len());
    }
    total
}

/// The values of all cells, of which there are fewer than 2^32.
fn join_cells(ac: &AggregationContext<'_>, mut rows: ColumnBuilder) -> Px<Column>
    requires kind { rows.kind ≡ cell_kind ac.now }
    requires empty { rows.slots ≡ [] }
    requires few { length (flat_map list_of (cells_of ac.now)) < 2 ^ 32 }
    ensures { Answers result (Ok (record rows { slots = flat_map list_of (cells_of ac.now) })) }
{
    for piece in ac.pieces() {
        push_cell(&mut rows, &piece)?;
    }
    rows.finish()
}

/// The cells one after another, a unit as one row and an empty list as none, under their name and of
/// their type. `TooLong` exactly where the cells together have 2^32 values. The context stays as it is.
pub fn place_explode(alloc: Global, ac: &mut AggregationContext<'_>) -> Px<Column>
    ensures answer { Answers result (rows_exploded ac.old) }
    ensures long { IfErr result (λ e. e ≡ ComputeError TooLong → 2 ^ 32 ≤ sum (counts_of ac.old)) }
    ensures cells { IfOk result (λ s. (n : ℕ) (parts : List (List ℕ)) → length parts ≡ length ac.old.groups.groups
        → window_cell Explode n (zip parts (cells_of ac.old)) ≡ Ok (rows s.slots)) }
    ensures context { ac.new ≡ ac.old }
{
    let total = total_count(ac);
    if total >= 1 << 32 {
        return Err(PxError::ComputeError(ComputeWhy::TooLong));
    }
    let rows = cells_builder(alloc, ac, total as u32)?;
    join_cells(ac, rows)
}
