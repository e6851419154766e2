//! A group step, done as its definition says: each aggregation on the frame of each part's rows alone.
ghost use Rattle.std.specs.Prelude.{◌≡◌, ◌<◌, ◌^◌, [], ◌∷◌, Ok, Some, None, IfOk, List, ℕ, length, map, true, vec_len};
ghost use Rattle.std.specs.List.{All, flat_map, range_with_len};
ghost use Rattle.std.specs.Option.{option_map_or};
ghost use Rattle.px_column.specs.Prelude.{Answers, AnswersBy, Kind, slot_fits, slots_fit, kind_of, slot_at, slot_of, slots_of};
ghost use Rattle.px_column.specs.Sum.{sum_kind, summed};
ghost use Rattle.px_frame.specs.Cell.{value_of_cell};
ghost use Rattle.px_frame.specs.External.{alone};
ghost use Rattle.px_frame.specs.Frame.{are_below, height_of, series_at, slots_at, subframe};
ghost use Rattle.px_frame.specs.Groups.{first_row};
ghost use Rattle.px_frame.specs.Schema.{column_field};
ghost use Rattle.px_tree.specs.Shape.{name_of};
ghost use Rattle.px_tree.specs.Tree.{column};
ghost use Rattle.px_column.specs.Option.{each};
ghost use Rattle.px_steps.specs.Meets.{Meets, MeetsBy};
ghost use Rattle.px_steps.specs.Plain.{agg_refusals, columns_made, columns_on, key_refusals, step_refusals};
ghost use Rattle.px_tree.specs.Grouped.{aggregated_on, key_on, key_values};
ghost use Rattle.px_tree.specs.Typing.{kind_in};
ghost use Rattle.px_tree.specs.Value.{value_on};
ghost use Rattle.px_vectors.specs.PlainStep.{IsPart, step_by, tree_of, value_at_part};

use crate::plain::plain_parts;
use px_column::{
    Column, ComputeWhy, DataType, InvalidWhy, Name, Px, PxError, Value, sum_type, wrap_sum,
};
use px_frame::DataFrame;
use std::alloc::Global;

/// One value for each part of a frame.
#[derive(Drop)]
pub enum Aggregation {
    /// The sum of a column's present values.
    Sum(Name),
    /// The number of rows.
    Len,
}

/// The numbers of all rows.
fn all_rows(alloc: Global, height: u32) -> Px<Vec<u32>>
    ensures { AnswersBy (λ v. v.items) result (Ok (range_with_len 0 height)) }
{
    let mut rows = Vec::new(alloc);
    for row in 0..height {
        rows.push(row)?;
    }
    Ok(rows)
}

/// The value at a row, and a null where there is no such row.
fn value_at(alloc: Global, column: &Column, row: u32) -> Px<Option<Value>>
    ensures value { AnswersBy slot_of result (Ok (slot_at column.now.slots row)) }
    ensures fits { IfOk result (λ v. slot_fits column.now.kind (slot_of v) ≡ true) }
{
    if row >= column.len() {
        return Ok(None);
    }
    match column.get(row) {
        None => Ok(None),
        Some(value) => Ok(Some(value.to_value(alloc)?)),
    }
}

fn values_at(alloc: Global, column: &Column, rows: &[u32]) -> Px<Vec<Option<Value>>>
    ensures values { AnswersBy (λ v. slots_of v.items) result (Ok (slots_at column.now.slots rows.now)) }
    ensures fit { IfOk result (λ v. slots_fit column.now.kind (slots_of v.items) ≡ true) }
    ensures len { IfOk result (λ v. vec_len v ≡ length rows.now) }
{
    let mut values = Vec::new(alloc);
    for row in rows {
        values.push(value_at(alloc, column, *row)?)?;
    }
    Ok(values)
}

/// The column of these rows, in this order.
fn rows_of(alloc: Global, column: &Column, rows: &[u32]) -> Px<Column>
    requires { length rows.now < 2 ^ 32 }
    ensures { Answers result (Ok (series_at rows.now column.now)) }
{
    let values = values_at(alloc, column, rows)?;
    Column::from_values(
        alloc,
        column.name().try_clone(alloc)?,
        column.dtype().try_clone(alloc)?,
        values,
    )
}

/// A key as a column: `ColumnNotFound` where there is none, then `ListKey` where it is of a List type.
fn key_column(alloc: Global, frame: &DataFrame, key: &Name) -> Px<Column>
    ensures { Meets result (key_refusals (alone frame.now) (column key.now)) (key_on (alone frame.now) (column key.now)) }
{
    let Some(column) = frame.column(key) else {
        return Err(PxError::ColumnNotFound(key.try_clone(alloc)?));
    };
    if column.dtype().is_list() {
        return Err(PxError::InvalidOperation(InvalidWhy::ListKey));
    }
    let rows = all_rows(alloc, column.len())?;
    let copy = rows_of(alloc, column, &rows)?;
    Ok(copy.with_name(key.try_clone(alloc)?))
}

fn key_columns(alloc: Global, frame: &DataFrame, keys: &[Name]) -> Px<Vec<Column>>
    ensures { MeetsBy (λ v. v.items) result (flat_map (key_refusals (alone frame.now)) (map column keys.now)) (each (key_on (alone frame.now)) (map column keys.now)) }
{
    let mut columns = Vec::new(alloc);
    for key in keys {
        columns.push(key_column(alloc, frame, key)?)?;
    }
    Ok(columns)
}

fn first_row(part: &[u32]) -> u32
    ensures { result ≡ first_row part.now }
{
    match part.first() {
        None => 0,
        Some(row) => *row,
    }
}

fn first_rows(alloc: Global, parts: &[Vec<u32>]) -> Px<Vec<u32>>
    ensures { AnswersBy (λ v. v.items) result (Ok (map first_row (map (λ p. p.items) parts.now))) }
{
    let mut rows = Vec::new(alloc);
    for part in parts {
        rows.push(first_row(part))?;
    }
    Ok(rows)
}

/// Each column's rows, in this order.
fn rows_of_each(alloc: Global, columns: &[Column], rows: &[u32]) -> Px<Vec<Column>>
    requires { length rows.now < 2 ^ 32 }
    ensures { AnswersBy (λ v. v.items) result (Ok (subframe columns.now rows.now)) }
{
    let mut copies = Vec::new(alloc);
    for column in columns {
        copies.push(rows_of(alloc, column, rows)?)?;
    }
    Ok(copies)
}

/// Each key at the first row of each part.
fn first_values(alloc: Global, by: &[Column], parts: &[Vec<u32>]) -> Px<Vec<Column>>
    requires { length parts.now < 2 ^ 32 }
    ensures { AnswersBy (λ v. v.items) result (Ok (map (key_values (map (λ p. p.items) parts.now)) by.now)) }
{
    let rows = first_rows(alloc, parts)?;
    rows_of_each(alloc, by, &rows)
}

fn sum_of(alloc: Global, column: &Column) -> Px<Option<Value>>
    ensures sum { AnswersBy slot_of result (Ok (option_map_or (λ k. summed k column.now.slots) (sum_kind column.now.kind) None)) }
    ensures fits { IfOk result (λ v. (k : Kind) → sum_kind column.now.kind ≡ Some k → slot_fits k (slot_of v) ≡ true) }
{
    let Some(dtype) = sum_type(column.dtype()) else {
        return Ok(None);
    };
    let rows = all_rows(alloc, column.len())?;
    Ok(Some(wrap_sum(&dtype, column.total_at(&rows))))
}

/// An aggregation's value on a frame, and a null where it has none.
fn value_on(alloc: Global, frame: &DataFrame, agg: &Aggregation) -> Px<Option<Value>>
    ensures value { AnswersBy slot_of result (Ok (option_map_or value_of_cell (value_on (tree_of agg.now) (alone frame.now)) None)) }
    ensures fits { IfOk result (λ v. (k : Kind) → kind_in (tree_of agg.now) (map column_field frame.now) ≡ Some k → slot_fits k (slot_of v) ≡ true) }
{
    match agg {
        Aggregation::Len => Ok(Some(Value::Int(frame.height() as i128))),
        Aggregation::Sum(name) => match frame.column(name) {
            None => Ok(None),
            Some(column) => sum_of(alloc, column),
        },
    }
}

/// The type of an aggregation's values: `ColumnNotFound` where its column is not there, then `Types` where
/// such values cannot be summed.
fn type_on(alloc: Global, frame: &DataFrame, agg: &Aggregation) -> Px<DataType>
    ensures { MeetsBy kind_of result (agg_refusals (alone frame.now) (tree_of agg.now)) (kind_in (tree_of agg.now) (map column_field frame.now)) }
{
    match agg {
        Aggregation::Len => Ok(DataType::UInt32),
        Aggregation::Sum(name) => match frame.column(name) {
            None => Err(PxError::ColumnNotFound(name.try_clone(alloc)?)),
            Some(column) => {
                sum_type(column.dtype()).ok_or(PxError::InvalidOperation(InvalidWhy::Types))
            }
        },
    }
}

fn name_of(alloc: Global, agg: &Aggregation) -> Px<Name>
    ensures { Answers result (Ok (name_of (tree_of agg.now))) }
{
    match agg {
        Aggregation::Len => Name::new(alloc, "len"),
        Aggregation::Sum(name) => name.try_clone(alloc),
    }
}

/// An aggregation's value for each part: that on the frame of the part's rows alone.
fn part_values(
    alloc: Global,
    frame: &DataFrame,
    parts: &[Vec<u32>],
    agg: &Aggregation,
) -> Px<Vec<Option<Value>>>
    requires { All (λ p. IsPart (height_of frame.now) p.items) parts.now }
    ensures values { AnswersBy (λ v. slots_of v.items) result (Ok (map (value_at_part frame.now (tree_of agg.now)) (map (λ p. p.items) parts.now))) }
    ensures fit { IfOk result (λ v. (k : Kind) → kind_in (tree_of agg.now) (map column_field frame.now) ≡ Some k → slots_fit k (slots_of v.items) ≡ true) }
    ensures len { IfOk result (λ v. vec_len v ≡ length parts.now) }
{
    let mut values = Vec::new(alloc);
    for part in parts {
        let rows = frame.take_rows(alloc, part)?;
        values.push(value_on(alloc, &rows, agg)?)?;
    }
    Ok(values)
}

/// An aggregation as a column, with a row for each part.
fn aggregate(alloc: Global, frame: &DataFrame, parts: &[Vec<u32>], agg: &Aggregation) -> Px<Column>
    requires few { length parts.now < 2 ^ 32 }
    requires parts { All (λ p. IsPart (height_of frame.now) p.items) parts.now }
    ensures { Meets result (agg_refusals (alone frame.now) (tree_of agg.now)) (aggregated_on (alone frame.now) (map (λ p. p.items) parts.now) (tree_of agg.now)) }
{
    let dtype = type_on(alloc, frame, agg)?;
    let values = part_values(alloc, frame, parts, agg)?;
    Column::from_values(alloc, name_of(alloc, agg)?, dtype, values)
}

fn aggregate_columns(
    alloc: Global,
    frame: &DataFrame,
    parts: &[Vec<u32>],
    aggs: &[Aggregation],
) -> Px<Vec<Column>>
    requires few { length parts.now < 2 ^ 32 }
    requires parts { All (λ p. IsPart (height_of frame.now) p.items) parts.now }
    ensures { MeetsBy (λ v. v.items) result (flat_map (agg_refusals (alone frame.now)) (map tree_of aggs.now))
        (each (aggregated_on (alone frame.now) (map (λ p. p.items) parts.now)) (map tree_of aggs.now)) }
{
    let mut columns = Vec::new(alloc);
    for agg in aggs {
        columns.push(aggregate(alloc, frame, parts, agg)?)?;
    }
    Ok(columns)
}

/// The keys' values and then each aggregation's, for each part of the frame by these keys.
fn group_columns(
    alloc: Global,
    frame: &DataFrame,
    by: &[Column],
    aggs: &[Aggregation],
) -> Px<Vec<Column>>
    ensures { MeetsBy (λ v. v.items) result (flat_map (agg_refusals (alone frame.now)) (map tree_of aggs.now)) (columns_on (alone frame.now) (map tree_of aggs.now) by.now) }
{
    let parts = plain_parts(alloc, by, frame.height())?;
    let mut columns = first_values(alloc, by, &parts)?;
    let mut values = aggregate_columns(alloc, frame, &parts, aggs)?;
    columns.append(&mut values)?;
    Ok(columns)
}

/// For each part of the frame by these columns, the keys and the aggregations over the part's rows. `NoKey`
/// without a key; then what refuses the keys and the aggregations, each in its order: `ColumnNotFound`,
/// `ListKey`, `Types`; then `Duplicate` with the first name that stands twice.
pub fn plain_group_step(
    alloc: Global,
    frame: &DataFrame,
    keys: &[Name],
    aggs: &[Aggregation],
) -> Px<DataFrame>
    // The frame of the step's definition, or the first of its refusals.
    ensures { Meets result (step_refusals (step_by keys.now aggs.now) (alone frame.now)) (columns_made (step_by keys.now aggs.now) (alone frame.now)) }
{
    if keys.is_empty() {
        return Err(PxError::ComputeError(ComputeWhy::NoKey));
    }
    let by = key_columns(alloc, frame, keys)?;
    DataFrame::new(alloc, group_columns(alloc, frame, &by, aggs)?)
}
