//! Frames: columns with distinct names and of one height.
ghost use Rattle.std.specs.Prelude.{◌≡◌, ◌<◌, ◌≤◌, ◌+◌, ◌^◌, ◌++◌, ◌∷◌, [], Ok, Err, IfOk, OnErr, OnOk, IfSome, true, List, map, option_map, length, vec_len, if◌then◌else◌};
ghost use Rattle.std.specs.List.{list_any, range_with_len};
ghost use Rattle.px_column.specs.Prelude.{Answers, AnswersBy};
ghost use Rattle.px_column.specs.Column.{all_within};
ghost use Rattle.px_column.specs.Operator.{is_boolean_kind};
ghost use Rattle.px_value.specs.declared.error.PxError.TheVariants.{Duplicate};
ghost use Rattle.px_frame.specs.Frame.{look, height_of, frame_of, first_repeat, all_have_height, has_height, names_of, name_eq, unless_repeated, subframe, are_below, are_in_all, taken_series, kept_frame, kept_series, series_at};
ghost use Rattle.px_frame.specs.Schema.{column_field};

use crate::schema::{Schema, schema_of};
use crate::taking::all_some;
use indexmap::IndexSet;
use px_column::{Column, Name, Px, PxError, is_boolean};
use std::alloc::Global;
use std::marker::Model;

/// Columns with distinct names and of one height (polars `DataFrame`), seen as their list.
pub struct DataFrame {
    columns: Vec<Column>,
    // The columns' names in their order, by which a column is found.
    names: IndexSet<Name>,
}

/// One call where a frame is let go, so that proofs see no more of what is inside.
impl Drop for DataFrame {
    fn drop(self) {
        let DataFrame {
            columns: _columns,
            names: _names,
        } = self;
    }
}

impl Model for DataFrame {
    ghost use Rattle.std.specs.Prelude.{List};
    ghost use Rattle.std.specs.Coded.{coded_list};
    ghost use Rattle.px_column.specs.Prelude.{Series};
    ghost use Rattle.px_column.specs.Series.{coded_series};

    ghost Value = { List Series };

    ghost coded = { coded_list coded_series };

    ghost use Rattle.std.specs.Prelude.{◌≡◌};
    ghost use Rattle.px_frame.specs.Frame.{names_of, IsFrame};

    ghost view = { λ f. f.columns.items };

    ghost invariant = { λ f. (f.names.keys ≡ names_of f.columns.items) × IsFrame f.columns.items };
}

/// One more name, unless it is there already, which is a `Duplicate`; after a refusal the names are
/// as they were.
pub fn add_name(alloc: Global, names: &mut IndexSet<Name>, name: &Name) -> Px<()>
    ensures answer { Answers result (if list_any (name_eq name.now) names.old.keys then Err (Duplicate name.now) else Ok tt) }
    ensures added { OnOk result (names.new.keys ≡ names.old.keys ++ name.now ∷ []) }
    ensures kept { OnErr result (names.new.keys ≡ names.old.keys) }
{
    let (_, is_new) = names.insert_full(name.try_clone(alloc)?)?;
    if is_new {
        Ok(())
    } else {
        Err(PxError::Duplicate(name.try_clone(alloc)?))
    }
}

fn distinct_names(alloc: Global, columns: &[Column]) -> Px<IndexSet<Name>>
    ensures { AnswersBy (λ s. s.keys) result (unless_repeated (first_repeat [] (names_of columns.now)) (Ok (names_of columns.now))) }
{
    let mut names = IndexSet::new(alloc);
    for column in columns {
        add_name(alloc, &mut names, column.name())?;
    }
    Ok(names)
}

fn height(columns: &[Column]) -> u32
    ensures { result ≡ height_of columns.now }
{
    match columns.first() {
        None => 0,
        Some(column) => column.len(),
    }
}

pub(crate) fn all_have_height(columns: &[Column], height: u32) -> bool
    ensures { result ≡ all_have_height height columns.now }
{
    for column in columns {
        if column.len() != height {
            return false;
        }
    }
    true
}

impl DataFrame {
    ghost use Rattle.px_frame.specs.Frame.{IsFrame};

    /// The frame of these columns; `Duplicate` with the first name that stands earlier, then
    /// `ShapeMismatch` where lengths differ (polars `DataFrame::new`).
    pub fn new(alloc: Global, columns: Vec<Column>) -> Px<DataFrame>
        ensures answer { Answers result (frame_of columns.items) }
        ensures short { IfOk result (λ f. height_of f < 2 ^ 32) }
    {
        let names = distinct_names(alloc, &columns)?;
        if all_have_height(&columns, height(&columns)) {
            Ok(DataFrame { columns, names })
        } else {
            Err(PxError::ShapeMismatch)
        }
    }

    /// The frame of these columns, whose names are distinct, in their order, and whose lengths agree.
    pub(crate) fn from_columns(columns: Vec<Column>, names: IndexSet<Name>) -> DataFrame
        requires names { names.keys ≡ names_of columns.items }
        requires frame { IsFrame columns.items }
        ensures { result ≡ columns.items }
    {
        DataFrame { columns, names }
    }

    /// The column of a name, `None` where there is none.
    pub fn column(&self, name: &Name) -> Option<&Column>
        ensures found { option_map (λ c. c.now) result ≡ look name.now self.now }
        ensures name { IfSome result (λ c. c.now.name ≡ name.now) }
        ensures height { IfSome result (λ c. length c.now.slots ≡ height_of self.now) }
    {
        match self.names.get_index_of(name) {
            None => None,
            Some(place) => Some(&self.columns[place]),
        }
    }

    /// The columns in their order.
    pub fn get_columns(&self) -> &[Column]
        ensures columns { result.now ≡ self.now }
        ensures frame { IsFrame self.now }
    {
        &self.columns
    }

    /// The number of rows, 0 without columns.
    pub fn height(&self) -> u32
        ensures { result ≡ height_of self.now }
    {
        height(&self.columns)
    }

    /// These rows in this order, each below the height (polars `take_unchecked`).
    pub fn take_rows(&self, alloc: Global, rows: &[u32]) -> Px<DataFrame>
        requires few { length rows.now < 2 ^ 32 }
        requires below { are_below (height_of self.now) rows.now ≡ true }
        ensures { Answers result (Ok (subframe self.now rows.now)) }
    {
        let indices = all_some(alloc, rows)?;
        DataFrame::new(alloc, take_columns(alloc, &self.columns, &indices)?)
    }

    /// The `length` rows from `offset` on, all of which are there (polars `slice`); the columns share
    /// their values.
    pub fn slice(&self, alloc: Global, offset: u32, length: u32) -> Px<DataFrame>
        requires { offset + length ≤ height_of self.now }
        ensures { Answers result (Ok (subframe self.now (range_with_len offset length))) }
    {
        let height = self.height();
        DataFrame::new(
            alloc,
            slice_columns(alloc, &self.columns, height, offset, length)?,
        )
    }

    /// The rows whose mask is true; a null in the mask keeps no row (polars `filter`, which repeats a
    /// mask of one row). `SchemaMismatch` where the mask has no truths, then `ShapeMismatch` where it
    /// has not the frame's height, be it one row.
    pub fn filter(&self, alloc: Global, mask: &Column) -> Px<DataFrame>
        ensures answer { Answers result (kept_frame self.now mask.now) }
        ensures short { IfOk result (λ f. height_of f < 2 ^ 32) }
    {
        if !is_boolean(mask.dtype()) {
            return Err(PxError::SchemaMismatch);
        }
        if mask.len() != self.height() {
            return Err(PxError::ShapeMismatch);
        }
        DataFrame::new(alloc, filter_columns(alloc, &self.columns, mask)?)
    }

    /// The names and types of the columns in their order (polars `DataFrame::schema`).
    pub fn schema(&self, alloc: Global) -> Px<Schema>
        ensures { Answers result (Ok (map column_field self.now)) }
    {
        schema_of(alloc, &self.columns)
    }

    /// An equal frame.
    pub fn try_clone(&self, alloc: Global) -> Px<DataFrame>
        ensures { Answers result (Ok self.now) }
    {
        DataFrame::new(alloc, copy_columns(alloc, &self.columns)?)
    }
}

fn take_column(alloc: Global, column: &Column, indices: &[Option<u32>]) -> Px<Column>
    requires few { length indices.now < 2 ^ 32 }
    requires within { all_within (length column.now.slots) indices.now ≡ true }
    ensures { Answers result (Ok (taken_series indices.now column.now)) }
{
    column.take(alloc, indices)
}

/// These rows of each column.
pub(crate) fn take_columns(
    alloc: Global,
    columns: &[Column],
    indices: &[Option<u32>],
) -> Px<Vec<Column>>
    requires few { length indices.now < 2 ^ 32 }
    requires within { are_in_all indices.now columns.now ≡ true }
    ensures { AnswersBy (λ v. v.items) result (Ok (map (taken_series indices.now) columns.now)) }
{
    let mut taken = Vec::with_capacity(alloc, columns.len())?;
    for column in columns {
        taken.push(take_column(alloc, column, indices)?)?;
    }
    Ok(taken)
}

#[tactic(auto, using(crate::proofs::Kept::kept_column_even))]
fn filter_column(alloc: Global, column: &Column, mask: &Column) -> Px<Column>
    requires boolean { is_boolean_kind mask.now.kind ≡ true }
    requires height { has_height (length mask.now.slots) column.now ≡ true }
    ensures { Answers result (Ok (kept_series mask.now.slots column.now)) }
{
    column.filter(alloc, mask)
}

/// The rows of each column whose mask is true.
fn filter_columns(alloc: Global, columns: &[Column], mask: &Column) -> Px<Vec<Column>>
    requires boolean { is_boolean_kind mask.now.kind ≡ true }
    requires height { all_have_height (length mask.now.slots) columns.now ≡ true }
    ensures { AnswersBy (λ v. v.items) result (Ok (map (kept_series mask.now.slots) columns.now)) }
{
    let mut kept = Vec::with_capacity(alloc, columns.len())?;
    for column in columns {
        kept.push(filter_column(alloc, column, mask)?)?;
    }
    Ok(kept)
}

/// So many rows of a column of this height from an offset on, which share its values.
#[tactic(auto, using(crate::proofs::Each::has_height_is, crate::proofs::Ranges::range_slots))]
fn slice_column(alloc: Global, column: &Column, height: u32, offset: u32, count: u32) -> Px<Column>
    requires height { has_height height column.now ≡ true }
    requires within { offset + count ≤ height }
    ensures { Answers result (Ok (series_at (range_with_len offset count) column.now)) }
{
    column.window(alloc, offset, count)
}

/// So many rows of each column from an offset on.
fn slice_columns(
    alloc: Global,
    columns: &[Column],
    height: u32,
    offset: u32,
    count: u32,
) -> Px<Vec<Column>>
    requires height { all_have_height height columns.now ≡ true }
    requires within { offset + count ≤ height }
    ensures { AnswersBy (λ v. v.items) result (Ok (subframe columns.now (range_with_len offset count))) }
{
    let mut slices = Vec::with_capacity(alloc, columns.len())?;
    for column in columns {
        slices.push(slice_column(alloc, column, height, offset, count)?)?;
    }
    Ok(slices)
}

fn copy_columns(alloc: Global, columns: &[Column]) -> Px<Vec<Column>>
    ensures { AnswersBy (λ v. v.items) result (Ok columns.now) }
{
    let mut copies = Vec::with_capacity(alloc, columns.len())?;
    for column in columns {
        copies.push(column.try_clone(alloc)?)?;
    }
    Ok(copies)
}
