//! A column: a name and a typed array of optional values.
ghost use Rattle.std.specs.Prelude.{◌≡◌, ◌+◌, ◌<◌, ◌≤◌, ◌==◌, ◌^◌, [], IfSome, Ok, length, drop, take, vec_len, true};
ghost use Rattle.px_value.specs.Answer.{Answers};
ghost use Rattle.px_column.specs.Column.{made};
ghost use Rattle.px_value.specs.Kind.{slots_fit, slot_fits};
ghost use Rattle.px_value.specs.KindView.{kind_of};
ghost use Rattle.px_value.specs.LentView.{slot_of_ref};
ghost use Rattle.px_value.specs.Series.{slot_at};
ghost use Rattle.px_value.specs.View.{slots_of};

use crate::builder::ColumnBuilder;
use px_array::{Array, Integers, Rows};
use px_value::{DataType, InvalidWhy, Name, Px, PxError, Value, ValueRef, lend, slot_fits};
use std::alloc::Global;
use std::marker::Model;

/// A column (polars `Column`), seen as its name, its type and its places, which its copies and slices
/// share.
pub struct Column {
    pub(crate) name: Name,
    pub(crate) array: Array,
}

/// One call where a column is let go, so that proofs see no more of what is inside.
impl Drop for Column {
    fn drop(self) {
        let Column {
            name: _name,
            array: _array,
        } = self;
    }
}

impl Model for Column {
    ghost use Rattle.px_value.specs.Series.{Series, IsColumn, coded_series};

    ghost Value = { Series };

    ghost coded = { coded_series };

    ghost view = { λ c. record { name = c.name; kind = c.array.kind; slots = c.array.slots } };

    ghost invariant = { λ c. IsColumn c.array.kind c.array.slots };
}

fn all_fit(dtype: &DataType, rows: &[Option<Value>]) -> bool
    ensures { result ≡ slots_fit (kind_of dtype.now) (slots_of rows.now) }
{
    for row in rows {
        if !slot_fits(dtype, lend(row)) {
            return false;
        }
    }
    true
}

impl Column {
    /// The column of these values, of which there are fewer than 2^32; `Types` where one of them does
    /// not fit the type (polars `Series::from_any_values_and_dtype`, strict).
    pub fn from_values(
        alloc: Global,
        name: Name,
        dtype: DataType,
        rows: Vec<Option<Value>>,
    ) -> Px<Column>
        requires { vec_len rows < 2 ^ 32 }
        ensures { Answers result (made name (kind_of dtype) (slots_of rows.items)) }
    {
        if !all_fit(&dtype, &rows) {
            return Err(PxError::InvalidOperation(InvalidWhy::Types));
        }
        let built = ColumnBuilder::new(alloc, name, dtype, rows.len() as u32)?;
        Column::from_builder(built, rows)
    }

    /// The column of these values, which fit the type, under the name of a builder that has no row yet.
    fn from_builder(mut built: ColumnBuilder, rows: Vec<Option<Value>>) -> Px<Column>
        requires len { vec_len rows < 2 ^ 32 }
        requires empty { built.slots ≡ [] }
        requires fit { slots_fit built.kind (slots_of rows.items) ≡ true }
        ensures { Answers result (Ok (record built { slots = slots_of rows.items })) }
    {
        for row in rows {
            built.push(row)?;
        }
        built.finish()
    }

    /// The column of an array under a name.
    pub(crate) fn of_array(name: Name, array: Array) -> Column
        ensures { result ≡ record { name = name; kind = array.kind; slots = array.slots } }
    {
        let _ = array.rows();
        Column { name, array }
    }

    /// The number of rows.
    #[inline(always)]
    pub fn len(&self) -> u32
        ensures { result ≡ length self.now.slots }
    {
        self.array.len()
    }

    /// Whether there is no row.
    pub fn is_empty(&self) -> bool
        ensures { result ≡ (length self.now.slots == 0) }
    {
        self.array.len() == 0
    }

    /// The column's name.
    pub fn name(&self) -> &Name
        ensures { result.now ≡ self.now.name }
    {
        &self.name
    }

    /// The type of the values.
    pub fn dtype(&self) -> &DataType
        ensures { kind_of result.now ≡ self.now.kind }
    {
        self.array.dtype()
    }

    /// The value at a row, `None` where it is a null (polars `get`).
    #[inline(always)]
    pub fn get(&self, index: u32) -> Option<ValueRef<'_>>
        requires { index < length self.now.slots }
        ensures value { slot_of_ref result ≡ slot_at self.now.slots index }
        ensures fits { slot_fits self.now.kind (slot_of_ref result) ≡ true }
    {
        self.array.get(index)
    }

    /// The rows in order, lent (polars `iter`).
    pub fn rows(&self) -> Rows<'_>
        ensures value { result ≡ self.now.slots }
        ensures fit { slots_fit self.now.kind self.now.slots ≡ true }
        ensures short { length self.now.slots < 2 ^ 32 }
    {
        self.array.rows()
    }

    /// The rows as integers, where they stand in memory as such; else `None`.
    pub fn integers(&self) -> Option<Integers<'_>>
        ensures { IfSome result (λ v. v ≡ self.now.slots) }
    {
        self.array.integers()
    }

    /// So many rows from an offset on, all of which are there; they share the values.
    pub fn window(&self, alloc: Global, offset: u32, count: u32) -> Px<Column>
        requires { offset + count ≤ length self.now.slots }
        ensures { Answers result (Ok (record self.now { slots = take count (drop offset self.now.slots) })) }
    {
        let name = self.name.try_clone(alloc)?;
        let array = self.array.slice(alloc, offset, count)?;
        Ok(Column::of_array(name, array))
    }

    /// An equal column, which shares the values.
    pub fn try_clone(&self, alloc: Global) -> Px<Column>
        ensures { Answers result (Ok self.now) }
    {
        Ok(Column {
            name: self.name.try_clone(alloc)?,
            array: self.array.try_clone(alloc)?,
        })
    }

    /// The column under another name.
    pub fn with_name(self, name: Name) -> Column
        ensures { result ≡ record self { name = name } }
    {
        let Column { name: _old, array } = self;
        Column { name, array }
    }
}
