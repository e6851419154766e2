//! Columns that hold the same at each row.
ghost use Rattle.std.specs.Prelude.{◌≡◌, ◌<◌, Ok, Some, None, length, true, false, is_ok};
ghost use Rattle.px_value.specs.Answer.{Answers};
ghost use Rattle.px_value.specs.Kind.{fits, is_list_kind, slot_fits};
ghost use Rattle.px_value.specs.KindView.{kind_of};
ghost use Rattle.px_column.specs.Repeat.{repeated};
ghost use Rattle.px_value.specs.Series.{slot_at};
ghost use Rattle.px_value.specs.View.{datum_of, slot_of};

use crate::column::Column;
use px_array::Array;
use px_value::{DataType, Name, Px, Value, copy_slot};
use std::alloc::Global;

/// The column of this place at each of `len` rows.
fn repeat_slot(
    alloc: Global,
    name: Name,
    dtype: DataType,
    slot: Option<Value>,
    len: u32,
) -> Px<Column>
    requires { slot_fits (kind_of dtype) (slot_of slot) ≡ true }
    ensures answer { Answers result (Ok (repeated name (kind_of dtype) (slot_of slot) len)) }
    ensures memory { is_list_kind (kind_of dtype) ≡ false → is_ok result ≡ true }
{
    let array = Array::full(alloc, dtype, slot, len)?;
    Ok(Column::of_array(name, array))
}

impl Column {
    /// The column of this value at each of `len` rows (polars `Column::full`), kept once. The value fits
    /// the type, as `Value::fits` tells. Only a List type wants memory.
    pub fn full(alloc: Global, name: Name, dtype: DataType, value: Value, len: u32) -> Px<Column>
        requires { fits (kind_of dtype) (datum_of value) ≡ true }
        ensures answer { Answers result (Ok (repeated name (kind_of dtype) (Some (datum_of value)) len)) }
        ensures memory { is_list_kind (kind_of dtype) ≡ false → is_ok result ≡ true }
    {
        repeat_slot(alloc, name, dtype, Some(value), len)
    }

    /// The column of `len` nulls (polars `Series::full_null`). Only a List type may want memory.
    pub fn full_null(alloc: Global, name: Name, len: u32, dtype: DataType) -> Px<Column>
        ensures answer { Answers result (Ok (repeated name (kind_of dtype) None len)) }
        ensures memory { is_list_kind (kind_of dtype) ≡ false → is_ok result ≡ true }
    {
        repeat_slot(alloc, name, dtype, None, len)
    }

    /// The column of what this one holds at `index`, which is below its length, at each of `len`
    /// rows (polars `new_from_index`).
    pub fn new_from_index(&self, alloc: Global, index: u32, len: u32) -> Px<Column>
        requires { index < length self.now.slots }
        ensures { Answers result (Ok (repeated self.now.name self.now.kind (slot_at self.now.slots index) len)) }
    {
        let name = self.name().try_clone(alloc)?;
        let dtype = self.dtype().try_clone(alloc)?;
        repeat_slot(alloc, name, dtype, copy_slot(alloc, self.get(index))?, len)
    }
}
