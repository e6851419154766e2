//! Columns built row by row.
ghost use Rattle.std.specs.Prelude.{◌≡◌, ◌+◌, ◌<◌, ◌^◌, ◌∷◌, ◌++◌, [], Ok, OnOk, OnErr, length, true};
ghost use Rattle.px_value.specs.Answer.{Answers};
ghost use Rattle.px_value.specs.Kind.{slot_fits};
ghost use Rattle.px_value.specs.KindView.{kind_of};
ghost use Rattle.px_value.specs.LentView.{slot_of_ref};
ghost use Rattle.px_value.specs.View.{slot_of};

use crate::column::Column;
use px_array::ArrayBuilder;
use px_value::{DataType, Name, Px, Value, ValueRef};
use std::alloc::Global;
use std::marker::Model;

/// A column that is being built, seen as the column of the rows so far.
pub struct ColumnBuilder {
    name: Name,
    array: ArrayBuilder,
}

/// One call where a builder is let go, so that proofs see no more of what is inside.
impl Drop for ColumnBuilder {
    fn drop(self) {
        let ColumnBuilder {
            name: _name,
            array: _array,
        } = self;
    }
}

impl Model for ColumnBuilder {
    ghost use Rattle.px_value.specs.Series.{Series, coded_series};

    ghost Value = { Series };

    ghost coded = { coded_series };

    ghost view = { λ b. record { name = b.name; kind = b.array.kind; slots = b.array.slots } };
}

impl ColumnBuilder {
    /// No row yet, under a name and of a type, with room for so many (polars `ChunkedBuilder`).
    pub fn new(alloc: Global, name: Name, dtype: DataType, capacity: u32) -> Px<ColumnBuilder>
        ensures { Answers result (Ok (record { name = name; kind = kind_of dtype; slots = [] })) }
    {
        let array = ArrayBuilder::new(alloc, dtype, capacity)?;
        Ok(ColumnBuilder { name, array })
    }

    /// One row more, which fits the type; there is room for it below 2^32. Where memory is wanting
    /// the rows stay as they are.
    pub fn push(&mut self, slot: Option<Value>) -> Px<()>
        requires fits { slot_fits self.old.kind (slot_of slot) ≡ true }
        requires room { length self.old.slots + 1 < 2 ^ 32 }
        ensures answer { Answers result (Ok tt) }
        ensures ok { OnOk result (self.new ≡ record self.old { slots = self.old.slots ++ slot_of slot ∷ [] }) }
        ensures err { OnErr result (self.new ≡ self.old) }
    {
        self.array.push(slot)
    }

    /// One row more, copied, under the conditions of `push`.
    #[inline(always)]
    pub fn push_ref(&mut self, slot: Option<ValueRef<'_>>) -> Px<()>
        requires fits { slot_fits self.old.kind (slot_of_ref slot) ≡ true }
        requires room { length self.old.slots + 1 < 2 ^ 32 }
        ensures answer { Answers result (Ok tt) }
        ensures ok { OnOk result (self.new ≡ record self.old { slots = self.old.slots ++ slot_of_ref slot.entry ∷ [] }) }
        ensures err { OnErr result (self.new ≡ self.old) }
    {
        self.array.push_ref(slot)
    }

    /// All rows of a column more, copied, under the conditions of `push`.
    pub(crate) fn push_rows(&mut self, column: &Column) -> Px<()>
        requires kind { column.now.kind ≡ self.old.kind }
        requires room { length self.old.slots + length column.now.slots < 2 ^ 32 }
        ensures answer { Answers result (Ok tt) }
        ensures ok { OnOk result (self.new ≡ record self.old { slots = self.old.slots ++ column.now.slots }) }
    {
        for row in column.rows() {
            self.push_ref(row)?;
        }
        Ok(())
    }

    /// The column of the rows.
    pub fn finish(self) -> Px<Column>
        ensures { Answers result (Ok self) }
    {
        let ColumnBuilder { name, array } = self;
        let array = array.finish()?;
        Ok(Column::of_array(name, array))
    }
}

impl Column {
    /// No row yet of another column, under this one's name and of its type.
    pub(crate) fn builder(&self, alloc: Global, capacity: u32) -> Px<ColumnBuilder>
        ensures { Answers result (Ok (record self.now { slots = [] })) }
    {
        let name = self.name().try_clone(alloc)?;
        let dtype = self.dtype().try_clone(alloc)?;
        ColumnBuilder::new(alloc, name, dtype, capacity)
    }
}
