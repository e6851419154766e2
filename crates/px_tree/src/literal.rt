//! Literals.
ghost use Rattle.std.specs.Prelude.{◌≡◌, Ok};
ghost use Rattle.px_column.specs.Prelude.{AnswersBy, kind_of};
ghost use Rattle.px_tree.specs.Shape.{is_single};
ghost use Rattle.px_tree.specs.Typing.{is_range_kind, literal_kind};
ghost use Rattle.px_tree.specs.View.{literal_of};

use px_column::{ByteString, Column, DataType, Name, Px};
use std::alloc::Global;

/// A value, a range of integers or a column that an expression holds (polars `LiteralValue`).
pub enum LiteralValue {
    /// A truth.
    Boolean(bool),
    /// A value of type Int8.
    Int8(i8),
    /// A value of type Int16.
    Int16(i16),
    /// A value of type Int32.
    Int32(i32),
    /// A value of type Int64.
    Int64(i64),
    /// A value of type UInt8.
    UInt8(u8),
    /// A value of type UInt16.
    UInt16(u16),
    /// A value of type UInt32.
    UInt32(u32),
    /// A value of type UInt64.
    UInt64(u64),
    /// A text.
    String(Name),
    /// A list of bytes.
    Binary(ByteString),
    /// A null of no other type.
    Null,
    /// The integers from `low` up to `high`, which is no part of them.
    Range {
        /// The first integer.
        low: i64,
        /// The integer after the last.
        high: i64,
        /// The type: Int32, Int64 or UInt32.
        dtype: DataType,
    },
    /// A column of its own.
    Series(Column),
}

/// One call where a literal is let go, so that proofs see no case of it.
impl Drop for LiteralValue {
    fn drop(self) {
        match self {
            LiteralValue::Boolean(_) => {}
            LiteralValue::Int8(_) => {}
            LiteralValue::Int16(_) => {}
            LiteralValue::Int32(_) => {}
            LiteralValue::Int64(_) => {}
            LiteralValue::UInt8(_) => {}
            LiteralValue::UInt16(_) => {}
            LiteralValue::UInt32(_) => {}
            LiteralValue::UInt64(_) => {}
            LiteralValue::String(_name) => {}
            LiteralValue::Binary(_bytes) => {}
            LiteralValue::Null => {}
            LiteralValue::Range {
                low: _,
                high: _,
                dtype: _dtype,
            } => {}
            LiteralValue::Series(_column) => {}
        }
    }
}

/// Whether a range of integers can be of this type: Int32, Int64 or UInt32.
pub fn is_range_type(dtype: &DataType) -> bool
    ensures { result ≡ is_range_kind (kind_of dtype.now) }
{
    matches!(dtype, DataType::Int32 | DataType::Int64 | DataType::UInt32)
}

impl LiteralValue {
    /// The type of its values (polars `LiteralValue::get_datatype`).
    pub fn get_datatype(&self, alloc: Global) -> Px<DataType>
        ensures { AnswersBy kind_of result (Ok (literal_kind (literal_of self.now))) }
    {
        match self {
            LiteralValue::Boolean(_) => Ok(DataType::Boolean),
            LiteralValue::Int8(_) => Ok(DataType::Int8),
            LiteralValue::Int16(_) => Ok(DataType::Int16),
            LiteralValue::Int32(_) => Ok(DataType::Int32),
            LiteralValue::Int64(_) => Ok(DataType::Int64),
            LiteralValue::UInt8(_) => Ok(DataType::UInt8),
            LiteralValue::UInt16(_) => Ok(DataType::UInt16),
            LiteralValue::UInt32(_) => Ok(DataType::UInt32),
            LiteralValue::UInt64(_) => Ok(DataType::UInt64),
            LiteralValue::String(_) => Ok(DataType::String),
            LiteralValue::Binary(_) => Ok(DataType::Binary),
            LiteralValue::Null => Ok(DataType::Null),
            LiteralValue::Range { dtype, .. } => dtype.try_clone(alloc),
            LiteralValue::Series(column) => column.dtype().try_clone(alloc),
        }
    }

    /// Whether it is one value, and no range or column.
    pub fn is_single(&self) -> bool
        ensures { result ≡ is_single (literal_of self.now) }
    {
        !matches!(self, LiteralValue::Range { .. } | LiteralValue::Series(_))
    }

    /// An equal literal.
    pub fn try_clone(&self, alloc: Global) -> Px<LiteralValue>
        ensures { AnswersBy literal_of result (Ok (literal_of self.now)) }
    {
        match self {
            LiteralValue::Boolean(b) => Ok(LiteralValue::Boolean(*b)),
            LiteralValue::Int8(z) => Ok(LiteralValue::Int8(*z)),
            LiteralValue::Int16(z) => Ok(LiteralValue::Int16(*z)),
            LiteralValue::Int32(z) => Ok(LiteralValue::Int32(*z)),
            LiteralValue::Int64(z) => Ok(LiteralValue::Int64(*z)),
            LiteralValue::UInt8(n) => Ok(LiteralValue::UInt8(*n)),
            LiteralValue::UInt16(n) => Ok(LiteralValue::UInt16(*n)),
            LiteralValue::UInt32(n) => Ok(LiteralValue::UInt32(*n)),
            LiteralValue::UInt64(n) => Ok(LiteralValue::UInt64(*n)),
            LiteralValue::String(text) => Ok(LiteralValue::String(text.try_clone(alloc)?)),
            LiteralValue::Binary(bytes) => Ok(LiteralValue::Binary(bytes.try_clone(alloc)?)),
            LiteralValue::Null => Ok(LiteralValue::Null),
            LiteralValue::Range { low, high, dtype } => {
                let dtype = dtype.try_clone(alloc)?;
                Ok(LiteralValue::Range {
                    low: *low,
                    high: *high,
                    dtype,
                })
            }
            LiteralValue::Series(column) => Ok(LiteralValue::Series(column.try_clone(alloc)?)),
        }
    }
}
