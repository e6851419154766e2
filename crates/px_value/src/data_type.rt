//! The types of columns.
ghost use Rattle.std.specs.Prelude.{◌≡◌, Ok};
ghost use Rattle.px_value.specs.Answer.{AnswersBy};
ghost use Rattle.px_value.specs.Kind.{is_list_kind};
ghost use Rattle.px_value.specs.KindView.{kind_of};

use crate::error::Px;
use std::alloc::Global;
use std::rc::Rc;

/// The type of a column's values (polars `DataType`, without its floats and its logical types).
pub enum DataType {
    /// Truths.
    Boolean,
    /// Integers of 8 bits with a sign.
    Int8,
    /// Integers of 16 bits with a sign.
    Int16,
    /// Integers of 32 bits with a sign.
    Int32,
    /// Integers of 64 bits with a sign.
    Int64,
    /// Integers of 8 bits without a sign.
    UInt8,
    /// Integers of 16 bits without a sign.
    UInt16,
    /// Integers of 32 bits without a sign.
    UInt32,
    /// Integers of 64 bits without a sign.
    UInt64,
    /// Texts in UTF-8.
    String,
    /// Lists of bytes.
    Binary,
    /// Nulls alone.
    Null,
    /// Lists of values of this type, which copies share.
    List(Rc<DataType>),
}

/// One call where a type is let go, so that proofs see no case of it.
impl Drop for DataType {
    fn drop(self) {
        match self {
            DataType::List(_inner) => {}
            DataType::Boolean
            | DataType::Int8
            | DataType::Int16
            | DataType::Int32
            | DataType::Int64
            | DataType::UInt8
            | DataType::UInt16
            | DataType::UInt32
            | DataType::UInt64
            | DataType::String
            | DataType::Binary
            | DataType::Null => {}
        }
    }
}

impl DataType {
    /// Whether it is a type of lists.
    pub fn is_list(&self) -> bool
        ensures { result ≡ is_list_kind (kind_of self.now) }
    {
        matches!(self, DataType::List(_))
    }

    /// An equal type, which shares the type that lists are of and takes no allocation.
    pub fn try_clone(&self, _alloc: Global) -> Px<DataType>
        ensures { AnswersBy kind_of result (Ok (kind_of self.now)) }
    {
        match self {
            DataType::Boolean => Ok(DataType::Boolean),
            DataType::Int8 => Ok(DataType::Int8),
            DataType::Int16 => Ok(DataType::Int16),
            DataType::Int32 => Ok(DataType::Int32),
            DataType::Int64 => Ok(DataType::Int64),
            DataType::UInt8 => Ok(DataType::UInt8),
            DataType::UInt16 => Ok(DataType::UInt16),
            DataType::UInt32 => Ok(DataType::UInt32),
            DataType::UInt64 => Ok(DataType::UInt64),
            DataType::String => Ok(DataType::String),
            DataType::Binary => Ok(DataType::Binary),
            DataType::Null => Ok(DataType::Null),
            DataType::List(of) => Ok(DataType::List(of.clone()?)),
        }
    }
}
