//! The types that operations take, and the types of their results.
ghost use Rattle.std.specs.Prelude.{◌≡◌, [], ◌∷◌, Ok};
ghost use Rattle.px_column.specs.Prelude.{AnswersBy, kind_of};
ghost use Rattle.px_tree.specs.Typing.{is_integer_or_null, function_kind, window_kind};
ghost use Rattle.px_column.specs.Exploded.{element_kind};

use px_column::{DataType, InvalidWhy, Px, PxError, is_boolean, is_integer, type_where};
use px_tree::{FunctionExpr, WindowMapping};
use std::alloc::Global;
use std::rc::Rc;

pub(crate) fn is_integer_or_null(dtype: &DataType) -> bool
    ensures { result ≡ is_integer_or_null (kind_of dtype.now) }
{
    matches!(dtype, DataType::Null) || is_integer(dtype)
}

/// The type of the values in lists of a type, `Types` where it is no type of lists.
fn element_type(alloc: Global, dtype: &DataType) -> Px<DataType>
    ensures { AnswersBy kind_of result (element_kind (kind_of dtype.now)) }
{
    match dtype {
        DataType::List(of) => of.try_clone(alloc),
        _ => Err(PxError::InvalidOperation(InvalidWhy::Types)),
    }
}

/// The type of a function of one input.
pub(crate) fn type_of_one(alloc: Global, function: FunctionExpr, dtype: DataType) -> Px<DataType>
    ensures { AnswersBy kind_of result (function_kind function (kind_of dtype ∷ [])) }
{
    match function {
        FunctionExpr::IsNull | FunctionExpr::IsNotNull => Ok(DataType::Boolean),
        FunctionExpr::Not => type_where(is_boolean(&dtype), DataType::Boolean),
        FunctionExpr::Reverse | FunctionExpr::Shift(_) | FunctionExpr::DropNulls => Ok(dtype),
        FunctionExpr::NullCount => Ok(DataType::UInt32),
        FunctionExpr::Explode => element_type(alloc, &dtype),
        FunctionExpr::IsBetween { .. } | FunctionExpr::IsIn => {
            Err(PxError::InvalidOperation(InvalidWhy::Types))
        }
    }
}

/// The type of a window's rows: under `Join` all values of a part stand in one list, unless there is
/// one value for the part.
pub(crate) fn window_type(
    alloc: Global,
    mapping: WindowMapping,
    is_unit: bool,
    dtype: DataType,
) -> Px<DataType>
    ensures { AnswersBy kind_of result (Ok (window_kind mapping is_unit (kind_of dtype))) }
{
    if mapping == WindowMapping::Join && !is_unit {
        Ok(DataType::List(Rc::new(alloc, dtype)?))
    } else {
        Ok(dtype)
    }
}
