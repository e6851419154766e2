//! The names of types.
ghost use Rattle.std.specs.Prelude.{◌≡◌, ◌++◌, OnOk};
ghost use Rattle.px_column.specs.Prelude.{kind_of};
ghost use Rattle.px_text.specs.Text.{in_quotes, kind_name};

use px_column::DataType;
use std::alloc::AllocError;

/// Appends the name of a type, as `List(Int64)`.
fn push_type_name(out: &mut Vec<u8>, dtype: &DataType) -> Result<(), AllocError>
    ensures { OnOk result (out.new.items ≡ out.old.items ++ kind_name (kind_of dtype.now)) }
{
    match dtype {
        DataType::Boolean => out.extend_from_slice(b"Boolean"),
        DataType::Int8 => out.extend_from_slice(b"Int8"),
        DataType::Int16 => out.extend_from_slice(b"Int16"),
        DataType::Int32 => out.extend_from_slice(b"Int32"),
        DataType::Int64 => out.extend_from_slice(b"Int64"),
        DataType::UInt8 => out.extend_from_slice(b"UInt8"),
        DataType::UInt16 => out.extend_from_slice(b"UInt16"),
        DataType::UInt32 => out.extend_from_slice(b"UInt32"),
        DataType::UInt64 => out.extend_from_slice(b"UInt64"),
        DataType::String => out.extend_from_slice(b"String"),
        DataType::Binary => out.extend_from_slice(b"Binary"),
        DataType::Null => out.extend_from_slice(b"Null"),
        DataType::List(of) => {
            out.extend_from_slice(b"List(")?;
            push_type_name(out, of)?;
            out.extend_from_slice(b")")
        }
    }
}

/// Appends the name of a type as a JSON string.
pub(crate) fn push_type(out: &mut Vec<u8>, dtype: &DataType) -> Result<(), AllocError>
    ensures { OnOk result (out.new.items ≡ out.old.items ++ in_quotes (kind_name (kind_of dtype.now))) }
{
    out.push(b'"')?;
    push_type_name(out, dtype)?;
    out.push(b'"')?;
    Ok(())
}
