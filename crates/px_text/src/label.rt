//! The line that tells of a fault.
ghost use Rattle.std.specs.Prelude.{◌≡◌, ◌++◌, OnOk, Ok};
ghost use Rattle.px_column.specs.Prelude.{Answers};
ghost use Rattle.px_text.specs.Label.{compute_name, invalid_name, label_of, labelled, line_of};
ghost use Rattle.px_text.specs.Text.{quoted};

use crate::json::push_quoted;
use px_column::{ByteString, ComputeWhy, InvalidWhy, Name, Px, PxError};
use std::alloc::{AllocError, Global};

fn invalid_name(why: InvalidWhy) -> &'static [u8]
    ensures { result.now ≡ invalid_name why }
{
    match why {
        InvalidWhy::WindowOnGroups => b"WindowOnGroups",
        InvalidWhy::AggAboveImplode => b"AggAboveImplode",
        InvalidWhy::ScalarOnGroups => b"ScalarOnGroups",
        InvalidWhy::ListKey => b"ListKey",
        InvalidWhy::RangeType => b"RangeType",
        InvalidWhy::Types => b"Types",
        InvalidWhy::CastLost => b"CastLost",
    }
}

fn compute_name(why: ComputeWhy) -> &'static [u8]
    ensures { result.now ≡ compute_name why }
{
    match why {
        ComputeWhy::AggLiteral => b"AggLiteral",
        ComputeWhy::AggScalar => b"AggScalar",
        ComputeWhy::SingleIndex => b"SingleIndex",
        ComputeWhy::NoKey => b"NoKey",
        ComputeWhy::NotPartitionSafe => b"NotPartitionSafe",
        ComputeWhy::SliceArgument => b"SliceArgument",
        ComputeWhy::NullIndex => b"NullIndex",
        ComputeWhy::RangeBound => b"RangeBound",
        ComputeWhy::WindowLength => b"WindowLength",
        ComputeWhy::ChunkLengths => b"ChunkLengths",
        ComputeWhy::TooLong => b"TooLong",
        ComputeWhy::DepthText => b"DepthText",
        ComputeWhy::Interrupted => b"Interrupted",
    }
}

fn push_named(out: &mut Vec<u8>, word: &[u8], name: &Name) -> Result<(), AllocError>
    ensures { OnOk result (out.new.items ≡ out.old.items ++ labelled word.now (quoted name.now)) }
{
    out.extend_from_slice(word)?;
    out.push(b'(')?;
    push_quoted(out, name.as_str())?;
    out.push(b')')?;
    Ok(())
}

fn push_labelled(out: &mut Vec<u8>, word: &[u8], detail: &[u8]) -> Result<(), AllocError>
    ensures { OnOk result (out.new.items ≡ out.old.items ++ labelled word.now detail.now) }
{
    out.extend_from_slice(word)?;
    out.push(b'(')?;
    out.extend_from_slice(detail)?;
    out.push(b')')?;
    Ok(())
}

fn push_label(out: &mut Vec<u8>, fault: &PxError) -> Result<(), AllocError>
    ensures { OnOk result (out.new.items ≡ out.old.items ++ label_of fault.now) }
{
    match fault {
        PxError::ColumnNotFound(name) => push_named(out, b"ColumnNotFound", name),
        PxError::Duplicate(name) => push_named(out, b"Duplicate", name),
        PxError::InvalidOperation(why) => {
            push_labelled(out, b"InvalidOperation", invalid_name(*why))
        }
        PxError::ComputeError(why) => push_labelled(out, b"ComputeError", compute_name(*why)),
        PxError::OutOfBounds => out.extend_from_slice(b"OutOfBounds"),
        PxError::ShapeMismatch => out.extend_from_slice(b"ShapeMismatch"),
        PxError::SchemaMismatch => out.extend_from_slice(b"SchemaMismatch"),
        PxError::OutOfMemory => out.extend_from_slice(b"OutOfMemory"),
    }
}

/// The line that tells of a fault: `error: `, its label and a line feed, as `error: OutOfBounds` or
/// `error: ColumnNotFound("y")`, where a name is a JSON string.
pub fn error_line(alloc: Global, fault: &PxError) -> Px<ByteString>
    ensures { Answers result (Ok (line_of fault.now)) }
{
    let mut out = Vec::from_slice(alloc, b"error: ")?;
    push_label(&mut out, fault)?;
    out.push(b'\n')?;
    ByteString::from_vec(out)
}
