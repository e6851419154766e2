//! What a call refuses.

use crate::name::Name;
use std::alloc::{AllocError, AllocFailed};
use thiserror::Error;

/// An answer, or why there is none.
pub type Px<T> = Result<T, PxError>;

/// Why a call was refused.
#[derive(Debug, Drop, Error)]
pub enum PxError {
    /// No column has this name.
    #[error("no column has the name {0}")]
    ColumnNotFound(Name),
    /// Two columns would have this name.
    #[error("two columns have the name {0}")]
    Duplicate(Name),
    /// The operation is not defined for these types, values or places.
    #[error("the operation is not there for these types or places: {0:?}")]
    InvalidOperation(InvalidWhy),
    /// The computation has no result.
    #[error("the computation has no result: {0:?}")]
    ComputeError(ComputeWhy),
    /// A row number is not below the number of rows.
    #[error("a row is asked for that is not there")]
    OutOfBounds,
    /// Lengths that have to agree differ.
    #[error("lengths do not agree")]
    ShapeMismatch,
    /// A mask or a predicate is not Boolean.
    #[error("a mask is not Boolean")]
    SchemaMismatch,
    /// An allocation failed.
    #[error("out of memory")]
    OutOfMemory,
}

/// Why an operation is not there.
#[derive(Clone, Copy, Debug, PartialEq, Eq)]
pub enum InvalidWhy {
    /// A window stands in an aggregation.
    WindowOnGroups,
    /// On groups, a reduction, a slice or a null count stands above an Implode.
    AggAboveImplode,
    /// On groups, rows are chosen or moved in an expression that has one value.
    ScalarOnGroups,
    /// A List column is compared, sorted by or grouped by.
    ListKey,
    /// A range is of another type than Int32, Int64 and UInt32.
    RangeType,
    /// The types or the number of the operands do not fit the operation.
    Types,
    /// A strict cast loses a value.
    CastLost,
}

/// Why a computation has no result.
#[derive(Clone, Copy, Debug, PartialEq, Eq)]
pub enum ComputeWhy {
    /// On groups, a reduction stands over literals alone.
    AggLiteral,
    /// On groups, a reduction stands over one value.
    AggScalar,
    /// A gather of one row is asked by more than one index.
    SingleIndex,
    /// A group step or a window has no key.
    NoKey,
    /// An expression cannot be evaluated chunk by chunk.
    NotPartitionSafe,
    /// The offset or the length of a slice is no one value that it can use.
    SliceArgument,
    /// The one index of a gather is null.
    NullIndex,
    /// A bound of a range does not lie in its type.
    RangeBound,
    /// A window function has another number of rows than its part.
    WindowLength,
    /// The lengths of chunks do not sum to the height.
    ChunkLengths,
    /// There would be 2^32 values or more.
    TooLong,
    /// A text is no depth limit.
    DepthText,
    /// The evaluation was told to stop.
    Interrupted,
}

impl From<AllocError> for PxError {
    ghost use Rattle.std.specs.Prelude.{◌≡◌};
    ghost use Rattle.px_value.specs.declared.error.PxError.TheVariants.{OutOfMemory};

    ghost from_gives = { λ _ e. e ≡ OutOfMemory };

    fn from(_e: AllocError) -> PxError {
        PxError::OutOfMemory
    }
}

impl<T: Drop> From<AllocFailed<T>> for PxError {
    ghost use Rattle.std.specs.Prelude.{◌≡◌};
    ghost use Rattle.px_value.specs.declared.error.PxError.TheVariants.{OutOfMemory};

    ghost from_gives = { λ _ e. e ≡ OutOfMemory };

    fn from(_e: AllocFailed<T>) -> PxError {
        PxError::OutOfMemory
    }
}
