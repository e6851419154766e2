//! Refusals that hold no memory, so that a call with one may lend and still say what its lender ends as.
ghost use Rattle.std.specs.Prelude.{◌≡◌};
ghost use Rattle.px_context.specs.Refused.{error_of, refused_of};

use px_column::{ComputeWhy, PxError};
use std::convert::From;

/// Why a call that lends from a context was refused; `?` makes it a `PxError`.
#[derive(Clone, Copy, Debug, PartialEq, Eq)]
pub enum Refused {
    /// All cells together have 2^32 values or more: `ComputeError(TooLong)`.
    TooLong,
    /// An allocation failed: `OutOfMemory`.
    OutOfMemory,
}

/// The refusal of a call that has no others.
pub(crate) fn refusal_of(error: PxError) -> Refused
    ensures { result ≡ refused_of error }
{
    match error {
        PxError::ComputeError(ComputeWhy::TooLong) => Refused::TooLong,
        _ => Refused::OutOfMemory,
    }
}

impl From<Refused> for PxError {
    ghost use Rattle.std.specs.Prelude.{◌≡◌};
    ghost use Rattle.px_context.specs.Refused.{error_of};

    ghost from_gives = { λ r e. e ≡ error_of r };

    fn from(refused: Refused) -> PxError {
        match refused {
            Refused::TooLong => PxError::ComputeError(ComputeWhy::TooLong),
            Refused::OutOfMemory => PxError::OutOfMemory,
        }
    }
}
