//! Why a document was not read.

use px_column::PxError;
use std::alloc::{AllocError, AllocFailed};

/// Why a document was not read.
#[derive(Clone, Copy, Debug, PartialEq, Eq)]
pub enum DocumentFault {
    /// The bytes are no document.
    BadDocument,
    /// Memory was wanting.
    OutOfMemory,
}

impl From<AllocError> for DocumentFault {
    ghost use Rattle.std.specs.Prelude.{◌≡◌};
    ghost use Rattle.px_document.specs.declared.document.fault.DocumentFault.TheVariants.{OutOfMemory};

    ghost from_gives = { λ _ e. e ≡ OutOfMemory };

    fn from(_e: AllocError) -> DocumentFault {
        DocumentFault::OutOfMemory
    }
}

impl<T: Drop> From<AllocFailed<T>> for DocumentFault {
    ghost use Rattle.std.specs.Prelude.{◌≡◌};
    ghost use Rattle.px_document.specs.declared.document.fault.DocumentFault.TheVariants.{OutOfMemory};

    ghost from_gives = { λ _ e. e ≡ OutOfMemory };

    fn from(_e: AllocFailed<T>) -> DocumentFault {
        DocumentFault::OutOfMemory
    }
}

impl From<PxError> for DocumentFault {
    ghost use Rattle.std.specs.Prelude.{◌≡◌};
    ghost use Rattle.px_document.specs.Fault.{fault_of};

    ghost from_gives = { λ e f. f ≡ fault_of e };

    fn from(e: PxError) -> DocumentFault {
        match e {
            PxError::OutOfMemory => DocumentFault::OutOfMemory,
            _ => DocumentFault::BadDocument,
        }
    }
}
