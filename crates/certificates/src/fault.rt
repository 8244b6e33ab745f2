ghost use Rattle.std.specs.Prelude.{◌≡◌};

use std::alloc::AllocError;
use thiserror::Error;

/// Why bytes were not read as a certificate. Lines are counted from 1.
#[derive(Clone, Copy, Debug, PartialEq, Eq, Error)]
pub enum CertFault {
    /// The first line that no certificate has there, or the line that is missing behind the last.
    #[error("line {line}: not of a certificate")]
    Malformed { line: u64 },
    /// The head, at this line, names a version that is not read.
    #[error("line {line}: another version")]
    Version { line: u64 },
    #[error("no memory")]
    NoMemory,
}

impl From<AllocError> for CertFault {
    ghost use Rattle.certificates.specs.declared.fault.CertFault.TheVariants.{NoMemory};

    ghost from_gives = { λ _ fault. fault ≡ NoMemory };

    fn from(_: AllocError) -> CertFault {
        CertFault::NoMemory
    }
}
