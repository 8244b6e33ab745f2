use std::alloc::{AllocError, AllocFailed};
use thiserror::Error;

/// Why a diagram was not made.
#[derive(Clone, Copy, Debug, PartialEq, Eq, Error)]
pub enum DiagramFault {
    /// The table is full.
    #[error("more nodes than a table can have")]
    TooManyNodes,
    #[error("no memory")]
    NoMemory,
}

impl From<AllocError> for DiagramFault {
    ghost use Rattle.std.specs.Prelude.{◌≡◌};
    ghost use Rattle.decision_diagram.specs.declared.fault.DiagramFault.TheVariants.{NoMemory};

    ghost from_gives = { λ _ fault. fault ≡ NoMemory };

    fn from(_: AllocError) -> DiagramFault {
        DiagramFault::NoMemory
    }
}

impl<T: Drop> From<AllocFailed<T>> for DiagramFault {
    ghost use Rattle.std.specs.Prelude.{◌≡◌};
    ghost use Rattle.decision_diagram.specs.declared.fault.DiagramFault.TheVariants.{NoMemory};

    ghost from_gives = { λ _ fault. fault ≡ NoMemory };

    fn from(_: AllocFailed<T>) -> DiagramFault {
        DiagramFault::NoMemory
    }
}
