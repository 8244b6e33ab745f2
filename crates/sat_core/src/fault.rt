use std::alloc::AllocError;
use thiserror::Error;

/// Why a clause was not added.
#[derive(Debug, Drop, Error)]
pub enum AddFault {
    /// A literal's variable is not among those of the solver.
    #[error("a variable is out of range")]
    VarRange,
    #[error("no memory")]
    NoMemory,
}

impl From<AllocError> for AddFault {
    fn from(_: AllocError) -> AddFault {
        AddFault::NoMemory
    }
}
