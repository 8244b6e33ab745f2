use std::alloc::AllocError;
use thiserror::Error;

/// Why a clause was not taken.
#[derive(Debug, Drop, Error)]
pub enum CnfFault {
    /// A literal's variable is not among those of the formula.
    #[error("a variable is out of range")]
    VarRange,
    #[error("no memory")]
    NoMemory,
}

impl From<AllocError> for CnfFault {
    fn from(_: AllocError) -> CnfFault {
        CnfFault::NoMemory
    }
}
