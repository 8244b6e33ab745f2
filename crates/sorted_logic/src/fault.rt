ghost use Rattle.std.specs.Prelude.{◌≡◌};

use std::alloc::AllocError;
use thiserror::Error;

/// Why a declaration is refused.
#[derive(Debug, Drop, Error)]
pub enum SigFault {
    /// The name is declared, is declared twice at once, or is that of a field of requests.
    #[error("the name is taken")]
    Duplicate,
    /// The two sorts are the same, or one lies below the other.
    #[error("one sort lies in the other")]
    IllSorted,
    #[error("no memory")]
    NoMemory,
}

impl From<AllocError> for SigFault {
    ghost use Rattle.sorted_logic.specs.declared.fault.SigFault.TheVariants.{NoMemory};

    ghost from_gives = { λ _ fault. fault ≡ NoMemory };

    fn from(_: AllocError) -> SigFault {
        SigFault::NoMemory
    }
}

/// Why two signatures have no join.
#[derive(Debug, Drop, Error)]
pub enum JoinFault {
    /// A name is declared in both, and not alike.
    #[error("a name is declared in two ways")]
    Clash,
    #[error("no memory")]
    NoMemory,
}

impl From<AllocError> for JoinFault {
    ghost use Rattle.sorted_logic.specs.declared.fault.JoinFault.TheVariants.{NoMemory};

    ghost from_gives = { λ _ fault. fault ≡ NoMemory };

    fn from(_: AllocError) -> JoinFault {
        JoinFault::NoMemory
    }
}

/// What is wrong with the sorts of a formula.
#[derive(Clone, Copy, Debug, Drop, PartialEq, Eq, Error)]
pub enum SortFault {
    /// A symbol, a sort or a variable is not there.
    #[error("a symbol or a variable is not declared")]
    Unknown,
    #[error("too few arguments, or too many")]
    Arity,
    /// An argument has another sort than the one required, or a number test stands on what has no numbers.
    #[error("a term has another sort than it should")]
    IllSorted,
    /// The two sides of an equality lie under different roots.
    #[error("the sides of an equality can never be the same")]
    Incomparable,
    /// A number of a test has too many bits, or a range ends before it begins.
    #[error("a number is too large, or a range ends before it begins")]
    OutOfRange,
}
