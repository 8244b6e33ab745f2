ghost use Rattle.std.specs.Prelude.{◌≡◌};

use std::alloc::AllocError;
use thiserror::Error;

/// Why no text goes on with a word.
#[derive(Clone, Copy, Debug, PartialEq, Eq, Error)]
pub enum DimacsReason {
    /// No text has such a word there, whatever its head says.
    #[error("no text goes on so")]
    Syntax,
    /// There would be more clauses than the head says.
    #[error("more clauses than the head says")]
    TooMany,
    /// The variable is above those of the head.
    #[error("a variable above those of the head")]
    Variable,
    /// The text ends before its clauses do.
    #[error("fewer clauses than the head says")]
    Incomplete,
}

/// Why bytes were not read as the text of a formula.
#[derive(Clone, Copy, Debug, PartialEq, Eq, Error)]
pub enum DimacsFault {
    /// The line of the first word with which no text goes on, from 1; or the number behind the last line, where words
    /// are missing.
    #[error("line {line}: {reason}")]
    At { line: u64, reason: DimacsReason },
    #[error("no memory")]
    NoMemory,
}

impl From<AllocError> for DimacsFault {
    ghost use Rattle.dimacs.specs.declared.fault.DimacsFault.TheVariants.{NoMemory};

    ghost from_gives = { λ _ fault. fault ≡ NoMemory };

    fn from(_: AllocError) -> DimacsFault {
        DimacsFault::NoMemory
    }
}
