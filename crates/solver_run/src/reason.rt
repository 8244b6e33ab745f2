ghost use Rattle.std.specs.Prelude.{◌≡◌};
ghost use Rattle.solver_run.specs.RunLines.{check_reason, dimacs_reason};

use dimacs::DimacsReason;
use proof_check::CheckFault;

/// Why a text is refused.
#[derive(Clone, Copy, Debug, PartialEq, Eq)]
pub enum Reason {
    /// The file has more bytes than are read.
    TooLong,
    /// No text of clauses goes on so.
    Syntax,
    /// There are more clauses than the head says.
    TooMany,
    /// A variable is above those of the head.
    Variable,
    /// There are fewer clauses than the head says.
    Incomplete,
    /// No certificate has this line there.
    Malformed,
    /// The certificate is of a version that is not read.
    Version,
    /// The clause of this step has a variable that the clauses do not have. Steps, items and places are from 1.
    StepVariable { step: usize },
    /// This hint of this step does not show it; 0 is the clause itself, which has a literal with its negative.
    Hint { step: usize, place: usize },
    /// This number of this item, a deletion, names no clause.
    Deletion { item: usize, place: usize },
    /// No step has the empty clause.
    NotEmpty,
    /// No configuration goes on so.
    NoConfiguration,
    /// No access list of the configuration has entries, or more than one has.
    NotOneList,
}

/// The reason of a text in DIMACS form.
pub fn dimacs_reason(why: DimacsReason) -> Reason
    ensures { result ≡ dimacs_reason why }
{
    match why {
        DimacsReason::Syntax => Reason::Syntax,
        DimacsReason::TooMany => Reason::TooMany,
        DimacsReason::Variable => Reason::Variable,
        DimacsReason::Incomplete => Reason::Incomplete,
    }
}

/// The reason of a derivation that is not accepted, unless memory was wanting.
pub fn check_reason(fault: CheckFault) -> Option<Reason>
    ensures { result ≡ check_reason fault }
{
    match fault {
        CheckFault::VarRange { step } => Some(Reason::StepVariable { step }),
        CheckFault::Hint { step, place } => Some(Reason::Hint { step, place }),
        CheckFault::NotLive { item, place } => Some(Reason::Deletion { item, place }),
        CheckFault::NotEmpty => Some(Reason::NotEmpty),
        CheckFault::NoMemory => None,
    }
}
