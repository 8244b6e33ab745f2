use std::alloc::AllocError;

/// What is wrong with a derivation: its first fault.
#[derive(Debug, Drop)]
pub enum CheckFault {
    /// A literal of the step of this number, from 1, has a variable that the clauses do not have.
    VarRange { step: usize },
    /// A hint of the step of this number names no live clause or does not propagate; or the clause has a literal with
    /// its negative, at place 0; or the hints end before a conflict, at the place behind the last one. Places are from 1.
    Hint { step: usize, place: usize },
    /// A number in a deletion names no live clause: the number of the item, and the place in it, both from 1.
    NotLive { item: usize, place: usize },
    /// No step has the empty clause.
    NotEmpty,
    NoMemory,
}

impl From<AllocError> for CheckFault {
    ghost use Rattle.proof_check.specs.declared.fault.CheckFault.TheVariants.{NoMemory};
    ghost use Rattle.std.specs.Prelude.{◌≡◌};

    ghost from_gives = { λ _ fault. fault ≡ NoMemory };

    fn from(_: AllocError) -> CheckFault {
        CheckFault::NoMemory
    }
}
