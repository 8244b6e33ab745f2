ghost use Rattle.std.specs.Prelude.{◌≡◌};
ghost use Rattle.solver_run.specs.Causes.{status_of};

/// What ended a run.
#[derive(Clone, Copy, Debug, PartialEq, Eq)]
pub enum Cause {
    /// The certificate was accepted, or the nodes were counted.
    Done,
    /// A model was written.
    Satisfiable,
    /// That there is no model was written.
    Unsatisfiable,
    /// A text was refused.
    Refused,
    /// The words of the command line are not of the stated form.
    BadWords,
    /// The read of a file failed.
    ReadFault,
    /// The certificate was not stored.
    StoreFault,
    /// Standard output refused a write.
    WriteFault,
    NoMemory,
}

impl Cause {
    /// The exit status: 10 and 20 for answers, as solvers have them, and else from 0 to 5.
    pub fn status(self) -> u8
        ensures { result ≡ status_of self }
    {
        match self {
            Cause::Done => 0,
            Cause::Satisfiable => 10,
            Cause::Unsatisfiable => 20,
            Cause::Refused => 1,
            Cause::BadWords => 2,
            Cause::ReadFault => 3,
            Cause::StoreFault | Cause::WriteFault => 4,
            Cause::NoMemory => 5,
        }
    }
}
