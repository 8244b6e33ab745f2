use ios_lex::{IosReason, Word};
use query_lang::ScriptReason;
use sorted_logic::Text;

/// Why a text is refused. Reasons that several kinds of text have are one.
#[derive(Debug, Drop)]
pub enum Reason {
    /// A form that this release does not read.
    NotBuilt,
    /// The file has more bytes than are read; so many were counted.
    TooLong { given: u64 },
    /// No script goes on so.
    Syntax,
    /// A level too many is opened.
    Depth,
    /// A statement asks before any EXPLORE.
    NoExplore,
    /// The name is taken.
    Duplicate,
    /// No policy of this name is loaded.
    UnknownPolicy,
    /// A number does not fit its field, or a range ends before it begins.
    OutOfRange,
    /// DECIDE is not given eight numbers.
    Arity,
    /// The word stands for more than is modelled.
    Unmodelled(Word),
    BadAddress,
    /// No number, or one that is too great, where one is due.
    BadNumber,
    /// A name that has no number, or that a policy lacks.
    UnknownName,
    /// A mask that is not of ones and then zeros.
    BadMask,
    /// A list of the other kind, or a number of no kind.
    WrongKind,
    /// An entry's number that the list has already.
    DuplicateSequence,
    /// Words that no line goes on with, or too few.
    BadEntry,
    NextHopNotConnected,
    UnknownInterface,
    DuplicateStatic,
    DuplicatePool,
    UnknownPool,
    /// A banner without an end.
    Unclosed,
    /// The list is full.
    TooMany,
}

impl Reason {
    ghost use Rattle.std.specs.Prelude.{◌≡◌};
    ghost use Rattle.session.specs.Steps.{ios_reason, script_reason};

    /// The reason of a script's token.
    pub(crate) fn of_script(why: ScriptReason) -> Reason
        ensures { result ≡ script_reason why }
    {
        match why {
            ScriptReason::Syntax => Reason::Syntax,
            ScriptReason::Depth => Reason::Depth,
            ScriptReason::NoExplore => Reason::NoExplore,
        }
    }

    /// The reason of a configuration's line.
    pub(crate) fn of_ios(why: IosReason) -> Reason
        ensures { result ≡ ios_reason why }
    {
        match why {
            IosReason::Unmodelled(word) => Reason::Unmodelled(word),
            IosReason::BadAddress => Reason::BadAddress,
            IosReason::BadNumber => Reason::BadNumber,
            IosReason::UnknownName => Reason::UnknownName,
            IosReason::BadMask => Reason::BadMask,
            IosReason::WrongKind => Reason::WrongKind,
            IosReason::DuplicateSequence => Reason::DuplicateSequence,
            IosReason::BadEntry => Reason::BadEntry,
            IosReason::NextHopNotConnected => Reason::NextHopNotConnected,
            IosReason::UnknownInterface => Reason::UnknownInterface,
            IosReason::DuplicateStatic => Reason::DuplicateStatic,
            IosReason::DuplicatePool => Reason::DuplicatePool,
            IosReason::UnknownPool => Reason::UnknownPool,
            IosReason::Unclosed => Reason::Unclosed,
            IosReason::TooMany => Reason::TooMany,
        }
    }
}

/// What ended a run.
#[derive(Debug, Drop)]
pub enum Cause {
    /// The script was carried out to its end.
    Done,
    /// A text was refused, at this line of this file; line 0 is the file as a whole.
    Refused {
        file: Text,
        line: u64,
        reason: Reason,
    },
    /// The words of the command line are not of the stated form.
    BadWords,
    /// The read of this file failed.
    ReadFault {
        file: Text,
    },
    /// Standard output refused a write.
    WriteFault,
    NoMemory,
}

/// How a run ended.
#[derive(Debug, Drop)]
pub struct Ended {
    /// The exit status, from 0 to 5: the place of the cause in the list of causes.
    pub status: u8,
    pub cause: Cause,
}

impl Ended {
    ghost use Rattle.std.specs.Prelude.{◌≡◌};
    ghost use Rattle.session.specs.Run.{status_of};

    pub fn by(cause: Cause) -> Ended
        ensures cause { result.cause ≡ cause }
        ensures status { result.status ≡ status_of cause }
    {
        let status = match &cause {
            Cause::Done => 0,
            Cause::Refused { .. } => 1,
            Cause::BadWords => 2,
            Cause::ReadFault { .. } => 3,
            Cause::WriteFault => 4,
            Cause::NoMemory => 5,
        };
        Ended { status, cause }
    }
}
