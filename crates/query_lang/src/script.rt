use crate::formula::Named;
use crate::literal::{Literal, NamedTest, Path};
use sorted_logic::Text;
use sqlite_items::Items;
use std::alloc::AllocError;

/// A script.
#[derive(Debug, Drop)]
pub struct Script {
    pub statements: Items<Statement>,
}

/// A statement, and the line of its first word, from 1.
#[derive(Debug, Drop)]
pub struct Statement {
    pub line: u64,
    pub kind: Kind,
}

/// What a statement says.
#[derive(Debug, Drop)]
pub enum Kind {
    LoadVocab(Text),
    LoadPolicy(Text),
    LoadIos {
        file: Text,
        name: Text,
    },
    LoadIptables {
        file: Text,
        name: Text,
    },
    Explore(Explore),
    IsPossible,
    ShowOne,
    /// How many scenarios, from 1 to 1,000,000.
    ShowFirst(u64),
    ShowAll,
    ShowFull,
    /// The greatest number of elements of an unbounded sort, from 1 to 100.
    ShowUpTo(u64),
    ShowRealized,
    ShowUnrealized,
    ShowBounds,
    ShowProof,
    Compare(Path, Path),
    /// The packet's numbers in order: one or more, as they are written.
    Decide {
        list: Path,
        packet: Items<Literal>,
    },
    /// `n` from 1 to 5,000, `seed` below 2^31.
    Generate {
        n: u64,
        seed: u64,
        name: Text,
    },
    Link {
        from: Text,
        from_interface: Text,
        to: Text,
        to_interface: Text,
    },
    /// `within` is the greatest number of hops, from 1 to 8.
    Paths {
        from: Text,
        from_interface: Text,
        to: Text,
        to_interface: Text,
        within: u64,
    },
    Audit(Path),
    /// `tests` has one test or more.
    Core {
        list: Path,
        verdict: Text,
        tests: Items<NamedTest>,
    },
}

/// A question: declared variables with their sorts, a formula, the vocabularies and policies that it is asked under, and
/// the atoms that are shown beside.
#[derive(Debug, Drop)]
pub struct Explore {
    pub vars: Items<(Text, Text)>,
    pub formula: Named,
    pub under: Items<Text>,
    pub include: Items<Named>,
}

/// Why a script is refused.
#[derive(Clone, Copy, Debug, PartialEq, Eq)]
pub enum ScriptReason {
    /// No script goes on so.
    Syntax,
    /// The token would open a level too many.
    Depth,
    /// The statement asks before any EXPLORE.
    NoExplore,
}

/// Why a script is not read.
#[derive(Clone, Copy, Debug, PartialEq, Eq)]
pub enum ScriptFault {
    /// The line of the first token that is refused, from 1; at the end of the file, that of its last byte.
    At { line: u64, reason: ScriptReason },
    NoMemory,
}

impl From<AllocError> for ScriptFault {
    ghost use Rattle.std.specs.Prelude.{◌≡◌};
    ghost use Rattle.query_lang.specs.declared.script.ScriptFault.TheVariants as fault;

    ghost from_gives = { λ _ given. given ≡ fault.NoMemory };

    fn from(_: AllocError) -> ScriptFault {
        ScriptFault::NoMemory
    }
}
