ghost use Rattle.std.specs.Prelude.{◌≡◌, ◌++◌, IfSome, IfNone};
ghost use Rattle.ios_lex.specs.Phrases.{Words};
ghost use Rattle.ios_lex.specs.Refusal.{texts};
ghost use Rattle.ios_config.specs.Commands.{IsUnmodelled, opening_words};
ghost use Rattle.ios_config.specs.declared.command.Command.{Command as CommandOf};

use ios_lex::{Word, behind, first_opening};

/// The commands that are modelled.
#[derive(Clone, Copy, Debug, PartialEq, Eq)]
pub(crate) enum Command {
    /// `access-list`
    NumberedList,
    /// `ip access-list`
    ListBlock,
    /// `interface`
    InterfaceBlock,
    /// `ip route`
    Route,
    /// `ip nat pool`
    Pool,
    /// `ip nat inside source`
    Source,
}

const COMMANDS: [Command; 6] = [
    Command::NumberedList,
    Command::ListBlock,
    Command::InterfaceBlock,
    Command::Route,
    Command::Pool,
    Command::Source,
];

const NUMBERED_LIST: [&str; 1] = ["access-list"];

const LIST_BLOCK: [&str; 2] = ["ip", "access-list"];

const INTERFACE_BLOCK: [&str; 1] = ["interface"];

const ROUTE: [&str; 2] = ["ip", "route"];

const POOL: [&str; 3] = ["ip", "nat", "pool"];

const SOURCE: [&str; 4] = ["ip", "nat", "inside", "source"];

/// The words of lines that change forwarding in a way that is not modelled.
const UNMODELLED: [&[&str]; 6] = [
    &["router"],
    &["ip", "vrf"],
    &["vrf"],
    &["no", "ip", "routing"],
    &["ip", "nat", "outside", "source"],
    &["ip", "nat", "inside", "destination"],
];

impl Command {
    /// The words that such a line begins with.
    fn opening(self) -> &'static [&'static str]
        ensures { texts result.now ≡ opening_words self }
    {
        match self {
            Command::NumberedList => &NUMBERED_LIST,
            Command::ListBlock => &LIST_BLOCK,
            Command::InterfaceBlock => &INTERFACE_BLOCK,
            Command::Route => &ROUTE,
            Command::Pool => &POOL,
            Command::Source => &SOURCE,
        }
    }
}

/// The command of the line, and the words behind its opening. None where it is none that is modelled.
pub(crate) fn opened_command(words: &[Word]) -> Option<(Command, &[Word])>
    ensures found { IfSome result (λ opened. words.now ≡ opening_words opened.0 ++ opened.1.now) }
    ensures none { IfNone result
        ((command : CommandOf) (rest : Words) → words.now ≡ opening_words command ++ rest → ⊥) }
{
    for command in COMMANDS {
        if let Some(rest) = behind(words, command.opening()) {
            return Some((command, rest));
        }
    }
    None
}

/// The words with which the line begins, where it is for these not modelled.
pub(crate) fn unmodelled_opening(words: &[Word]) -> Option<&'static [&'static str]>
    ensures found { IfSome result (λ opening. IsUnmodelled words.now (texts opening.now)) }
    ensures none { IfNone result ((opening : Words) → IsUnmodelled words.now opening → ⊥) }
{
    let opening = first_opening(words, &UNMODELLED)?;
    Some(opening)
}
