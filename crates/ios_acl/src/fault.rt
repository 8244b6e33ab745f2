ghost use Rattle.std.specs.Prelude.{◌≡◌, ◌≤◌, length, IfOk};
ghost use Rattle.ios_lex.specs.Refusal.{is_among as is_among_lem};
ghost use Rattle.ios_lex.specs.declared.reason.IosReason.TheVariants as reasons;
ghost use Rattle.ios_acl.specs.Faults as faults;
ghost use Rattle.ios_acl.specs.Faults.{IsFor};
ghost use Rattle.ios_acl.specs.Refusal as specs;

use ios_lex::{IosReason, Stop, Word, is_among, stop_reason, table_at};
use std::alloc::{AllocError, Global};

/// Why a line is not read into a list.
#[derive(Debug, Drop)]
pub enum AclFault {
    Refused(IosReason),
    NoMemory,
}

impl From<AllocError> for AclFault {
    ghost use Rattle.ios_acl.specs.declared.fault.AclFault.TheVariants.{NoMemory};

    ghost from_gives = { λ _ fault. fault ≡ NoMemory };

    fn from(_: AllocError) -> AclFault {
        AclFault::NoMemory
    }
}

/// The words that narrow what an entry matches in a way that is not modelled.
const UNMODELLED: [&str; 18] = [
    "evaluate",
    "reflect",
    "time-range",
    "object-group",
    "fragments",
    "dscp",
    "tos",
    "precedence",
    "option",
    "ttl",
    "ack",
    "fin",
    "psh",
    "rst",
    "syn",
    "urg",
    "match-all",
    "match-any",
];

/// The words that are not modelled as the first of a line.
const UNMODELLED_FIRST: [&str; 2] = ["evaluate", "dynamic"];

/// The reason of a stop in the words behind the number of a line.
pub fn line_reason(
    alloc: Global,
    number: Option<u32>,
    words: &[Word],
    stop: Stop,
) -> Result<IosReason, AllocError>
    requires { stop.left ≤ length words.now }
    ensures { IfOk result (λ why. why ≡ faults.line_reason number words.now stop) }
{
    let place = words.len() - stop.left;
    let table = table_at(from_word(number), &UNMODELLED_FIRST, &UNMODELLED, place);
    stop_reason(alloc, words, stop, table, IosReason::BadNumber)
}

/// The place from which on words of a line of this number, or of none, are refused as all others are.
fn from_word(number: Option<u32>) -> usize
    ensures { result ≡ specs.from_word number }
{
    if number.is_some() { 0 } else { 1 }
}

/// Whether the word narrows what an entry matches in a way that is not modelled.
pub fn is_unmodelled(word: &Word) -> bool
    ensures { result ≡ is_among_lem specs.unmodelled word.now }
{
    is_among(word, &UNMODELLED)
}

/// The fault of a word that stands for more than is modelled.
pub fn unmodelled(alloc: Global, word: &Word) -> AclFault
    ensures { IsFor (reasons.Unmodelled word.now) result }
{
    match ios_lex::unmodelled(alloc, word) {
        Ok(why) => AclFault::Refused(why),
        Err(_) => AclFault::NoMemory,
    }
}
