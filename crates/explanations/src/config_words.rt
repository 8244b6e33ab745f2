ghost use Rattle.std.specs.Prelude.{IfOk};
ghost use Rattle.std.specs.String.{string_bytes};
ghost use Rattle.notes.specs.Reports.{EndsLine};

use crate::reasons::meaning_of;
use crate::refused::{Refusal, plain_error};
use ios_config::{ConfigFault, read_config};
use ios_lex::{Dotted, IosReason, address, byte, split_at_byte};
use ios_names::NameTable;
use notes::{Cut, Place, Report, found, split_at_line, words_of};
use query_tokens::last_line;
use session::Reason;
use std::alloc::{AllocError, Global};

/// How a front of a configuration is taken.
#[derive(Clone, Copy, Debug, PartialEq, Eq)]
enum Taken {
    /// Its last line is read, or ignored.
    Read,
    /// Its last line is no whole line, or none at all.
    BadEntry,
    /// Its last line is refused for another reason.
    Refused,
}

/// The text before a line that is refused.
#[derive(Clone, Copy)]
struct Front<'a> {
    head: &'a [u8],
    line: u64,
    /// Whether the line is refused for what the whole file lacks.
    lacks: bool,
}

impl Front<'_> {
    /// How the text with these parts behind it is taken.
    fn taken(&self, alloc: Global, first: &[u8], second: &[u8]) -> Result<Taken, AllocError> {
        let mut text = Vec::from_slice(alloc, self.head)?;
        text.extend_from_slice(first)?;
        text.extend_from_slice(second)?;
        let mut names = NameTable::new(alloc);
        match read_config(alloc, text.as_slice(), &mut names) {
            Ok(router) => {
                drop(router);
                Ok(Taken::Read)
            }
            Err(ConfigFault::At { line, reason }) => Ok(self.taken_for(line, &reason)),
            Err(ConfigFault::NoMemory) => Err(AllocError),
        }
    }

    fn taken_for(&self, line: u64, reason: &IosReason) -> Taken {
        if line != self.line {
            return Taken::Read;
        }
        match reason {
            IosReason::BadEntry => Taken::BadEntry,
            // What a front lacks, the file may have.
            IosReason::UnknownInterface | IosReason::NextHopNotConnected | IosReason::UnknownPool
                if !self.lacks => { Taken::Read }
            _ => Taken::Refused,
        }
    }
}

/// Why a line of a configuration is refused.
pub(crate) fn config_error(
    alloc: Global,
    refused: &Refusal<'_>,
    bytes: &[u8],
    line: &Place<'_>,
    report: Report,
) -> Result<String, AllocError>
    ensures { IfOk result (λ text. EndsLine (string_bytes text)) }
{
    let meaning = meaning_of(refused.reason);
    let Some((head, _)) = split_at_line(bytes, refused.line) else {
        return plain_error(refused, line, report);
    };
    if bytes.ends_with(b"\r") && last_line(bytes) == refused.line {
        return report.error(
            meaning.title,
            line,
            "the line ends with a carriage return and no line feed, which belongs to its last word: end the line",
        );
    }
    let front = Front {
        head,
        line: refused.line,
        lacks: matches!(
            refused.reason,
            Reason::UnknownInterface | Reason::NextHopNotConnected | Reason::UnknownPool
        ),
    };
    let Some(place) = meant_word(alloc, &front, refused.reason, line)? else {
        return plain_error(refused, line, report);
    };
    match cure(alloc, &front, refused.reason, &place)? {
        Some(help) => report.error(meaning.title, &place, help.as_str()),
        None => report.error(meaning.title, &place, meaning.help),
    }
}

/// The word of the line that is meant, where one is found.
fn meant_word<'a>(
    alloc: Global,
    front: &Front<'_>,
    reason: &Reason,
    line: &Place<'a>,
) -> Result<Option<Place<'a>>, AllocError> {
    if let Reason::Unmodelled(words) = reason {
        let place = found(line.file, line.behind, 1, words.bytes());
        return Ok(place.map(|place| Place {
            line: line.line,
            ..place
        }));
    }
    let words = words_of(alloc, *line, Cut::Blanks)?;
    first_refused(alloc, front, words.as_slice())
}

/// The first word with which the line is refused; else the word behind the longest front that is read, from the third on,
/// since most lines of two words are ignored.
fn first_refused<'a>(
    alloc: Global,
    front: &Front<'_>,
    words: &[Place<'a>],
) -> Result<Option<Place<'a>>, AllocError> {
    let mut behind_read = None;
    let mut was_read = false;
    for (i, place) in words.iter().enumerate() {
        if was_read && i >= 2 {
            behind_read = Some(*place);
        }
        match front.taken(alloc, place.before, place.word)? {
            Taken::Refused => return Ok(Some(*place)),
            Taken::Read => {
                was_read = true;
                behind_read = None;
            }
            Taken::BadEntry => was_read = false,
        }
    }
    Ok(behind_read)
}

/// The likeliest cure of a word.
fn cure(
    alloc: Global,
    front: &Front<'_>,
    reason: &Reason,
    place: &Place<'_>,
) -> Result<Option<String>, AllocError> {
    match reason {
        Reason::UnknownName => name_cure(alloc, front, place),
        Reason::BadAddress => prefix_cure(alloc, place.word),
        _ => Ok(None),
    }
}

/// Names that other programs have for ports and messages, each with that of a router, or the number.
const NAMES: [(&str, &str); 14] = [
    ("http", "www"),
    ("https", "443"),
    ("ssh", "22"),
    ("dns", "domain"),
    ("mail", "smtp"),
    ("imap", "143"),
    ("imaps", "993"),
    ("ldap", "389"),
    ("mysql", "3306"),
    ("rdp", "3389"),
    ("sip", "5060"),
    ("dhcp", "bootps"),
    ("ping", "echo"),
    ("traps", "snmptrap"),
];

/// The name of a router for a name of other programs, where a line goes on with it.
fn name_cure(
    alloc: Global,
    front: &Front<'_>,
    place: &Place<'_>,
) -> Result<Option<String>, AllocError> {
    for (other, name) in &NAMES {
        if place.word.eq_ignore_ascii_case(other.as_bytes())
            && front.taken(alloc, place.before, name.as_bytes())? != Taken::Refused
        {
            return Ok(Some(format!(in alloc; "write {name} for {other}")?));
        }
    }
    Ok(None)
}

/// A prefix with a slash, written with a wildcard.
fn prefix_cure(alloc: Global, word: &[u8]) -> Result<Option<String>, AllocError> {
    let Some((network, len)) = split_at_byte(word, b'/') else {
        return Ok(None);
    };
    let (Some(network), Some(len)) = (address(network), byte(len)) else {
        return Ok(None);
    };
    if len > 32 {
        return Ok(None);
    }
    let network = Dotted(network);
    let wildcard = Dotted(u32::MAX.checked_shr(u32::from(len)).unwrap_or(0));
    Ok(Some(format!(in alloc; "a wildcard stands behind the address: {network} {wildcard}")?))
}
