ghost use Rattle.std.specs.Prelude.{IfOk};
ghost use Rattle.std.specs.String.{string_bytes};
ghost use Rattle.notes.specs.Reports.{EndsLine};

use crate::reasons::meaning_of;
use crate::refused::Refusal;
use notes::{
    Cut, MOST_WORDS, Place, Report, begins_marked, is_near, is_other_case, split_at_line, words_of,
};
use query_lang::{ScriptFault, read_script};
use session::Reason;
use std::alloc::{AllocError, Global};

/// The keywords that a word may have been meant for.
const KEYWORDS: [&str; 39] = [
    "EXPLORE", "SHOW", "LOAD", "DECIDE", "AND", "OR", "NOT", "IN", "TO", "AS", "IOS", "ONE",
    "IMPLIES", "IFF", "UNDER", "INCLUDE", "TRUE", "FALSE", "FORALL", "EXISTS", "ALL", "FIRST",
    "FULL", "UP", "IS", "POSSIBLE", "COMPARE", "GENERATE", "LINK", "PATH", "WITHIN", "AUDIT",
    "CORE", "WHERE", "VOCAB", "POLICY", "IPTABLES", "REALIZED", "BOUNDS",
];

/// The text before a line that is refused.
#[derive(Clone, Copy)]
struct Front<'a> {
    head: &'a [u8],
    line: u64,
}

impl Front<'_> {
    /// Whether the text with these parts behind it is refused at the line or before it. A text that ends too early is
    /// refused at a later one, since line feeds are put behind it.
    fn is_refused(&self, alloc: Global, parts: &[&[u8]]) -> Result<bool, AllocError> {
        let mut text = Vec::from_slice(alloc, self.head)?;
        for part in parts {
            text.extend_from_slice(part)?;
        }
        text.extend_from_slice(b"\n\n")?;
        match read_script(alloc, text.as_slice()) {
            Ok(script) => {
                drop(script);
                Ok(false)
            }
            Err(ScriptFault::At { line, .. }) => Ok(line <= self.line),
            Err(ScriptFault::NoMemory) => Err(AllocError),
        }
    }
}

/// Why a script is refused that no reader takes.
pub(crate) fn script_error(
    alloc: Global,
    refused: &Refusal<'_>,
    bytes: &[u8],
    line: &Place<'_>,
    report: Report,
) -> Result<String, AllocError>
    ensures { IfOk result (λ text. EndsLine (string_bytes text)) }
{
    let meaning = meaning_of(refused.reason);
    if begins_marked(bytes) {
        return report.error(
            "the file begins with a byte-order mark, with which no script begins",
            line,
            "save it as UTF-8 without a byte-order mark",
        );
    }
    let Some((head, _)) = split_at_line(bytes, refused.line) else {
        return report.error(meaning.title, line, meaning.help);
    };
    let front = Front {
        head,
        line: refused.line,
    };
    let words = words_of(alloc, *line, Cut::Tokens)?;
    match meant_token(alloc, &front, words.as_slice())? {
        Some(place) => token_error(alloc, refused, &front, &place, report),
        None if words.len() < MOST_WORDS => end_error(alloc, &front, line, report),
        None => report.error(meaning.title, line, meaning.help),
    }
}

/// A token with which no script goes on.
fn token_error(
    alloc: Global,
    refused: &Refusal<'_>,
    front: &Front<'_>,
    place: &Place<'_>,
    report: Report,
) -> Result<String, AllocError>
    ensures { IfOk result (λ text. EndsLine (string_bytes text)) }
{
    let meaning = meaning_of(refused.reason);
    if let Reason::Syntax = refused.reason {
        if let Some(help) = cure(alloc, front, place)? {
            return report.error(meaning.title, place, help.as_str());
        }
    }
    report.error(meaning.title, place, meaning.help)
}

/// The first of these tokens with which the text before it is refused.
fn meant_token<'a>(
    alloc: Global,
    front: &Front<'_>,
    words: &[Place<'a>],
) -> Result<Option<Place<'a>>, AllocError> {
    for place in words {
        if front.is_refused(alloc, &[place.before, place.word])? {
            return Ok(Some(*place));
        }
    }
    Ok(None)
}

/// A script that ends too early.
fn end_error(
    alloc: Global,
    front: &Front<'_>,
    line: &Place<'_>,
    report: Report,
) -> Result<String, AllocError>
    ensures { IfOk result (λ text. EndsLine (string_bytes text)) }
{
    let title = "the file ends before its last statement does";
    if front.is_refused(alloc, &[line.behind, b";"])? {
        report.error(title, line, "finish the statement, and put `;` behind it")
    } else {
        report.error(title, line, "a `;` is missing at the end")
    }
}

/// The likeliest cure of a token with which no script goes on.
fn cure(alloc: Global, front: &Front<'_>, place: &Place<'_>) -> Result<Option<String>, AllocError> {
    let word = place.word;
    if word == b"EXPLORE".as_slice() && !place.before.is_empty() {
        let help = "an EXPLORE begins on a line of its own, behind a `;`";
        return Ok(Some(String::from_str(alloc, help)?));
    }
    if !front.is_refused(alloc, &[place.before, b";", word])? {
        let help = "a `;` is missing before it, behind the statement that ends there";
        return Ok(Some(String::from_str(alloc, help)?));
    }
    if let Some(keyword) = meant_keyword(alloc, front, place)? {
        return Ok(Some(format!(in alloc;
            "{keyword} is probably meant; keywords are in capitals"
        )?));
    }
    match byte_cure(word) {
        Some(help) => Ok(Some(String::from_str(alloc, help)?)),
        None => Ok(None),
    }
}

/// The keyword that the word is but for capitals, or almost is where a script goes on with it.
fn meant_keyword(
    alloc: Global,
    front: &Front<'_>,
    place: &Place<'_>,
) -> Result<Option<&'static str>, AllocError> {
    for keyword in &KEYWORDS {
        if is_other_case(place.word, keyword) {
            return Ok(Some(*keyword));
        }
        if is_near(alloc, place.word, keyword)?
            && !front.is_refused(alloc, &[place.before, keyword.as_bytes()])?
        {
            return Ok(Some(*keyword));
        }
    }
    Ok(None)
}

/// The cure of what begins with no letter.
fn byte_cure(word: &[u8]) -> Option<&'static str> {
    match word.first()? {
        b'"' => Some(
            "a quoted text ends with `\"` on the line on which it begins, or a name is due without quotes",
        ),
        128.. => Some("only ASCII is read: quotes are `\"`, and a dash is `-`"),
        _ => None,
    }
}
