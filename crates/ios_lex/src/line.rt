ghost use Rattle.std.specs.Prelude.{◌≡◌, ◌⊎◌, ◌+◌, ◌<◌, ◌≤◌, ◌^◌, ◌∷◌, [], ◌++◌, ℕ, List, length, map, true, IfOk, IfErr, IfSome, IfNone};
ghost use Rattle.ios_lex.specs.RawLines.{raw_lines};
ghost use Rattle.ios_lex.specs.Banner.{IsNowhere, EndsWith, IsOpen};
ghost use Rattle.ios_lex.specs.Lines as specs;
ghost use Rattle.ios_lex.specs.Lines.{Reading, AreLines, IsUnclosed, IsPart, reading, outside, inside};
ghost use Rattle.ios_lex.specs.LineReadings.{reading_of, IsFault};

use crate::banner::{delimiter_len, occurs, opened};
use crate::raw_lines::first_line;
use crate::word::Word;
use crate::words::{is_gap, words_in};
use std::alloc::{AllocError, Global};

/// A line of a configuration.
#[derive(Debug, Drop)]
pub struct Line {
    /// The number of the line, from 1.
    pub number: u64,
    /// It begins with a blank or a tab.
    pub indented: bool,
    /// It is of a banner: its opening line, its closing one or one between them.
    pub banner: bool,
    pub words: Vec<Word>,
}

/// Why a configuration has no lines.
#[derive(Debug, Drop)]
pub enum LexFault {
    /// The banner that this line opens has no end.
    Unclosed { line: u64 },
    NoMemory,
}

impl From<AllocError> for LexFault {
    ghost use Rattle.ios_lex.specs.declared.line.LexFault.TheVariants.{NoMemory};

    ghost from_gives = { λ _ fault. fault ≡ NoMemory };

    fn from(_: AllocError) -> LexFault {
        LexFault::NoMemory
    }
}

/// The lines of a configuration, without the empty ones and the comments outside its banners.
pub fn lines(alloc: Global, bytes: &[u8]) -> Result<Vec<Line>, LexFault>
    ensures read { IfOk result
        (λ lines. AreLines 1 (raw_lines bytes.now) (map reading_of lines.items)) }
    ensures unclosed { IfErr result (IsFault bytes.now) }
{
    let mut lines = Vec::new(alloc);
    let mut number = 1;
    let mut rest = bytes;
    while let Some((line, others)) = first_line(rest) {
        let Some((next, left)) = add_part(alloc, &mut lines, number, line, others)? else {
            return Err(LexFault::Unclosed { line: number });
        };
        number = next;
        rest = left;
    }
    Ok(lines)
}

/// Adds the line, or the banner that it opens, and gives the next number and the bytes behind. None where the banner
/// has no end.
fn add_part<'a>(
    alloc: Global,
    lines: &mut Vec<Line>,
    number: u64,
    line: &[u8],
    others: &'a [u8],
) -> Result<Option<(u64, &'a [u8])>, AllocError>
    requires fits { number + length others.now < 2 ^ 63 }
    ensures part { IfOk result (λ end. IfSome end (λ at. (gives : List Reading)
        × IsPart number (line.now ∷ raw_lines others.now) gives at.0 (raw_lines at.1.now)
        × (map reading_of lines.new.items ≡ map reading_of lines.old.items ++ gives))) }
    ensures shorter { IfOk result
        (λ end. IfSome end (λ at. at.0 + length at.1.now ≤ number + 1 + length others.now)) }
    ensures shorter_text { IfOk result
        (λ end. IfSome end (λ at. length at.1.now ≤ length others.now)) }
    ensures open_ended { IfOk result (λ end. IfNone end (IsOpen line.now (raw_lines others.now))) }
{
    let Some(text) = opened(line) else {
        add_plain(alloc, lines, number, line)?;
        return Ok(Some((number + 1, others)));
    };
    add_line(alloc, lines, number, line)?;
    let len = delimiter_len(text);
    if occurs(&text[len..], &text[..len]) {
        return Ok(Some((number + 1, others)));
    }
    add_body(alloc, lines, number + 1, &text[..len], others)
}

/// Adds the lines up to the first in which the delimiter occurs, and gives the next number and the bytes behind. None
/// where it occurs in none.
fn add_body<'a>(
    alloc: Global,
    lines: &mut Vec<Line>,
    first: u64,
    delimiter: &[u8],
    text: &'a [u8],
) -> Result<Option<(u64, &'a [u8])>, AllocError>
    requires fits { first + length text.now ≤ 2 ^ 63 }
    requires some { 0 < length delimiter.now }
    ensures ends { IfOk result (λ end. IfSome end (λ at. (body : List (List ℕ))
        × (raw_lines text.now ≡ body ++ raw_lines at.1.now)
        × EndsWith delimiter.now body
        × (at.0 ≡ first + length body)
        × (map reading_of lines.new.items ≡ map reading_of lines.old.items ++ inside first body))) }
    ensures shorter { IfOk result
        (λ end. IfSome end (λ at. at.0 + length at.1.now ≤ first + length text.now)) }
    ensures shorter_text { IfOk result
        (λ end. IfSome end (λ at. length at.1.now ≤ length text.now)) }
    ensures nowhere { IfOk result
        (λ end. IfNone end (IsNowhere delimiter.now (raw_lines text.now))) }
{
    let mut number = first;
    let mut rest = text;
    while let Some((line, others)) = first_line(rest) {
        add_line(alloc, lines, number, line)?;
        number += 1;
        rest = others;
        if occurs(line, delimiter) {
            return Ok(Some((number, rest)));
        }
    }
    Ok(None)
}

/// Adds a line outside banners, unless it is empty or a comment.
fn add_plain(
    alloc: Global,
    lines: &mut Vec<Line>,
    number: u64,
    line: &[u8],
) -> Result<(), AllocError>
    ensures { IfOk result (λ _. map reading_of lines.new.items
        ≡ map reading_of lines.old.items ++ outside number line.now) }
{
    let words = words_in(alloc, line)?;
    if !is_skipped(words.as_slice()) {
        lines.push(Line {
            number,
            indented: is_indented(line),
            banner: false,
            words,
        })?;
    }
    Ok(())
}

/// Adds a line of a banner.
fn add_line(
    alloc: Global,
    lines: &mut Vec<Line>,
    number: u64,
    line: &[u8],
) -> Result<(), AllocError>
    ensures { IfOk result (λ _. map reading_of lines.new.items
        ≡ map reading_of lines.old.items ++ reading number true line.now ∷ []) }
{
    let words = words_in(alloc, line)?;
    lines.push(Line {
        number,
        indented: is_indented(line),
        banner: true,
        words,
    })?;
    Ok(())
}

/// Whether the line begins with a blank or a tab.
fn is_indented(line: &[u8]) -> bool
    ensures { result ≡ specs.is_indented line.now }
{
    !line.is_empty() && is_gap(line[0])
}

/// Whether these are the words of an empty line or of a comment.
fn is_skipped(words: &[Word]) -> bool
    ensures { result ≡ specs.is_skipped words.now }
{
    match words.first() {
        Some(word) => begins_comment(word.bytes()),
        None => true,
    }
}

/// Whether the word begins with an exclamation mark.
fn begins_comment(word: &[u8]) -> bool
    ensures { result ≡ specs.begins_comment word.now }
{
    !word.is_empty() && word[0] == b'!'
}

/// Bytes are read as lines, or have a line whose banner is not closed, and not both; and in one way.
pub fn one_line_reading()
    ensures some { (bytes : List ℕ)
        → ((answer : List Reading) × AreLines 1 (raw_lines bytes) answer)
        ⊎ ((line : ℕ) × IsUnclosed 1 (raw_lines bytes) line) }
    ensures not_both { (bytes : List ℕ) (answer : List Reading) (line : ℕ)
        → AreLines 1 (raw_lines bytes) answer → IsUnclosed 1 (raw_lines bytes) line → ⊥ }
    ensures same_lines { (bytes : List ℕ) (answer other : List Reading)
        → AreLines 1 (raw_lines bytes) answer → AreLines 1 (raw_lines bytes) other
        → answer ≡ other }
    ensures same_fault { (bytes : List ℕ) (line other : ℕ) → IsUnclosed 1 (raw_lines bytes) line
        → IsUnclosed 1 (raw_lines bytes) other → line ≡ other }
{}
