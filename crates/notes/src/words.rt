ghost use Rattle.std.specs.Prelude.{◌≤◌, length};

use crate::place::Place;
use std::alloc::{AllocError, Global};

/// How many words of a line are looked at.
pub const MOST_WORDS: usize = 64;

/// What the words of a line are.
#[derive(Clone, Copy, Debug, PartialEq, Eq)]
pub enum Cut {
    /// What stands between blanks.
    Blanks,
    /// The tokens of a script.
    Tokens,
}

impl Cut {
    /// How many bytes the first word has. None where the text begins with none.
    fn word_len(self, text: &[u8]) -> usize
        ensures { result ≤ length text.now }
    {
        match self {
            Cut::Blanks => run_len(text, is_no_blank),
            Cut::Tokens => token_len(text),
        }
    }
}

fn is_blank(byte: u8) -> bool {
    matches!(byte, b' ' | b'\t' | b'\r')
}

fn is_no_blank(byte: u8) -> bool {
    !matches!(byte, b' ' | b'\t')
}

fn is_word_byte(byte: u8) -> bool {
    byte.is_ascii_alphanumeric() || byte == b'_' || byte == b'-'
}

fn is_within_quotes(byte: u8) -> bool {
    byte != b'"'
}

/// How many bytes stand before the first that is not of this kind.
fn run_len<F: Fn(u8) -> bool>(text: &[u8], is_of_kind: F) -> usize
    requires { F.IsAlwaysCallable is_of_kind }
    ensures { result ≤ length text.now }
{
    for (i, byte) in text.iter().enumerate() {
        if !is_of_kind(*byte) {
            return i;
        }
    }
    text.len()
}

/// How many bytes the token has with which the text begins. None where a comment begins.
fn token_len(text: &[u8]) -> usize
    ensures { result ≤ length text.now }
{
    match text {
        [] | [b'-', b'-', ..] => 0,
        [b'<', b'r', b'e', b'q', b'>', ..] => 5,
        [b'"', behind @ ..] => {
            let inner = run_len(behind, is_within_quotes);
            if inner < behind.len() {
                inner + 2
            } else {
                inner + 1
            }
        }
        [first, ..] => {
            if is_word_byte(*first) && *first != b'-' {
                run_len(text, is_word_byte)
            } else {
                1
            }
        }
    }
}

/// The words of a line, one behind the other: the first 64, each as the place of it.
pub fn words_of<'a>(
    alloc: Global,
    line: Place<'a>,
    cut: Cut,
) -> Result<Vec<Place<'a>>, AllocError> {
    let mut words = Vec::new(alloc);
    let mut end = 0;
    for _ in 0..MOST_WORDS {
        let (_, rest) = line.behind.split_at(end);
        let gap = run_len(rest, is_blank);
        let (_, text) = rest.split_at(gap);
        let len = cut.word_len(text);
        if len == 0 {
            break;
        }
        words.push(line.word_at(end + gap, len))?;
        end += gap + len;
    }
    Ok(words)
}

/// Whether a text begins with a byte-order mark.
pub fn begins_marked(bytes: &[u8]) -> bool {
    bytes.starts_with(b"\xEF\xBB\xBF")
}
