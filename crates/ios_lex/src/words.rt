ghost use Rattle.std.specs.Prelude.{◌≡◌, ◌<◌, ◌≤◌, ◌∷◌, [], ◌++◌, ℕ, List, length, not, IfOk};
ghost use Rattle.std.specs.List.{filter, prefix_len, before_first};
ghost use Rattle.ios_lex.specs.Words.{is_gap, is_some_text, words_of};
ghost use Rattle.ios_lex.specs.Words as specs;

use crate::word::Word;
use std::alloc::{AllocError, Global};

/// Whether the byte is a blank or a tab.
pub fn is_gap(byte: u8) -> bool
    ensures { result ≡ specs.is_gap byte }
{
    byte == b' ' || byte == b'\t'
}

/// The words of a line.
pub fn words_in(alloc: Global, line: &[u8]) -> Result<Vec<Word>, AllocError>
    ensures { IfOk result (λ words. words.items ≡ words_of line.now) }
{
    let mut words = Vec::new(alloc);
    let mut rest = line;
    while !rest.is_empty() {
        let (part, others) = next_part(rest);
        push_word(alloc, &mut words, part)?;
        rest = others;
    }
    Ok(words)
}

/// The bytes before the first gap.
pub fn first_part(line: &[u8]) -> &[u8]
    ensures { result.now ≡ before_first specs.is_gap line.now }
{
    &line[..word_len(line)]
}

/// The line from its next word on.
pub fn from_next_word(line: &[u8]) -> &[u8]
    ensures { result.now ≡ specs.from_next_word line.now }
{
    let behind = &line[word_len(line)..];
    &behind[gap_len(behind)..]
}

/// The bytes before the first gap, and those after its first byte.
fn next_part(text: &[u8]) -> (&[u8], &[u8])
    requires { 0 < length text.now }
    ensures words { words_of text.now
        ≡ filter is_some_text (result.0.now ∷ []) ++ words_of result.1.now }
    ensures shorter { length result.1.now < length text.now }
{
    let end = word_len(text);
    if end < text.len() {
        (&text[..end], &text[end + 1..])
    } else {
        (text, &text[end..])
    }
}

/// Adds the word, unless it is empty.
fn push_word(alloc: Global, words: &mut Vec<Word>, part: &[u8]) -> Result<(), AllocError>
    ensures { IfOk result
        (λ _. words.new.items ≡ words.old.items ++ filter is_some_text (part.now ∷ [])) }
{
    if !part.is_empty() {
        words.push(Word::of(alloc, part)?)?;
    }
    Ok(())
}

/// How many bytes stand before the first gap.
fn word_len(text: &[u8]) -> usize
    ensures within { result ≤ length text.now }
    ensures value { result ≡ prefix_len (λ b. not (specs.is_gap b)) text.now }
{
    for (i, b) in text.iter().enumerate() {
        if is_gap(*b) {
            return i;
        }
    }
    text.len()
}

/// How many bytes of a gap the text begins with.
fn gap_len(text: &[u8]) -> usize
    ensures within { result ≤ length text.now }
    ensures value { result ≡ prefix_len specs.is_gap text.now }
{
    for (i, b) in text.iter().enumerate() {
        if !is_gap(*b) {
            return i;
        }
    }
    text.len()
}
