ghost use Rattle.std.specs.Prelude.{◌≡◌, ◌≤◌, ◌++◌, ◌<◌, ◌↔◌, ℕ, List, length, IsTrue, IfOk, IfSome, IfNone};
ghost use Rattle.std.specs.List.{list_all, prefix_len};
ghost use Rattle.std.specs.Str.{IsAscii};
ghost use Rattle.query_tokens.specs.Keywords.{letters};
ghost use Rattle.std.specs.Str.Parse.{IsNumeral};
ghost use Rattle.query_tokens.specs.Fronts.{Stops};
ghost use Rattle.query_tokens.specs.Words as specs;
ghost use Rattle.query_tokens.specs.Words.{IsWord, IsWordToken};

use crate::keyword::{Keyword, is_keyword, keyword_of, letters as written};
use crate::token::Token;
use sorted_logic::Text;
use std::alloc::{AllocError, Global};

/// Whether a word may begin with the byte.
fn begins_word(byte: u8) -> bool
    ensures { result ≡ specs.begins_word byte }
{
    byte.is_ascii_alphanumeric() || byte == b'_'
}

/// Whether a word may go on with the byte.
fn continues_word(byte: u8) -> bool
    ensures { result ≡ specs.continues_word byte }
{
    begins_word(byte) || byte == b'-'
}

/// How many bytes stand before the first with which no word goes on.
fn word_len(text: &[u8]) -> usize
    ensures within { result ≤ length text.now }
    ensures value { result ≡ prefix_len specs.continues_word text.now }
{
    for (i, byte) in text.iter().enumerate() {
        if !continues_word(*byte) {
            return i;
        }
    }
    text.len()
}

/// The word that the text begins with, as long as it can be, and the rest.
pub fn first_word(text: &[u8]) -> Option<(&[u8], &[u8])>
    ensures whole { IfSome result (λ parts. text.now ≡ parts.0.now ++ parts.1.now) }
    ensures word { IfSome result (λ parts. IsWord parts.0.now) }
    ensures stops { IfSome result (λ parts. Stops specs.continues_word parts.1.now) }
    ensures none { IfNone result ((word rest : List ℕ)
        → text.now ≡ word ++ rest → IsWord word → ⊥) }
{
    if begins_word(*text.first()?) {
        Some(text.split_at(word_len(text)))
    } else {
        None
    }
}

/// The text of these bytes, all below 128.
pub fn ascii_text(alloc: Global, bytes: &[u8]) -> Result<Text, AllocError>
    requires { IsAscii bytes.now }
    ensures { IfOk result (λ text. text ≡ bytes.now) }
{
    match std::str::from_utf8(bytes) {
        Ok(text) => Text::of(alloc, text),
        Err(_) => unreachable!(),
    }
}

/// The keyword as it is written.
#[tactic(auto, using(crate::proofs::KeywordTexts::letters_are_ascii))]
pub fn keyword_text(alloc: Global, keyword: Keyword) -> Result<Text, AllocError>
    ensures { IfOk result (λ text. text ≡ letters keyword) }
{
    ascii_text(alloc, written(keyword))
}

/// Whether the word is of decimal digits alone.
fn is_numeral(word: &[u8]) -> bool
    requires { 0 < length word.now }
    ensures { IsTrue result ↔ IsNumeral 10 word.now }
{
    word.iter().all(|byte| byte.is_ascii_digit())
}

/// Whether the text begins with a letter.
fn begins_with_letter(text: &[u8]) -> bool
    ensures { result ≡ specs.begins_with_letter text.now }
{
    match text.first() {
        Some(byte) => byte.is_ascii_alphabetic(),
        None => false,
    }
}

/// Whether a word may go on with each byte.
fn goes_on(text: &[u8]) -> bool
    ensures { result ≡ list_all specs.continues_word text.now }
{
    text.iter().all(|byte| continues_word(*byte))
}

/// Whether the text is a name: a word that begins with a letter and is no keyword.
pub fn is_name(text: &Text) -> bool
    ensures { result ≡ specs.is_name text.now }
{
    let bytes = text.bytes();
    begins_with_letter(bytes) && goes_on(bytes) && !is_keyword(bytes)
}

/// The token that the word is.
pub fn word_token(alloc: Global, word: &[u8]) -> Result<Token, AllocError>
    requires { IsWord word.now }
    ensures { IfOk result (IsWordToken word.now) }
{
    if let Some(keyword) = keyword_of(word) {
        return Ok(Token::Keyword(keyword));
    }
    let text = ascii_text(alloc, word)?;
    if word[0].is_ascii_alphabetic() {
        Ok(Token::Name(text))
    } else if is_numeral(word) {
        Ok(Token::Digits(text))
    } else {
        Ok(Token::Word(text))
    }
}
