ghost use Rattle.std.specs.Prelude.{◌≡◌, ◌+◌, ◌≤◌, ℕ, List, ◌++◌, length, IfSome, IfNone, MatchResult};
ghost use Rattle.certificates.specs.Lines.{text_lines};
ghost use Rattle.certificates.specs.Text.{head_word};
ghost use Rattle.certificates.specs.Parts.Places.{HasNoHead, IsHead, IsHeadAt};

use crate::cut::{behind, split_at_byte};
use crate::lines::first_line;
use crate::words::number;

/// What stands behind the first word of a head, if the line begins as one.
#[tactic(auto, unfolding(crate::specs::Text::head_word))]
fn behind_head_word(line: &[u8]) -> Option<&[u8]>
    ensures found { IfSome result (λ rest. line.now ≡ head_word ++ rest.now) }
    ensures none { IfNone result ((rest : List ℕ) → line.now ≡ head_word ++ rest → ⊥) }
{
    behind(line, b"margrave-proof ")
}

/// The first line that begins as a head does.
#[derive(Clone, Copy)]
pub struct FoundHead<'a> {
    /// From 1.
    pub number: u64,
    /// The line, without its first word.
    pub words: &'a [u8],
    /// The bytes behind the line.
    pub behind: &'a [u8],
}

/// The first line that begins as a head does. Where there is none, the number behind the last line.
pub fn find_head(bytes: &[u8]) -> Result<FoundHead<'_>, u64>
    ensures places { MatchResult result
        (λ head. IsHeadAt (text_lines bytes.now) head.number head.words.now
        (text_lines head.behind.now))
        (HasNoHead (text_lines bytes.now)) }
    ensures shorter { MatchResult result
        (λ head. head.number + length head.behind.now ≤ length bytes.now)
        (λ number. number ≤ length bytes.now + 1) }
{
    let mut number = 1;
    let mut rest = bytes;
    while let Some((line, others)) = first_line(rest) {
        if let Some(words) = behind_head_word(line) {
            return Ok(FoundHead {
                number,
                words,
                behind: others,
            });
        }
        number += 1;
        rest = others;
    }
    Err(number)
}

/// The version and the line of the question that a head's words say.
pub fn head_numbers(words: &[u8]) -> Option<(u64, u64)>
    ensures found { IfSome result (λ found. IsHead words.now found.0 found.1) }
    ensures none { IfNone result ((version line : ℕ) → IsHead words.now version line → ⊥) }
{
    let (version, line) = split_at_byte(words, b' ')?;
    Some((number(version)?, number(line)?))
}
