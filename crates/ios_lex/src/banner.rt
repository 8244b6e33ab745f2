ghost use Rattle.std.specs.Prelude.{◌≡◌, ◌<◌, ◌≤◌, ℕ, List, length, true, false, IfSome, IfNone, ◌∷◌, codes};
ghost use Rattle.ios_lex.specs.Words.{words_of};
ghost use Rattle.ios_lex.specs.Lines.{is_indented};
ghost use Rattle.ios_lex.specs.Banner as specs;
ghost use Rattle.ios_lex.specs.Banner.{Opens, Occurs};

use crate::words::{first_part, from_next_word};

/// The text of the banner that the line opens, from its delimiter on.
pub fn opened(line: &[u8]) -> Option<&[u8]>
    ensures found { IfSome result (λ text. Opens line.now text.now) }
    ensures none { IfNone result ((text : List ℕ) → Opens line.now text → ⊥) }
{
    if first_part(line) != b"banner".as_slice() {
        return None;
    }
    let text = from_next_word(from_next_word(line));
    if text.is_empty() { None } else { Some(text) }
}

/// A line opens a banner exactly where it is not indented, and has three words, the first of them `banner`.
pub fn opening_words()
    ensures unindented { (line text : List ℕ) → Opens line text → is_indented line ≡ false }
    ensures three_words { (line text : List ℕ) → Opens line text
        → (second : List ℕ) × (third : List ℕ) × (more : List (List ℕ))
        × (words_of line ≡ codes "banner" ∷ second ∷ third ∷ more) }
    ensures opens { (line second third : List ℕ) (more : List (List ℕ))
        → is_indented line ≡ false → words_of line ≡ codes "banner" ∷ second ∷ third ∷ more
        → (text : List ℕ) × Opens line text }
{}

/// How many bytes the delimiter has with which the text begins.
pub fn delimiter_len(text: &[u8]) -> usize
    requires { 0 < length text.now }
    ensures value { result ≡ specs.delimiter_len text.now }
    ensures some { 0 < result }
    ensures within { result ≤ length text.now }
{
    if text.starts_with(b"^C") { 2 } else { 1 }
}

/// Whether the delimiter stands somewhere in the text.
pub fn occurs(text: &[u8], delimiter: &[u8]) -> bool
    requires { 0 < length delimiter.now }
    ensures found { result ≡ true → Occurs delimiter.now text.now }
    ensures none { result ≡ false → Occurs delimiter.now text.now → ⊥ }
{
    for i in 0..text.len() {
        if text[i..].starts_with(delimiter) {
            return true;
        }
    }
    false
}
