ghost use Rattle.std.specs.Prelude.{◌≡◌, ◌↔◌, ◌+◌, ◌<◌, ◌≤◌, ℕ, List, length, slice_index, IsTrue, IfSome, IfNone};
ghost use Rattle.std.specs.Fmt.{decimal};
ghost use Rattle.cnf.specs.declared.lit.Lit.{Lit as AnyLit};
ghost use Rattle.certificates.specs.Writable.{IsWritableNumber};
ghost use Rattle.certificates.specs.Text.{lit_text};
ghost use Rattle.certificates.specs.Parts.Entries.{BeginsEntry, IsNumber, IsWritableLit};

use crate::cut::{behind_byte, split_at_byte};
use cnf::Lit;

/// Numbers are below this one, and have at most so many digits.
const NUMBER_END: u64 = 1 << 62;

const MOST_DIGITS: usize = 19;

/// Whether a zero stands in front of other bytes.
fn is_padded(word: &[u8]) -> bool
    ensures { IsTrue result ↔ ((1 < length word.now) × (slice_index word.now 0 ≡ 48)) }
{
    word.len() > 1 && word[0] == b'0'
}

/// The number that a word spells: decimal digits, with no zero in front of others.
pub fn number(word: &[u8]) -> Option<u64>
    ensures found { IfSome result (IsNumber word.now) }
    ensures none { IfNone result ((n : ℕ) → IsNumber word.now n → ⊥) }
{
    if word.is_empty() || word.len() > MOST_DIGITS {
        return None;
    }
    if is_padded(word) {
        return None;
    }
    let mut n = 0;
    for digit in word {
        if !digit.is_ascii_digit() {
            return None;
        }
        n = n * 10 + u64::from(*digit - b'0');
    }
    if n < NUMBER_END { Some(n) } else { None }
}

/// The number of a clause that the text begins with, with a blank behind it, and the rest.
pub fn first_number(text: &[u8]) -> Option<(usize, &[u8])>
    ensures found { IfSome result
        (λ found. BeginsEntry IsWritableNumber decimal text.now found.0 found.1.now) }
    ensures shorter { IfSome result (λ found. length found.1.now < length text.now) }
    ensures none { IfNone result ((n : ℕ) (rest : List ℕ)
        → BeginsEntry IsWritableNumber decimal text.now n rest → ⊥) }
{
    let (word, rest) = split_at_byte(text, b' ')?;
    let n = number(word)?;
    if n == 0 {
        return None;
    }
    Some((n as usize, rest))
}

/// The literal of this sign whose variable's number from 1 the digits are.
fn signed(digits: &[u8], negative: bool) -> Option<Lit>
    ensures found { IfSome result
        (λ l. (l.negative ≡ negative) × IsNumber digits.now (l.var + 1)) }
    ensures none { IfNone result ((n : ℕ) → 1 ≤ n → IsNumber digits.now n → ⊥) }
{
    let n = number(digits)?;
    if n == 0 {
        return None;
    }
    Some(Lit::new((n - 1) as usize, negative))
}

/// The literal that a word spells: its variable's number from 1, behind a minus sign where it is negative.
pub fn lit(word: &[u8]) -> Option<Lit>
    ensures found { IfSome result (λ l. IsWritableLit l × (word.now ≡ lit_text l)) }
    ensures none { IfNone result ((l : AnyLit) → IsWritableLit l → word.now ≡ lit_text l → ⊥) }
{
    if let Some(digits) = behind_byte(word, b'-') {
        return signed(digits, true);
    }
    signed(word, false)
}

/// The literal that the text begins with, with a blank behind it, and the rest.
pub fn first_lit(text: &[u8]) -> Option<(Lit, &[u8])>
    ensures found { IfSome result
        (λ found. BeginsEntry IsWritableLit lit_text text.now found.0 found.1.now) }
    ensures shorter { IfSome result (λ found. length found.1.now < length text.now) }
    ensures none { IfNone result ((l : AnyLit) (rest : List ℕ)
        → BeginsEntry IsWritableLit lit_text text.now l rest → ⊥) }
{
    let (word, rest) = split_at_byte(text, b' ')?;
    Some((lit(word)?, rest))
}
