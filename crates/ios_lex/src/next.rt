ghost use Rattle.std.specs.Prelude.{◌≡◌, ◌≤◌, ◌<◌, ◌^◌, ◌↔◌, [], ℕ, Bool, false, IsTrue, IfOk, IfErr, IfSome, IfNone};
ghost use Rattle.ios_lex.specs.Decimal.{IsNumber};
ghost use Rattle.ios_lex.specs.NextWords.{HasNoDigit, NoMore, NoName, IsAddressOf, IsMaskOf, IsNameBeside, IsNameOf, IsNumberOf, SomeAddress, SomeMask, SomeName, SomeNumber};
ghost use Rattle.ios_lex.specs.Refusal.{texts};
ghost use Rattle.ios_lex.specs.Stops.{BeginsWith, expected_of, IsStop, LacksFirst};

use crate::addresses::address;
use crate::decimals::number;
use crate::list_names::is_name;
use crate::masks::prefix_len;
use crate::refusal::is_among;
use crate::stop::{Due, Stop, stop_before};
use crate::word::Word;

/// The address that the words begin with, and the words behind it.
pub fn first_address(words: &[Word]) -> Option<(u32, &[Word])>
    ensures found { IfSome result
        (λ found. BeginsWith (IsAddressOf found.0) words.now found.1.now) }
    ensures none { IfNone result ((lax : Bool) → LacksFirst (SomeAddress lax) words.now) }
{
    let (first, rest) = words.split_first()?;
    Some((address(first.bytes())?, rest))
}

/// The same, and where the words stop. Where they do, no name is due, so they stop there in grammars with names too.
pub fn next_address(words: &[Word]) -> Result<(u32, &[Word]), Stop>
    ensures read { IfOk result (λ found. BeginsWith (IsAddressOf found.0) words.now found.1.now) }
    ensures stop { IfErr result (IsStop NoName SomeAddress words.now) }
    ensures part { IfErr result (λ stop. (expected_of stop.due).whole ≡ false) }
{
    let Some(found) = first_address(words) else {
        return Err(stop_before(words, Due::Address));
    };
    Ok(found)
}

/// The length of the mask that the words begin with, and the words behind it.
pub fn next_mask(words: &[Word]) -> Result<(u8, &[Word]), Stop>
    ensures read { IfOk result
        (λ found. BeginsWith (IsMaskOf false found.0) words.now found.1.now) }
    ensures stop { IfErr result (IsStop NoName SomeMask words.now) }
    ensures part { IfErr result (λ stop. (expected_of stop.due).whole ≡ false) }
{
    let Some((mask, rest)) = first_address(words) else {
        return Err(stop_before(words, Due::Address));
    };
    let Some(len) = prefix_len(mask) else {
        return Err(stop_before(words, Due::Mask));
    };
    Ok((len, rest))
}

/// The number from `low` to `high` that the words begin with, and the words behind it.
pub fn next_number(words: &[Word], low: u64, high: u64) -> Result<(u64, &[Word]), Stop>
    requires some { low ≤ high }
    requires short { low < 10 ^ 10 }
    ensures read { IfOk result
        (λ found. BeginsWith (IsNumberOf low high found.0) words.now found.1.now) }
    ensures stop { IfErr result (IsStop NoName (SomeNumber low high) words.now) }
    ensures part { IfErr result (λ stop. (expected_of stop.due).whole ≡ false) }
{
    let Some((first, rest)) = words.split_first() else {
        return Err(stop_before(words, Due::Number));
    };
    let Some(found) = number_from(first.bytes(), low, high) else {
        return Err(stop_before(words, Due::Number));
    };
    Ok((found, rest))
}

/// The number from `low` to `high` that the word spells.
fn number_from(word: &[u8], low: u64, high: u64) -> Option<u64>
    ensures found { IfSome result (λ n. IsNumber high word.now n × (low ≤ n)) }
    ensures none { IfNone result ((n : ℕ) → IsNumber high word.now n → low ≤ n → ⊥) }
{
    let n = number(word, high)?;
    if low <= n { Some(n) } else { None }
}

/// The name that the words begin with, and the words behind it. No word of the table is a name.
pub fn next_name<'a>(words: &'a [Word], table: &[&str]) -> Result<(&'a Word, &'a [Word]), Stop>
    requires { HasNoDigit (texts table.now) }
    ensures read { IfOk result (λ found. BeginsWith
        (IsNameOf (texts table.now) false found.0.now) words.now found.1.now) }
    ensures stop { IfErr result (IsStop NoName (SomeName (texts table.now)) words.now) }
    ensures part { IfErr result (λ stop. (expected_of stop.due).whole ≡ false) }
{
    let Some((first, rest)) = words.split_first() else {
        return Err(stop_before(words, Due::Name));
    };
    if !is_name_beside(first, table) {
        return Err(stop_before(words, Due::Name));
    }
    Ok((first, rest))
}

/// The words are at their end.
pub fn next_end(words: &[Word]) -> Result<(), Stop>
    ensures read { IfOk result (λ _. words.now ≡ []) }
    ensures stop { IfErr result (IsStop NoName NoMore words.now) }
{
    if words.is_empty() {
        Ok(())
    } else {
        Err(stop_before(words, Due::Nothing))
    }
}

/// Whether the word is a name, and none of the table.
pub fn is_name_beside(word: &Word, table: &[&str]) -> bool
    ensures { IsTrue result ↔ IsNameBeside (texts table.now) word.now }
{
    is_name(word.bytes()) && !is_among(word, table)
}
