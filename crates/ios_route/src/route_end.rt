ghost use Rattle.std.specs.Prelude.{◌≡◌, ◌&&◌, ◌↔◌, ℕ, false, IsTrue, IfOk, IfErr, IfSome, IfNone};
ghost use Rattle.std.specs.Str.{bytes_eq};
ghost use Rattle.ios_lex.specs.NextWords.{NoName};
ghost use Rattle.ios_lex.specs.Stops.{IsStop};
ghost use Rattle.ios_route.specs.RouteLines.{AreOptions, HasDistance};
ghost use Rattle.ios_route.specs.RouteParts as specs;
ghost use Rattle.ios_route.specs.RouteParts.{BeginsDistance, HasHop, IsDistance, SomeDistance, SomeHop, SomeOptions};

use ios_lex::{Due, Stop, Word, address, next_name, next_number, number, stop_before};

/// The words that make a route depend on what is not in the text.
pub const UNMODELLED: [&str; 1] = ["track"];

/// The greatest number of ten digits.
const GREATEST_TAG: u64 = 9_999_999_999;

/// The words are at their end, but for words without effect, each once at most: those that may still stand.
fn options(words: &[Word], permanent: bool, name: bool, tag: bool) -> Result<(), Stop>
    ensures read { IfOk result (λ _. AreOptions false permanent name tag words.now) }
    ensures stop { IfErr result (IsStop NoName (SomeOptions permanent name tag) words.now) }
{
    let Some((first, rest)) = words.split_first() else {
        return Ok(());
    };
    if may_be(first, "permanent", permanent) {
        return options(rest, false, name, tag);
    }
    if may_be(first, "name", name) {
        let (_, rest) = next_name(rest, &UNMODELLED)?;
        return options(rest, permanent, false, tag);
    }
    if may_be(first, "tag", tag) {
        let (_, rest) = next_number(rest, 0, GREATEST_TAG)?;
        return options(rest, permanent, name, false);
    }
    Err(stop_before(words, Due::Nothing))
}

/// Whether the word is this text, where the text may still stand.
fn may_be(word: &Word, text: &str, may: bool) -> bool
    ensures { result ≡ (may && bytes_eq word.now text.now) }
{
    may && word.is(text)
}

/// Whether the word is one of those without effect.
fn is_option(word: &Word) -> bool
    ensures { result ≡ specs.is_option word.now }
{
    word.is("permanent") || word.is("name") || word.is("tag")
}

/// The distance that the word spells: a number from 1 to 254.
fn distance(word: &Word) -> Option<u8>
    ensures found { IfSome result (IsDistance word.now) }
    ensures none { IfNone result ((n : ℕ) → IsDistance word.now n → ⊥) }
{
    match number(word.bytes(), 254) {
        Some(n) if n > 0 => Some(n as u8),
        _ => None,
    }
}

/// The distance that the words say, 1 where they say none, and words without effect behind it.
pub fn distance_end(words: &[Word]) -> Result<u8, Stop>
    ensures read { IfOk result (λ found. HasDistance false found words.now) }
    ensures stop { IfErr result (IsStop NoName SomeDistance words.now) }
{
    let Some((first, rest)) = words.split_first() else {
        return Ok(1);
    };
    if let Some(found) = distance(first) {
        options(rest, true, true, true)?;
        return Ok(found);
    }
    if !is_option(first) {
        return Err(stop_before(words, Due::NumberOrEnd));
    }
    options(words, true, true, true)?;
    Ok(1)
}

/// Whether a distance, or words without effect, begin with the word.
fn begins_distance(word: &Word) -> bool
    ensures { IsTrue result ↔ BeginsDistance word.now }
{
    is_option(word) || distance(word).is_some()
}

/// The next hop that the words behind the name of an interface say, if any, and the distance.
pub fn hop_end(words: &[Word]) -> Result<(Option<u32>, u8), Stop>
    ensures read { IfOk result (λ found. HasHop false found.0 found.1 words.now) }
    ensures stop { IfErr result (IsStop NoName SomeHop words.now) }
{
    let Some((first, rest)) = words.split_first() else {
        return Ok((None, 1));
    };
    if let Some(hop) = address(first.bytes()) {
        let found = distance_end(rest)?;
        return Ok((Some(hop), found));
    }
    if !begins_distance(first) {
        return Err(stop_before(words, Due::AddressOrNumberOrEnd));
    }
    let found = distance_end(words)?;
    Ok((None, found))
}
