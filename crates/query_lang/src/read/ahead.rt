ghost use Rattle.std.specs.Prelude.{◌≡◌, ℕ, List, ◌+◌, ◌<◌, ◌≤◌, IfOk, IfErr, IfSome, IfNone, IsTrue, length, drop, [], ◌∷◌, true, false};
ghost use Rattle.query_lang.specs.Machine.Due.{Due, State};
ghost use Rattle.query_lang.specs.Machine.Going.{Found, FoundNumber, Stopped, StoppedNumber, IsLater, GoesTo, StartsAt, NoWord, NoSign, NoKeyword};
ghost use Rattle.query_tokens.specs.declared.token.Token.TheVariants as token;
ghost use Rattle.query_lang.specs.Words.{is_number};
ghost use Rattle.query_lang.specs.Words as specs;

use crate::read::stop::Stop;
use crate::script::ScriptReason;
use query_tokens::{Keyword, Placed, Sign, Token, keyword_text, number};
use sorted_logic::Text;
use std::alloc::Global;

/// The token at a place.
pub fn placed_at(tokens: &[Placed], at: usize) -> Option<&Placed>
    ensures some { IfSome result
        (λ found. drop at tokens.now ≡ found.now ∷ drop (at + 1) tokens.now) }
    ensures inside { IfSome result (λ found. at < length tokens.now) }
    ensures none { IfNone result (drop at tokens.now ≡ []) }
{
    tokens.get(at)
}

/// The place behind the keyword, if it stands there.
#[tactic(auto, using(crate::proofs::Ahead::word_starts, crate::proofs::Ahead::no_word, crate::proofs::Ahead::other_word, crate::proofs::Ahead::word_at_end))]
pub fn past_word(tokens: &[Placed], at: usize, word: Keyword) -> Option<usize>
    ensures some { IfSome result (StartsAt (token.Keyword word) tokens.now at) }
    ensures next { IfSome result (λ next. (at < next) × (next ≤ length tokens.now)) }
    ensures none { IfNone result (NoWord word (drop at tokens.now)) }
{
    match placed_at(tokens, at) {
        Some(placed) => match &placed.token {
            Token::Keyword(found) => { if *found == word { Some(at + 1) } else { None } }
            _ => None,
        },
        None => None,
    }
}

/// The keyword that stands there, and the place behind it.
#[tactic(auto, using(crate::proofs::Ahead::word_here, crate::proofs::Ahead::no_keyword_here, crate::proofs::Ahead::no_keyword_at_end))]
pub fn any_word(tokens: &[Placed], at: usize) -> Option<(Keyword, usize)>
    ensures some { IfSome result (λ found. StartsAt (token.Keyword found.0) tokens.now at found.1) }
    ensures next { IfSome result (λ found. (at < found.1) × (found.1 ≤ length tokens.now)) }
    ensures none { IfNone result (NoKeyword (drop at tokens.now)) }
{
    match placed_at(tokens, at) {
        Some(placed) => match &placed.token {
            Token::Keyword(found) => Some((*found, at + 1)),
            _ => None,
        },
        None => None,
    }
}

/// The place behind the sign, if it stands there.
#[tactic(auto, using(crate::proofs::Ahead::sign_starts, crate::proofs::Ahead::no_sign, crate::proofs::Ahead::other_sign, crate::proofs::Ahead::sign_at_end))]
pub fn past_sign(tokens: &[Placed], at: usize, sign: Sign) -> Option<usize>
    ensures some { IfSome result (StartsAt (token.Sign sign) tokens.now at) }
    ensures next { IfSome result (λ next. (at < next) × (next ≤ length tokens.now)) }
    ensures none { IfNone result (NoSign sign (drop at tokens.now)) }
{
    match placed_at(tokens, at) {
        Some(placed) => match &placed.token {
            Token::Sign(found) => { if *found == sign { Some(at + 1) } else { None } }
            _ => None,
        },
        None => None,
    }
}

/// The place behind this keyword.
#[tactic(auto, using(crate::proofs::Ahead::word_read, crate::proofs::Ahead::word_stops))]
pub fn word(tokens: &[Placed], at: usize, word: Keyword) -> Result<usize, Stop>
    ensures read { IfOk result (GoesTo (State.want (Due.word word)) tokens.now at) }
    ensures next { IfOk result (λ next. (at < next) × (next ≤ length tokens.now)) }
    ensures refused { IfErr result (Stopped Unit (State.want (Due.word word)) tokens.now at) }
{
    match past_word(tokens, at, word) {
        Some(next) => Ok(next),
        None => Err(Stop::Refused(at, ScriptReason::Syntax)),
    }
}

/// The place behind this sign.
#[tactic(auto, using(crate::proofs::Ahead::sign_read, crate::proofs::Ahead::sign_stops))]
pub fn sign(tokens: &[Placed], at: usize, sign: Sign) -> Result<usize, Stop>
    ensures read { IfOk result (GoesTo (State.want (Due.sign sign)) tokens.now at) }
    ensures next { IfOk result (λ next. (at < next) × (next ≤ length tokens.now)) }
    ensures refused { IfErr result (Stopped Unit (State.want (Due.sign sign)) tokens.now at) }
{
    match past_sign(tokens, at, sign) {
        Some(next) => Ok(next),
        None => Err(Stop::Refused(at, ScriptReason::Syntax)),
    }
}

pub fn name(alloc: Global, tokens: &[Placed], at: usize) -> Result<(Text, usize), Stop>
    ensures read { IfOk result (Found (List ℕ) (State.want Due.name) tokens.now at) }
    ensures next { IfOk result (IsLater tokens.now at) }
    ensures refused { IfErr result (Stopped (List ℕ) (State.want Due.name) tokens.now at) }
{
    match placed_at(tokens, at) {
        Some(placed) => match &placed.token {
            Token::Name(text) => Ok((text.copy(alloc)?, at + 1)),
            _ => Err(Stop::Refused(at, ScriptReason::Syntax)),
        },
        None => Err(Stop::Refused(at, ScriptReason::Syntax)),
    }
}

/// A text between quotes.
pub fn quoted(alloc: Global, tokens: &[Placed], at: usize) -> Result<(Text, usize), Stop>
    ensures read { IfOk result (Found (List ℕ) (State.want Due.quoted) tokens.now at) }
    ensures next { IfOk result (IsLater tokens.now at) }
    ensures refused { IfErr result (Stopped (List ℕ) (State.want Due.quoted) tokens.now at) }
{
    match placed_at(tokens, at) {
        Some(placed) => match &placed.token {
            Token::Quoted(text) => Ok((text.copy(alloc)?, at + 1)),
            _ => Err(Stop::Refused(at, ScriptReason::Syntax)),
        },
        None => Err(Stop::Refused(at, ScriptReason::Syntax)),
    }
}

/// A component of a path: any word, or a text between quotes.
pub fn component(alloc: Global, tokens: &[Placed], at: usize) -> Result<(Text, usize), Stop>
    ensures read { IfOk result (Found (List ℕ) (State.want Due.component) tokens.now at) }
    ensures next { IfOk result (IsLater tokens.now at) }
    ensures refused { IfErr result (Stopped (List ℕ) (State.want Due.component) tokens.now at) }
{
    match placed_at(tokens, at) {
        Some(placed) => match &placed.token {
            Token::Keyword(word) => Ok((keyword_text(alloc, *word)?, at + 1)),
            Token::Name(text) => Ok((text.copy(alloc)?, at + 1)),
            Token::Digits(text) => Ok((text.copy(alloc)?, at + 1)),
            Token::Word(text) => Ok((text.copy(alloc)?, at + 1)),
            Token::Quoted(text) => Ok((text.copy(alloc)?, at + 1)),
            _ => Err(Stop::Refused(at, ScriptReason::Syntax)),
        },
        None => Err(Stop::Refused(at, ScriptReason::Syntax)),
    }
}

/// The number of a text from `low` to `high`.
#[tactic(auto, using(crate::proofs::Numerals::within, crate::proofs::Numerals::beyond, crate::proofs::Numerals::no_number))]
pub fn number_within(text: &Text, low: u64, high: u64) -> Option<u64>
    ensures some { IfSome result
        (λ n. (is_number low high text.now ≡ true) × (n ≡ specs.number text.now)) }
    ensures bounds { IfSome result (λ n. (low ≤ n) × (n ≤ high)) }
    ensures none { IfNone result (is_number low high text.now ≡ false) }
{
    let Some(n) = number(text) else {
        return None;
    };
    if n < low as u128 {
        return None;
    }
    if n > high as u128 {
        return None;
    }
    Some(n as u64)
}

/// A number from `low` to `high`.
#[tactic(auto, using(crate::proofs::Ahead::number_read, crate::proofs::Ahead::number_stops, crate::proofs::Ahead::number_at_end))]
pub fn number_between(
    tokens: &[Placed],
    at: usize,
    low: u64,
    high: u64,
) -> Result<(u64, usize), Stop>
    ensures read { IfOk result (FoundNumber low high tokens.now at) }
    ensures next { IfOk result (IsLater tokens.now at) }
    ensures within { IfOk result (λ found. (low ≤ found.0) × (found.0 ≤ high)) }
    ensures refused { IfErr result (StoppedNumber low high tokens.now at) }
{
    match placed_at(tokens, at) {
        Some(placed) => match &placed.token {
            Token::Digits(text) => match number_within(text, low, high) {
                Some(n) => Ok((n, at + 1)),
                None => Err(Stop::Refused(at, ScriptReason::Syntax)),
            },
            _ => Err(Stop::Refused(at, ScriptReason::Syntax)),
        },
        None => Err(Stop::Refused(at, ScriptReason::Syntax)),
    }
}
