ghost use Rattle.std.specs.Prelude.{ℕ, List, ◌+◌, ◌<◌, ◌≤◌, ◌*◌, IfOk, IfErr, length, drop, [], ◌∷◌, ◌≡◌, IfSome, IfNone, true, false, ◌^◌, ◌-◌};
ghost use Rattle.query_lang.specs.Machine.Due.{Due, State};
ghost use Rattle.query_lang.specs.Machine.Going.{Found, Stopped, IsLater, StartsAt};
ghost use Rattle.query_tokens.specs.declared.token.Token.TheVariants as token;
ghost use Rattle.query_lang.specs.Literals.{NumberTest};
ghost use Rattle.query_lang.specs.Words.{is_number};
ghost use Rattle.query_lang.specs.Words as words;
ghost use Rattle.query_lang.specs.Machine.Steps as steps;
ghost use Rattle.query_lang.specs.Machine.Tests.{FoundTest, BeginsLiteral, NoLiteral};

use crate::literal::Literal;
use crate::read::ahead::{number_between, number_within, past_sign, past_word, placed_at, sign};
use crate::read::stop::Stop;
use crate::script::ScriptReason;
use query_tokens::{Keyword, Placed, Sign, Token, number};
use sorted_logic::Text;
use std::alloc::{AllocError, Global};

/// What is asked of a number: to agree with a value on each bit that is 0 in a wildcard, or to lie between two.
#[derive(Debug, Drop)]
pub enum Asked {
    Masked(Literal, Literal),
    Range(Literal, Literal),
}

impl Literal {
    fn copy(&self, alloc: Global) -> Result<Literal, AllocError>
        ensures { IfOk result (λ literal. literal ≡ self.now) }
    {
        match self {
            Literal::Number(number) => Ok(Literal::Number(*number)),
            Literal::Interface(text) => Ok(Literal::Interface(text.copy(alloc)?)),
        }
    }
}

/// The number of a text of digits, where it is below 2^128.
#[tactic(auto, using(crate::proofs::Numerals::whole, crate::proofs::Numerals::no_whole))]
fn whole_number(text: &Text) -> Option<u128>
    ensures some { IfSome result
        (λ n. (is_number 0 (2 ^ 128 - 1) text.now ≡ true) × (n ≡ words.number text.now)) }
    ensures none { IfNone result (is_number 0 (2 ^ 128 - 1) text.now ≡ false) }
{
    match number(text) {
        Some(number) => Some(number),
        None => None,
    }
}

/// A dot, and the number of one byte.
#[tactic(auto, using(crate::proofs::Literals::byte_read, crate::proofs::Literals::byte_stops0, crate::proofs::Literals::byte_stops1))]
fn dotted_byte(tokens: &[Placed], at: usize) -> Result<(u64, usize), Stop>
    ensures read { IfOk result (Found ℕ steps.dotted_byte tokens.now at) }
    ensures next { IfOk result (IsLater tokens.now at) }
    ensures byte { IfOk result (λ found. found.0 ≤ 255) }
    ensures refused { IfErr result (Stopped ℕ steps.dotted_byte tokens.now at) }
{
    let next = sign(tokens, at, Sign::Dot)?;
    number_between(tokens, next, 0, 255)
}

/// Three bytes more, each behind a dot: the number of the four.
#[tactic(auto, using(crate::proofs::Literals::three_read, crate::proofs::Literals::three_stops0, crate::proofs::Literals::three_stops1, crate::proofs::Literals::three_stops2))]
fn three_bytes(tokens: &[Placed], at: usize, first: u64) -> Result<(Literal, usize), Stop>
    requires { first ≤ 255 }
    ensures read { IfOk result (Found Literal (steps.dotted_bytes first) tokens.now at) }
    ensures next { IfOk result (IsLater tokens.now at) }
    ensures refused { IfErr result (Stopped Literal (steps.dotted_bytes first) tokens.now at) }
{
    let (second, next) = dotted_byte(tokens, at)?;
    let (third, next) = dotted_byte(tokens, next)?;
    let (fourth, next) = dotted_byte(tokens, next)?;
    let number = 16777216 * first + 65536 * second + 256 * third + fourth;
    Ok((Literal::Number(number as u128), next))
}

/// A number, or four bytes, from the text of digits that stands first.
#[tactic(auto, using(crate::proofs::Literals::byte_dotted, crate::proofs::Literals::byte_dotted_stops, crate::proofs::Literals::byte_alone, crate::proofs::Literals::long_number, crate::proofs::Literals::no_number))]
fn numeral(tokens: &[Placed], at: usize, text: &Text) -> Result<(Literal, usize), Stop>
    requires digits { StartsAt (token.Digits text.now) tokens.now at (at + 1) }
    requires within { at < length tokens.now }
    ensures read { IfOk result (Found Literal (State.want Due.literal) tokens.now at) }
    ensures next { IfOk result (IsLater tokens.now at) }
    ensures refused { IfErr result (Stopped Literal (State.want Due.literal) tokens.now at) }
{
    if let Some(first) = number_within(text, 0, 255) {
        if let Some(_) = past_sign(tokens, at + 1, Sign::Dot) {
            let (number, end) = three_bytes(tokens, at + 1, first)?;
            return Ok((number, end));
        }
        return Ok((Literal::Number(first as u128), at + 1));
    }
    match whole_number(text) {
        Some(number) => Ok((Literal::Number(number), at + 1)),
        None => Err(Stop::Refused(at, ScriptReason::Syntax)),
    }
}

/// A number, also as four bytes joined by dots, or the quoted name of an interface.
#[tactic(auto, using(crate::proofs::Literals::digits_start))]
pub fn literal(alloc: Global, tokens: &[Placed], at: usize) -> Result<(Literal, usize), Stop>
    ensures read { IfOk result (Found Literal (State.want Due.literal) tokens.now at) }
    ensures next { IfOk result (IsLater tokens.now at) }
    ensures refused { IfErr result (Stopped Literal (State.want Due.literal) tokens.now at) }
{
    match placed_at(tokens, at) {
        Some(placed) => match &placed.token {
            Token::Digits(text) => numeral(tokens, at, text),
            Token::Quoted(text) => Ok((Literal::Interface(text.copy(alloc)?), at + 1)),
            _ => Err(Stop::Refused(at, ScriptReason::Syntax)),
        },
        None => Err(Stop::Refused(at, ScriptReason::Syntax)),
    }
}

/// The place itself, if a literal begins there.
#[tactic(auto, using(crate::proofs::Literals::digits_begin, crate::proofs::Literals::quoted_begins, crate::proofs::Literals::none_begins, crate::proofs::Literals::other_begins))]
fn literal_at(tokens: &[Placed], at: usize) -> Option<usize>
    ensures some { IfSome result (λ place. BeginsLiteral (drop place tokens.now)) }
    ensures place { IfSome result (λ place. place ≡ at) }
    ensures none { IfNone result (NoLiteral (drop at tokens.now)) }
{
    match placed_at(tokens, at) {
        Some(placed) => match &placed.token {
            Token::Digits(_) => Some(at),
            Token::Quoted(_) => Some(at),
            _ => None,
        },
        None => None,
    }
}

/// What stands behind IN.
#[tactic(auto, using(crate::proofs::Literals::test_stops0, crate::proofs::Literals::to_read, crate::proofs::Literals::to_stops, crate::proofs::Literals::masked_read, crate::proofs::Literals::masked_stops, crate::proofs::Literals::alone_read))]
pub fn number_test(alloc: Global, tokens: &[Placed], at: usize) -> Result<(Asked, usize), Stop>
    ensures read { IfOk result (FoundTest tokens.now at) }
    ensures next { IfOk result (IsLater tokens.now at) }
    ensures refused { IfErr result (Stopped NumberTest steps.number_test tokens.now at) }
{
    let (first, next) = literal(alloc, tokens, at)?;
    if let Some(behind) = past_word(tokens, next, Keyword::To) {
        let (high, end) = literal(alloc, tokens, behind)?;
        return Ok((Asked::Range(first, high), end));
    }
    if let Some(place) = literal_at(tokens, next) {
        let (wildcard, end) = literal(alloc, tokens, place)?;
        return Ok((Asked::Masked(first, wildcard), end));
    }
    let same = first.copy(alloc)?;
    Ok((Asked::Range(first, same), next))
}
