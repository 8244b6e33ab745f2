ghost use Rattle.std.specs.Prelude.{◌≡◌, ◌∷◌, [], ◌++◌, ℕ, List, IfOk, IfSome, IfNone};
ghost use Rattle.query_tokens.specs.declared.token.Placed.{Placed as AnyPlaced};
ghost use Rattle.query_tokens.specs.Lines.{RiseFrom};
ghost use Rattle.query_tokens.specs.Tokens.{AreTokens, BeginsToken, HasNoToken};

use crate::gap::first_gap;
use crate::line::line_feeds;
use crate::quoted::first_quoted;
use crate::sign::first_sign;
use crate::token::{Placed, Token};
use crate::word::{ascii_text, first_word, word_token};
use std::alloc::{AllocError, Global};

/// The token that the text begins with, and the rest.
fn first_token(alloc: Global, text: &[u8]) -> Result<Option<(Token, &[u8])>, AllocError>
    ensures found { IfOk result (λ first. IfSome first (λ found.
        (front : List ℕ) × BeginsToken text.now front found.0 found.1.now)) }
    ensures none { IfOk result (λ first. IfNone first (HasNoToken text.now)) }
{
    if let Some((word, rest)) = first_word(text) {
        return Ok(Some((word_token(alloc, word)?, rest)));
    }
    if let Some((inner, rest)) = first_quoted(text) {
        return Ok(Some((Token::Quoted(ascii_text(alloc, inner)?), rest)));
    }
    if let Some((sign, rest)) = first_sign(text) {
        return Ok(Some((Token::Sign(sign), rest)));
    }
    Ok(None)
}

/// The tokens of a script, in order.
pub fn tokens(alloc: Global, bytes: &[u8]) -> Result<Vec<Placed>, AllocError>
    ensures { IfOk result (λ tokens. AreTokens bytes.now tokens.items) }
{
    let mut tokens = Vec::new(alloc);
    let mut line = 1;
    let mut rest = bytes;
    while !rest.is_empty() {
        if let Some((gap, behind)) = first_gap(rest) {
            line += line_feeds(gap);
            rest = behind;
            continue;
        }
        let Some((token, behind)) = first_token(alloc, rest)? else {
            tokens.push(Placed {
                line,
                token: Token::Bad,
            })?;
            return Ok(tokens);
        };
        tokens.push(Placed { line, token })?;
        rest = behind;
    }
    Ok(tokens)
}

/// A text has exactly one list of tokens. Their lines begin at 1 or above and never fall, and behind bytes that are no
/// token stands none.
pub fn one_list_of_tokens()
    ensures same { (bytes : List ℕ) (first second : List AnyPlaced)
        → AreTokens bytes first → AreTokens bytes second → first ≡ second }
    ensures some { (bytes : List ℕ) → ((tokens : List AnyPlaced) → AreTokens bytes tokens → ⊥) → ⊥ }
    ensures lines { (bytes : List ℕ) (tokens : List AnyPlaced)
        → AreTokens bytes tokens → RiseFrom 1 tokens }
    ensures bad_is_last { (bytes : List ℕ) (front behind : List AnyPlaced) (line : ℕ)
        → AreTokens bytes (front ++ record { line = line; token = Token.Bad } ∷ behind)
        → behind ≡ [] }
{}
