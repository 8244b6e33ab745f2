ghost use Rattle.std.specs.Prelude.{◌≡◌, ◌≢◌, ◌++◌, ℕ, List, All, OnOk, OnErr, IfOk};
ghost use Rattle.query_tokens.specs.declared.token.Placed.{Placed as AnyPlaced};
ghost use Rattle.query_tokens.specs.declared.token.Token.{Token as AnyToken};
ghost use Rattle.query_tokens.specs.Tokens.{AreTokens};
ghost use Rattle.query_tokens.specs.Writing as specs;
ghost use Rattle.query_tokens.specs.Writing.{spelling, next_text, line_text, lines_text, tokens_of_lines, IsWritable};

use crate::keyword::letters;
use crate::sign::sign_text;
use crate::token::{Sign, Token};
use std::alloc::{AllocError, Global};

fn is_text(token: &Token) -> bool
    ensures { result ≡ specs.is_text token.now }
{
    match token {
        Token::Sign(_) => false,
        Token::Bad => false,
        _ => true,
    }
}

fn is_keyword(token: &Token) -> bool
    ensures { result ≡ specs.is_keyword token.now }
{
    matches!(token, Token::Keyword(_))
}

fn closes(token: &Token) -> bool
    ensures { result ≡ specs.closes token.now }
{
    matches!(
        token,
        Token::Sign(Sign::Close | Sign::CloseBracket | Sign::Request)
    )
}

fn opens(token: &Token) -> bool
    ensures { result ≡ specs.opens token.now }
{
    matches!(token, Token::Sign(Sign::Open | Sign::OpenBracket))
}

fn is_equals(token: &Token) -> bool
    ensures { result ≡ specs.is_equals token.now }
{
    matches!(token, Token::Sign(Sign::Equals))
}

fn is_comma(token: &Token) -> bool
    ensures { result ≡ specs.is_comma token.now }
{
    matches!(token, Token::Sign(Sign::Comma))
}

/// Whether a blank stands between two tokens of a line.
#[tactic(auto, unfolding(crate::specs::Writing::has_blank))]
fn has_blank(left: &Token, right: &Token) -> bool
    ensures { result ≡ specs.has_blank left.now right.now }
{
    if is_text(left) && is_text(right) {
        return true;
    }
    if is_equals(left) || is_equals(right) || is_comma(left) {
        return true;
    }
    closes(left) && is_text(right) || is_keyword(left) && opens(right)
}

/// Adds the token to a line.
fn push_token(line: &mut Vec<u8>, token: &Token) -> Result<(), AllocError>
    ensures { OnOk result (line.new.items ≡ line.old.items ++ spelling token.now) }
{
    match token {
        Token::Keyword(keyword) => line.extend_from_slice(letters(*keyword)),
        Token::Name(text) => line.extend_from_slice(text.bytes()),
        Token::Digits(text) => line.extend_from_slice(text.bytes()),
        Token::Word(text) => line.extend_from_slice(text.bytes()),
        Token::Quoted(text) => {
            line.push(b'"')?;
            line.extend_from_slice(text.bytes())?;
            line.push(b'"')?;
            Ok(())
        }
        Token::Sign(sign) => line.extend_from_slice(sign_text(*sign)),
        Token::Bad => Ok(()),
    }
}

/// Adds the next token behind the last one of its line.
fn push_next(line: &mut Vec<u8>, last: &Token, token: &Token) -> Result<(), AllocError>
    ensures { OnOk result (line.new.items ≡ line.old.items ++ next_text last.now token.now) }
{
    if has_blank(last, token) {
        line.push(b' ')?;
        return push_token(line, token);
    }
    push_token(line, token)
}

/// The tokens as one line, with the line feed at its end.
#[tactic(auto, unfolding(crate::specs::Writing::line_text))]
fn line_of(alloc: Global, tokens: &[Token]) -> Result<Vec<u8>, AllocError>
    ensures { IfOk result (λ line. line.items ≡ line_text tokens.now) }
{
    let mut line = Vec::new(alloc);
    let [first, others @ ..] = tokens else {
        line.push(b'\n')?;
        return Ok(line);
    };
    push_token(&mut line, first)?;
    let mut last = first;
    for token in others {
        push_next(&mut line, last, token)?;
        last = token;
    }
    line.push(b'\n')?;
    Ok(line)
}

/// Adds the tokens as one line, with the line feed at its end.
pub fn push_line(alloc: Global, bytes: &mut Vec<u8>, tokens: &[Token]) -> Result<(), AllocError>
    ensures ok { OnOk result (bytes.new.items ≡ bytes.old.items ++ line_text tokens.now) }
    ensures err { OnErr result (bytes.new.items ≡ bytes.old.items) }
{
    let line = line_of(alloc, tokens)?;
    bytes.extend_from_slice(line.as_slice())
}

/// Lines of tokens that are what their spellings are have exactly these tokens, each on its line. What is read from a
/// script is such a token, unless it is `Bad`.
pub fn lines_are_read_back()
    ensures written { (lines : List (List AnyToken))
        → All (All IsWritable) lines → AreTokens (lines_text lines) (tokens_of_lines 1 lines) }
    ensures read { (bytes : List ℕ) (tokens : List AnyPlaced) → AreTokens bytes tokens
        → All (λ placed. placed.token ≢ Token.Bad → IsWritable placed.token) tokens }
{}
