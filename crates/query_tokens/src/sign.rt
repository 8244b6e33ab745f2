ghost use Rattle.std.specs.Prelude.{◌≡◌, ◌∷◌, [], ◌++◌, ℕ, List, IfSome, IfNone};
ghost use Rattle.query_tokens.specs.declared.token.Sign.{Sign as AnySign};
ghost use Rattle.query_tokens.specs.Signs.{sign_text};

use crate::token::Sign;

/// The sign of one byte.
fn sign_of(byte: u8) -> Option<Sign>
    ensures found { IfSome result (λ sign. sign_text sign ≡ byte ∷ []) }
    ensures none { IfNone result ((sign : AnySign) → sign_text sign ≡ byte ∷ [] → ⊥) }
{
    match byte {
        b';' => Some(Sign::Semicolon),
        b':' => Some(Sign::Colon),
        b',' => Some(Sign::Comma),
        b'.' => Some(Sign::Dot),
        b'=' => Some(Sign::Equals),
        b'?' => Some(Sign::Question),
        b'(' => Some(Sign::Open),
        b')' => Some(Sign::Close),
        b'[' => Some(Sign::OpenBracket),
        b']' => Some(Sign::CloseBracket),
        _ => None,
    }
}

/// The sign that the text begins with, and the rest.
pub fn first_sign(text: &[u8]) -> Option<(Sign, &[u8])>
    ensures found { IfSome result (λ found. text.now ≡ sign_text found.0 ++ found.1.now) }
    ensures none { IfNone result ((sign : AnySign) (rest : List ℕ)
        → text.now ≡ sign_text sign ++ rest → ⊥) }
{
    match text {
        [b'<', b'r', b'e', b'q', b'>', rest @ ..] => Some((Sign::Request, rest)),
        [byte, rest @ ..] => Some((sign_of(*byte)?, rest)),
        [] => None,
    }
}

/// How the sign is written.
pub fn sign_text(sign: Sign) -> &'static [u8]
    ensures { result.now ≡ sign_text sign }
{
    match sign {
        Sign::Semicolon => b";",
        Sign::Colon => b":",
        Sign::Comma => b",",
        Sign::Dot => b".",
        Sign::Equals => b"=",
        Sign::Question => b"?",
        Sign::Open => b"(",
        Sign::Close => b")",
        Sign::OpenBracket => b"[",
        Sign::CloseBracket => b"]",
        Sign::Request => b"<req>",
    }
}
