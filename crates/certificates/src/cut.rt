ghost use Rattle.std.specs.Prelude.{◌≡◌, ◌∷◌, ◌++◌, ℕ, List, IfSome, IfNone};
ghost use Rattle.certificates.specs.Parts.Cuts.{IsCut, IsFree};

/// The bytes before the first such byte, and those after it. None where there is no such byte.
pub fn split_at_byte(text: &[u8], byte: u8) -> Option<(&[u8], &[u8])>
    ensures cut { IfSome result (λ parts. IsCut byte text.now parts.0.now parts.1.now) }
    ensures free { IfNone result (IsFree byte text.now) }
{
    for (i, b) in text.iter().enumerate() {
        if *b == byte {
            return Some((&text[..i], &text[i + 1..]));
        }
    }
    None
}

/// What stands behind the byte, if the text begins with it.
pub fn behind_byte(text: &[u8], byte: u8) -> Option<&[u8]>
    ensures found { IfSome result (λ rest. text.now ≡ byte ∷ rest.now) }
    ensures none { IfNone result ((rest : List ℕ) → text.now ≡ byte ∷ rest → ⊥) }
{
    match text {
        [first, rest @ ..] if *first == byte => Some(rest),
        _ => None,
    }
}

/// What stands behind the word, if the text begins with it.
pub fn behind<'a>(text: &'a [u8], word: &[u8]) -> Option<&'a [u8]>
    ensures found { IfSome result (λ rest. text.now ≡ word.now ++ rest.now) }
    ensures none { IfNone result ((rest : List ℕ) → text.now ≡ word.now ++ rest → ⊥) }
{
    text.strip_prefix(word)
}
