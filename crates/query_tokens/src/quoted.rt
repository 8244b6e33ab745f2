ghost use Rattle.std.specs.Prelude.{◌≡◌, ◌≤◌, ◌∷◌, ◌++◌, ℕ, List, length, IfSome, IfNone};
ghost use Rattle.std.specs.List.{prefix_len, AllPass};
ghost use Rattle.query_tokens.specs.Tokens.{is_quotable};
ghost use Rattle.query_tokens.specs.Tokens as specs;

/// Whether the byte may stand between two quotes.
fn is_quotable(byte: u8) -> bool
    ensures { result ≡ specs.is_quotable byte }
{
    (32..=126).contains(&byte) && byte != b'"'
}

/// How many bytes stand before the first that may not stand between two quotes.
fn quotable_len(text: &[u8]) -> usize
    ensures within { result ≤ length text.now }
    ensures value { result ≡ prefix_len specs.is_quotable text.now }
{
    for (i, byte) in text.iter().enumerate() {
        if !is_quotable(*byte) {
            return i;
        }
    }
    text.len()
}

/// The text between the two quotes of which the first begins the text, and the rest.
pub fn first_quoted(text: &[u8]) -> Option<(&[u8], &[u8])>
    ensures whole { IfSome result (λ parts. text.now ≡ 34 ∷ (parts.0.now ++ 34 ∷ parts.1.now)) }
    ensures quotable { IfSome result (λ parts. AllPass specs.is_quotable parts.0.now) }
    ensures none { IfNone result ((inner rest : List ℕ)
        → text.now ≡ 34 ∷ (inner ++ 34 ∷ rest) → AllPass specs.is_quotable inner → ⊥) }
{
    let [b'"', behind @ ..] = text else {
        return None;
    };
    let (inner, behind) = behind.split_at(quotable_len(behind));
    let rest = behind.strip_prefix(b"\"")?;
    Some((inner, rest))
}
