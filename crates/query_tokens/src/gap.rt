ghost use Rattle.std.specs.Prelude.{◌≡◌, ◌≤◌, ℕ, List, length, IfSome, IfNone};
ghost use Rattle.std.specs.List.{prefix_len};
ghost use Rattle.query_tokens.specs.Tokens as specs;
ghost use Rattle.query_tokens.specs.Tokens.{BeginsGap, HasNoGap, is_in_line};

/// How many bytes stand before the first line feed.
fn line_len(text: &[u8]) -> usize
    ensures within { result ≤ length text.now }
    ensures value { result ≡ prefix_len is_in_line text.now }
{
    for (i, byte) in text.iter().enumerate() {
        if *byte == b'\n' {
            return i;
        }
    }
    text.len()
}

/// Whether the byte may stand between tokens by itself.
fn is_blank(byte: u8) -> bool
    ensures { result ≡ specs.is_blank byte }
{
    matches!(byte, b' ' | b'\t' | b'\r' | b'\n')
}

/// The gap that the text begins with, and the rest.
pub fn first_gap(text: &[u8]) -> Option<(&[u8], &[u8])>
    ensures found { IfSome result (λ parts. BeginsGap text.now parts.0.now parts.1.now) }
    ensures none { IfNone result (HasNoGap text.now) }
{
    if is_blank(*text.first()?) {
        return Some(text.split_at(1));
    }
    match text {
        [b'-', b'-', comment @ ..] => Some(text.split_at(2 + line_len(comment))),
        _ => None,
    }
}
