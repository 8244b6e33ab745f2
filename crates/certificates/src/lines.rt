ghost use Rattle.std.specs.Prelude.{◌≡◌, ◌<◌, ◌∷◌, [], length, IfSome, IfNone};
ghost use Rattle.certificates.specs.Lines.{text_lines};
ghost use Rattle.certificates.specs.Parts.Cuts.{IsFree};

use crate::cut::split_at_byte;

/// The first line of a text, and what stands behind it. None where there is no line.
pub fn first_line(text: &[u8]) -> Option<(&[u8], &[u8])>
    ensures found { IfSome result
        (λ parts. text_lines text.now ≡ parts.0.now ∷ text_lines parts.1.now) }
    ensures shorter { IfSome result (λ parts. length parts.1.now < length text.now) }
    ensures none { IfNone result (text_lines text.now ≡ []) }
{
    if let Some((line, rest)) = split_at_byte(text, b'\n') {
        return Some((line, rest));
    }
    last_line(text)
}

/// The line that a text without a line feed is, and nothing behind it. None where it is empty.
fn last_line(text: &[u8]) -> Option<(&[u8], &[u8])>
    requires { IsFree 10 text.now }
    ensures found { IfSome result
        (λ parts. text_lines text.now ≡ parts.0.now ∷ text_lines parts.1.now) }
    ensures shorter { IfSome result (λ parts. length parts.1.now < length text.now) }
    ensures none { IfNone result (text_lines text.now ≡ []) }
{
    if text.is_empty() {
        return None;
    }
    Some((text, &text[text.len()..]))
}
