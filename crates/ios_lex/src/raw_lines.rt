ghost use Rattle.std.specs.Prelude.{◌≡◌, ◌<◌, ◌∷◌, [], length, IfSome, IfNone};
ghost use Rattle.ios_lex.specs.Cut.{IsFree};
ghost use Rattle.ios_lex.specs.RawLines as specs;
ghost use Rattle.ios_lex.specs.RawLines.{raw_lines};

use crate::cut::split_at_byte;

/// The first line of a text, and what stands behind it. None where there is no line.
pub fn first_line(text: &[u8]) -> Option<(&[u8], &[u8])>
    ensures found { IfSome result
        (λ parts. raw_lines text.now ≡ parts.0.now ∷ raw_lines parts.1.now) }
    ensures shorter { IfSome result (λ parts. length parts.1.now < length text.now) }
    ensures none { IfNone result (raw_lines text.now ≡ []) }
{
    let Some((line, rest)) = split_at_byte(text, b'\n') else {
        return last_line(text);
    };
    Some((without_return(line), rest))
}

/// The line that a text without a line feed is, and nothing behind it. None where it is empty.
fn last_line(text: &[u8]) -> Option<(&[u8], &[u8])>
    requires { IsFree 10 text.now }
    ensures found { IfSome result
        (λ parts. raw_lines text.now ≡ parts.0.now ∷ raw_lines parts.1.now) }
    ensures shorter { IfSome result (λ parts. length parts.1.now < length text.now) }
    ensures none { IfNone result (raw_lines text.now ≡ []) }
{
    if text.is_empty() {
        return None;
    }
    Some((text, &text[text.len()..]))
}

/// The line without a carriage return at its end.
fn without_return(line: &[u8]) -> &[u8]
    ensures { result.now ≡ specs.without_return line.now }
{
    let len = line.len();
    if len > 0 && line[len - 1] == b'\r' {
        &line[..len - 1]
    } else {
        line
    }
}
