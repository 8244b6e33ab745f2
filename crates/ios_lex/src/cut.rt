ghost use Rattle.std.specs.Prelude.{◌≡◌, IfSome, IfNone};
ghost use Rattle.ios_lex.specs.Cut.{IsCut, IsFree};

/// The bytes before the first such byte, and those after it. None where there is no such byte.
pub fn split_at_byte(text: &[u8], byte: u8) -> Option<(&[u8], &[u8])>
    ensures cut { IfSome result (λ parts. IsCut byte text.now parts.0.now parts.1.now) }
    ensures free { IfNone result (IsFree byte text.now) }
{
    for (i, b) in text.iter().enumerate() {
        if *b == byte {
            return Some((&text[..i], &text[i + 1..]));
        }
    }
    None
}
