ghost use Rattle.std.specs.Prelude.{◌≡◌, ◌≤◌, ℕ, IfSome, IfNone};
ghost use Rattle.ios_lex.specs.Decimal.{IsDecimal, IsNumber, IsByte};

/// The number of one to so many decimal digits.
fn decimal(text: &[u8], most: usize) -> Option<u64>
    requires { most ≤ 18 }
    ensures found { IfSome result (IsDecimal most text.now) }
    ensures none { IfNone result ((n : ℕ) → IsDecimal most text.now n → ⊥) }
{
    if text.is_empty() || text.len() > most {
        return None;
    }
    let mut n = 0;
    for digit in text {
        if !digit.is_ascii_digit() {
            return None;
        }
        n = n * 10 + u64::from(*digit - b'0');
    }
    Some(n)
}

/// The number that a word of one to ten digits spells, where it is at most `max`.
pub fn number(word: &[u8], max: u64) -> Option<u64>
    ensures found { IfSome result (IsNumber max word.now) }
    ensures none { IfNone result ((n : ℕ) → IsNumber max word.now n → ⊥) }
{
    let n = decimal(word, 10)?;
    if n <= max { Some(n) } else { None }
}

/// The byte that one to three digits spell.
pub fn byte(text: &[u8]) -> Option<u8>
    ensures found { IfSome result (IsByte text.now) }
    ensures none { IfNone result ((n : ℕ) → IsByte text.now n → ⊥) }
{
    let n = decimal(text, 3)?;
    if n <= 255 { Some(n as u8) } else { None }
}
