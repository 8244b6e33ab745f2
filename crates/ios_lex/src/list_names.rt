ghost use Rattle.std.specs.Prelude.{◌≡◌, ◌↔◌, ℕ, true, false, IsTrue, IfSome, IfNone};
ghost use Rattle.ios_lex.specs.ListNames as specs;
ghost use Rattle.ios_lex.specs.ListNames.{IsListNumber, has_kind};

use crate::decimals::number;

/// The number that the name of a list is.
pub fn list_number(name: &[u8]) -> Option<u64>
    ensures found { IfSome result (IsListNumber name.now) }
    ensures none { IfNone result ((n : ℕ) → IsListNumber name.now n → ⊥) }
{
    number(name, u64::MAX)
}

/// Whether a list of this number is an extended one, or a standard one. None where it is neither.
pub fn kind_of(n: u64) -> Option<bool>
    ensures found { IfSome result (λ extended. has_kind extended n ≡ true) }
    ensures none { IfNone result ((specs.is_standard n ≡ false) × (specs.is_extended n ≡ false)) }
{
    if is_extended(n) {
        Some(true)
    } else if is_standard(n) {
        Some(false)
    } else {
        None
    }
}

fn is_between(low: u64, high: u64, n: u64) -> bool
    ensures { result ≡ specs.is_between low high n }
{
    low <= n && n <= high
}

fn is_standard(n: u64) -> bool
    ensures { result ≡ specs.is_standard n }
{
    is_between(1, 99, n) || is_between(1300, 1999, n)
}

fn is_extended(n: u64) -> bool
    ensures { result ≡ specs.is_extended n }
{
    is_between(100, 199, n) || is_between(2000, 2699, n)
}

/// Whether lists of this number are of another protocol.
pub fn is_foreign(n: u64) -> bool
    ensures { result ≡ specs.is_foreign n }
{
    is_between(200, 1299, n)
}

/// Whether the name is a number of lists of this kind.
pub fn is_number_of(name: &[u8], extended: bool) -> bool
    ensures { IsTrue result ↔ ((n : ℕ) × IsListNumber name.now n × (has_kind extended n ≡ true)) }
{
    match list_number(name) {
        Some(n) => has_number_kind(n, extended),
        None => false,
    }
}

fn has_number_kind(n: u64, extended: bool) -> bool
    ensures { result ≡ has_kind extended n }
{
    if extended {
        is_extended(n)
    } else {
        is_standard(n)
    }
}

/// Whether each byte of the name may stand in the name of a list: it is from 33 to 126, and no double quote.
pub fn is_name(name: &[u8]) -> bool
    ensures { result ≡ specs.is_name name.now }
{
    for byte in name {
        if !is_name_byte(*byte) {
            return false;
        }
    }
    true
}

fn is_name_byte(byte: u8) -> bool
    ensures { result ≡ specs.is_name_byte byte }
{
    33 <= byte && byte <= 126 && byte != b'"'
}
