ghost use Rattle.std.specs.Prelude.{◌≡◌, ◌↔◌, ℕ, IsTrue};
ghost use Rattle.std.specs.Int.{bit_at};
ghost use Rattle.bit_patterns.specs.Patterns as specs;

/// Whether the number differs from the value only in bits that are 1 in the wildcard.
#[inline]
pub fn agrees(number: u128, value: u128, wildcard: u128) -> bool
    ensures { result ≡ specs.agrees number value wildcard }
{
    (number ^ value) | wildcard == wildcard
}

/// The numbers that agree with a value have its bits wherever the wildcard's bit is 0; its bits that are 1 are ignored.
pub fn wildcard_bits()
    ensures { (number value wildcard : ℕ) → IsTrue (specs.agrees number value wildcard)
        ↔ ((place : ℕ) → bit_at wildcard place ≡ 0 → bit_at number place ≡ bit_at value place) }
{}
