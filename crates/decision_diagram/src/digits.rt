ghost use Rattle.std.specs.Prelude.{◌≡◌, ◌≤◌, ◌<◌, ◌+◌, ◌/◌, ◌^◌, ◌==◌};
ghost use Rattle.std.specs.Int.{bit_at};
ghost use Rattle.bit_patterns.specs.Patterns as patterns;

use bit_patterns::agrees;

/// Whether the digit at this place of a number is 1; the lowest is at 0.
pub(crate) fn digit(number: u128, place: u32) -> bool
    requires { place < 128 }
    ensures { result ≡ (bit_at number place == 1) }
{
    (number >> place) & 1 == 1
}

/// Whether a number of this many digits, which has zeros above them, agrees with the value there.
pub(crate) fn agree_above(count: u32, value: u128, wildcard: u128) -> bool
    requires { count ≤ 128 }
    ensures { result ≡ patterns.agrees 0 (value / 2 ^ count) (wildcard / 2 ^ count) }
{
    if count == 128 {
        return true;
    }
    agrees(0, value >> count, wildcard >> count)
}

/// The greatest number of this many digits.
pub(crate) fn greatest(count: u32) -> u128
    requires { count ≤ 128 }
    ensures { result + 1 ≡ 2 ^ count }
{
    if count == 128 {
        return u128::MAX;
    }
    (1 << count) - 1
}
