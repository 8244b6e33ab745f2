ghost use Rattle.std.specs.Prelude.{◌≡◌, ◌<◌, ◌^◌, ℕ, List, IfSome, IfNone};
ghost use Rattle.ios_lex.specs.Address.{AreParts, IsAddress, dotted};

use crate::cut::split_at_byte;
use crate::decimals::byte;
use std::fmt;

/// An address as it is written: its four bytes joined by dots.
#[derive(Clone, Copy, Debug)]
pub struct Dotted(pub u32);

impl fmt::Display for Dotted {
    ghost use Rattle.std.specs.Prelude.{Some};

    ghost output = { λ address. Some (dotted address.0) };

    #[tactic(auto, unfolding(crate::specs::Address::dotted))]
    fn fmt<W: fmt::Write>(&self, f: &mut fmt::Formatter<W>) -> fmt::Result {
        let address = self.0;
        let first = address / 0x100_0000;
        let second = address / 0x1_0000 % 256;
        let third = address / 0x100 % 256;
        let fourth = address % 256;
        write!(f, "{first}.{second}.{third}.{fourth}")
    }
}

/// The four parts of a text between its first three dots. None where it has fewer.
pub fn four_parts(text: &[u8]) -> Option<(&[u8], &[u8], &[u8], &[u8])>
    ensures found { IfSome result
        (λ parts. AreParts text.now parts.0.now parts.1.now parts.2.now parts.3.now) }
    ensures none { IfNone result ((first second third fourth : List ℕ)
        → AreParts text.now first second third fourth → ⊥) }
{
    let (first, rest) = split_at_byte(text, b'.')?;
    let (second, rest) = split_at_byte(rest, b'.')?;
    let (third, fourth) = split_at_byte(rest, b'.')?;
    Some((first, second, third, fourth))
}

/// The address that the word spells: four numbers from 0 to 255, each of one to three digits, joined by dots.
pub fn address(word: &[u8]) -> Option<u32>
    ensures found { IfSome result (IsAddress word.now) }
    ensures none { IfNone result ((n : ℕ) → IsAddress word.now n → ⊥) }
{
    let (first, second, third, fourth) = four_parts(word)?;
    let a = byte(first)?;
    let b = byte(second)?;
    let c = byte(third)?;
    let d = byte(fourth)?;
    Some(u32::from_be_bytes([a, b, c, d]))
}

/// A word spells one address at most, and an address as it is written spells that address.
pub fn one_address()
    ensures same { (word : List ℕ) (m n : ℕ) → IsAddress word m → IsAddress word n → m ≡ n }
    ensures written { (n : ℕ) → n < 2 ^ 32 → IsAddress (dotted n) n }
{}
