ghost use Rattle.std.specs.Prelude.{◌<◌, ◌^◌};
ghost use Rattle.std.specs.Option.{SomeIff};
ghost use Rattle.std.specs.Str.Parse.{IsNumeral, digits_value};

use sorted_logic::Text;

/// The number that a text of decimal digits spells, where it is below 2^128. Zeros may stand in front.
pub fn number(text: &Text) -> Option<u128>
    ensures { let value = digits_value 10 text.now in
        SomeIff result (IsNumeral 10 text.now × (value < 2 ^ 128)) value }
{
    let digits = text.as_str();
    if digits.as_bytes().first() == Some(&b'+') {
        return None;
    }
    digits.parse().ok()
}
