ghost use Rattle.std.specs.Prelude.{◌≤◌, false, IfOk, IfErr};
ghost use Rattle.ios_lex.specs.NextWords.{NoName};
ghost use Rattle.ios_lex.specs.Stops.{IsStop};
ghost use Rattle.ios_interface.specs.Grammar.{IsAddressLine, IsSecondary, Line};
ghost use Rattle.ios_interface.specs.Parts.{SomeSecondary};
ghost use Rattle.ios_interface.specs.declared.kind.Kind.TheVariants as kinds;

use ios_lex::{Due, Stop, Word, next_address, next_end, next_mask, stop_before};

/// The words are at their end, but for `secondary`.
fn secondary_end(words: &[Word]) -> Result<bool, Stop>
    ensures read { IfOk result (λ secondary. IsSecondary secondary words.now) }
    ensures stop { IfErr result (IsStop NoName SomeSecondary words.now) }
{
    let Some((first, rest)) = words.split_first() else {
        return Ok(false);
    };
    if !first.is("secondary") {
        return Err(stop_before(words, Due::Nothing));
    }
    next_end(rest)?;
    Ok(true)
}

/// The address that the words behind `ip address` spell, the length of its mask, and whether it is a secondary one.
pub(crate) fn address_line(words: &[Word]) -> Result<(u32, u8, bool), Stop>
    ensures read { IfOk result (λ line. IsAddressLine false (line.0, line.1) line.2 words.now) }
    ensures length { IfOk result (λ line. line.1 ≤ 32) }
    ensures stop { IfErr result (IsStop NoName (Line kinds.Address) words.now) }
{
    let (address, rest) = next_address(words)?;
    let (len, rest) = next_mask(rest)?;
    let secondary = secondary_end(rest)?;
    Ok((address, len, secondary))
}
