ghost use Rattle.std.specs.Prelude.{◌≡◌, false, IfOk, IfErr};
ghost use Rattle.ios_lex.specs.Stops.{BeginsWith, expected_of};
ghost use Rattle.ios_acl.specs.Grammar.{IsPlace};
ghost use Rattle.ios_acl.specs.Stops.{IsStop};
ghost use Rattle.ios_acl.specs.Parts.{IsSourceEnd, IsWildcardEnd, SomePlace, SomeSourceEnd, SomeWildcardEnd};

use crate::endings::end;
use ios_lex::{Due, Stop, Word, address, next_address, stop_before};

/// The address and the wildcard that the words begin with, as `any`, `host A` or `A W`, and the words behind them.
pub fn place(words: &[Word]) -> Result<((u32, u32), &[Word]), Stop>
    ensures read { IfOk result (λ found. BeginsWith (IsPlace found.0) words.now found.1.now) }
    ensures stop { IfErr result (IsStop SomePlace words.now) }
    ensures part { IfErr result (λ stop. (expected_of stop.due).whole ≡ false) }
{
    let Some((first, rest)) = words.split_first() else {
        return Err(stop_before(words, Due::Address));
    };
    if first.is("any") {
        return Ok(((0, u32::MAX), rest));
    }
    if first.is("host") {
        let (host, rest) = next_address(rest)?;
        return Ok(((host, 0), rest));
    }
    let Some(some) = address(first.bytes()) else {
        return Err(stop_before(words, Due::Address));
    };
    let (wildcard, rest) = next_address(rest)?;
    Ok(((some, wildcard), rest))
}

/// What the words of a standard entry say behind its verdict: the address and the wildcard of its source, as `any`,
/// `host A`, `A` or `A W`, and then perhaps `log`.
pub fn source_end(words: &[Word]) -> Result<(u32, u32), Stop>
    ensures read { IfOk result (λ source. IsSourceEnd source words.now) }
    ensures stop { IfErr result (IsStop SomeSourceEnd words.now) }
{
    let Some((first, rest)) = words.split_first() else {
        return Err(stop_before(words, Due::Address));
    };
    if first.is("any") {
        end(rest, false)?;
        return Ok((0, u32::MAX));
    }
    if first.is("host") {
        let (host, rest) = next_address(rest)?;
        end(rest, false)?;
        return Ok((host, 0));
    }
    let Some(some) = address(first.bytes()) else {
        return Err(stop_before(words, Due::Address));
    };
    let wildcard = wildcard_end(rest)?;
    Ok((some, wildcard))
}

/// The wildcard behind an address, 0 where it is left out, and then perhaps `log`.
fn wildcard_end(words: &[Word]) -> Result<u32, Stop>
    ensures read { IfOk result (λ wildcard. IsWildcardEnd wildcard words.now) }
    ensures stop { IfErr result (IsStop SomeWildcardEnd words.now) }
{
    let Some((first, rest)) = words.split_first() else {
        return Ok(0);
    };
    if first.is("log") {
        end(words, false)?;
        return Ok(0);
    }
    let Some(wildcard) = address(first.bytes()) else {
        return Err(stop_before(words, Due::AddressOrEnd));
    };
    end(rest, false)?;
    Ok(wildcard)
}
