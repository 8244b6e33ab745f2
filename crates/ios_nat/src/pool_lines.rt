ghost use Rattle.std.specs.Prelude.{◌≡◌, false, IfOk, IfErr};
ghost use Rattle.ios_lex.specs.NextWords.{NoName};
ghost use Rattle.ios_lex.specs.Stops.{BeginsWith, expected_of, IsStop};
ghost use Rattle.ios_nat.specs.declared.kind.Kind.TheVariants as kinds;
ghost use Rattle.ios_nat.specs.Grammar.{IsLastOf, IsPool, IsSize, Line};
ghost use Rattle.ios_nat.specs.Parts.{SomeLast};

use crate::kind::Kind;
use ios_lex::{
    Due, Stop, Word, first_address, next_address, next_end, next_mask, next_name, next_number,
    stop_before,
};

/// The last address of a pool that begins with this one, and the words behind it.
fn next_last(words: &[Word], first: u32) -> Result<(u32, &[Word]), Stop>
    ensures read { IfOk result
        (λ found. BeginsWith (IsLastOf false first found.0) words.now found.1.now) }
    ensures stop { IfErr result (IsStop NoName (SomeLast first) words.now) }
    ensures part { IfErr result (λ stop. (expected_of stop.due).whole ≡ false) }
{
    let Some((last, rest)) = first_address(words) else {
        return Err(stop_before(words, Due::Address));
    };
    if last < first {
        return Err(stop_before(words, Due::Mask));
    }
    Ok((last, rest))
}

/// The words are the size of a pool's network: `netmask M` or `prefix-length K`.
fn size_end(words: &[Word]) -> Result<(), Stop>
    ensures read { IfOk result (λ _. IsSize false words.now) }
    ensures stop { IfErr result (IsStop NoName IsSize words.now) }
{
    let Some((first, rest)) = words.split_first() else {
        return Err(stop_before(words, Due::Keyword));
    };
    if first.is("netmask") {
        let (_, rest) = next_mask(rest)?;
        return next_end(rest);
    }
    if !first.is("prefix-length") {
        return Err(stop_before(words, Due::Keyword));
    }
    let (_, rest) = next_number(rest, 1, 32)?;
    next_end(rest)
}

/// The name, the first and the last address of the pool that the words behind `ip nat pool` spell.
pub(crate) fn pool(words: &[Word]) -> Result<(&Word, u32, u32), Stop>
    ensures read { IfOk result (λ pool. IsPool false (pool.0.now, (pool.1, pool.2)) words.now) }
    ensures stop { IfErr result (IsStop NoName (Line kinds.Pool) words.now) }
{
    let (name, rest) = next_name(words, Kind::Pool.unmodelled())?;
    let (first, rest) = next_address(rest)?;
    let (last, rest) = next_last(rest, first)?;
    size_end(rest)?;
    Ok((name, first, last))
}
