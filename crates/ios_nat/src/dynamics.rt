ghost use Rattle.std.specs.Prelude.{◌≡◌, ℕ, false, IfOk, IfErr};
ghost use Rattle.ios_lex.specs.NextWords.{NoName};
ghost use Rattle.ios_lex.specs.Stops.{BeginsWith, expected_of, IsStop};
ghost use Rattle.ios_nat.specs.declared.kind.Kind.TheVariants as kinds;
ghost use Rattle.ios_nat.specs.Grammar.{IsOverload, Line, IsDynamic};
ghost use Rattle.ios_nat.specs.Parts.{dynamic_entry, IsFrom, SomeFromWord, SomeOverload};

use crate::entry::{DynamicEntry, DynamicFrom};
use crate::kind::Kind;
use ios_lex::{Due, Stop, Word, next_end, next_name, stop_before};
use std::alloc::{AllocError, Global};

/// A dynamic entry as the words of its line have it.
#[derive(Drop)]
pub(crate) struct DynamicWords<'a> {
    list: &'a Word,
    /// Whether the addresses come from a pool, and not from an interface.
    pool: bool,
    /// The name of the pool or of the interface.
    name: &'a Word,
    overload: bool,
}

/// Whether the words begin with `pool`, and not with `interface`, and the words behind it.
fn next_from(words: &[Word]) -> Result<(bool, &[Word]), Stop>
    ensures read { IfOk result (λ found. BeginsWith (IsFrom found.0) words.now found.1.now) }
    ensures stop { IfErr result (IsStop NoName SomeFromWord words.now) }
    ensures part { IfErr result (λ stop. (expected_of stop.due).whole ≡ false) }
{
    let Some((first, rest)) = words.split_first() else {
        return Err(stop_before(words, Due::Keyword));
    };
    if first.is("pool") {
        Ok((true, rest))
    } else if first.is("interface") {
        Ok((false, rest))
    } else {
        Err(stop_before(words, Due::Keyword))
    }
}

/// The words are at their end, but for `overload`.
fn overload_end(words: &[Word]) -> Result<bool, Stop>
    ensures read { IfOk result (λ overload. IsOverload overload words.now) }
    ensures stop { IfErr result (IsStop NoName SomeOverload words.now) }
{
    let Some((first, rest)) = words.split_first() else {
        return Ok(false);
    };
    if !first.is("overload") {
        return Err(stop_before(words, Due::Nothing));
    }
    next_end(rest)?;
    Ok(true)
}

/// The dynamic entry that the words behind `ip nat inside source list` spell.
pub(crate) fn dynamic(words: &[Word]) -> Result<DynamicWords<'_>, Stop>
    ensures read { IfOk result
        (λ entry. (line : ℕ) → IsDynamic false (dynamic_entry line entry) words.now) }
    ensures stop { IfErr result (IsStop NoName (Line kinds.Dynamic) words.now) }
{
    let (list, rest) = next_name(words, Kind::Dynamic.unmodelled())?;
    let (pool, rest) = next_from(rest)?;
    let (name, rest) = next_name(rest, Kind::Dynamic.unmodelled())?;
    let overload = overload_end(rest)?;
    Ok(DynamicWords {
        list,
        pool,
        name,
        overload,
    })
}

impl DynamicWords<'_> {
    /// The entry, on this line.
    pub(crate) fn entry(&self, alloc: Global, line: u64) -> Result<DynamicEntry, AllocError>
        ensures { IfOk result (λ entry. entry ≡ dynamic_entry line self.now) }
    {
        let list = self.list.copy(alloc)?;
        let name = self.name.copy(alloc)?;
        let from = if self.pool {
            DynamicFrom::Pool(name)
        } else {
            DynamicFrom::Interface(name)
        };
        Ok(DynamicEntry {
            line,
            list,
            from,
            overload: self.overload,
        })
    }
}
