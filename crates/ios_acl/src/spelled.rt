ghost use Rattle.std.specs.Prelude.{◌≡◌, ◌<◌, true, false, length, IfOk, IfErr, IfSome, IfNone};
ghost use Rattle.ios_lex.specs.Stops.{BeginsWith, expected_of, LacksFirst};
ghost use Rattle.ios_acl.specs.Grammar.{ArePortsOf, IsExtended, IsProto, IsSentence, IsStandard, verdict_word};
ghost use Rattle.ios_acl.specs.Reading.{Sentence};
ghost use Rattle.ios_acl.specs.Stops.{IsStop};
ghost use Rattle.ios_acl.specs.Parts.{SomeExtended, SomePortsOf, SomeProto, SomeSourceEnd};

use crate::endings::options;
use crate::entry::{Entry, Ports, Verdict};
use crate::places::{place, source_end};
use crate::port_tests::ports;
use ios_lex::{Due, Stop, Word, protocol, stop_before};

/// The verdict that the word is.
pub fn verdict_of(word: &Word) -> Option<Verdict>
    ensures found { IfSome result (λ verdict. word.now ≡ verdict_word verdict) }
    ensures none { IfNone result ((verdict : Verdict) → word.now ≡ verdict_word verdict → ⊥) }
{
    match word.bytes() {
        b"permit" => Some(Verdict::Permit),
        b"deny" => Some(Verdict::Deny),
        _ => None,
    }
}

/// The protocol that the words begin with, None for `ip`, and the words behind it.
fn proto_next(words: &[Word]) -> Result<(Option<u8>, &[Word]), Stop>
    ensures read { IfOk result (λ found. BeginsWith (IsProto found.0) words.now found.1.now) }
    ensures stop { IfErr result (IsStop SomeProto words.now) }
    ensures part { IfErr result (λ stop. (expected_of stop.due).whole ≡ false) }
{
    let Some((first, rest)) = words.split_first() else {
        return Err(stop_before(words, Due::Number));
    };
    if first.is("ip") {
        return Ok((None, rest));
    }
    let Some(proto) = protocol(first.bytes()) else {
        return Err(stop_before(words, Due::Number));
    };
    Ok((Some(proto), rest))
}

/// The test of the source's ports that the words may begin with, where the protocol has ports.
fn source_ports(words: &[Word], proto: Option<u8>) -> Result<(Ports, &[Word]), Stop>
    ensures read { IfOk result
        (λ found. BeginsWith (ArePortsOf false proto found.0) words.now found.1.now) }
    ensures skipped { IfOk result
        (λ found. found.1.now ≡ words.now → LacksFirst (SomePortsOf proto true) words.now) }
    ensures stop { IfErr result (IsStop (SomePortsOf proto) words.now) }
    ensures part { IfErr result (λ stop. (expected_of stop.due).whole ≡ false) }
    ensures later { IfErr result (λ stop. stop.left < length words.now) }
{
    match proto {
        Some(6) => ports(words, true),
        Some(17) => ports(words, false),
        _ => Ok((Ports::Any, words)),
    }
}

/// The entry that the words behind `permit` or `deny` spell in an extended list. Its number is 0.
fn extended_entry(words: &[Word], verdict: Verdict) -> Result<Entry, Stop>
    ensures verdict { IfOk result (λ entry. entry.verdict ≡ verdict) }
    ensures read { IfOk result (λ entry. IsExtended false entry words.now) }
    ensures stop { IfErr result (IsStop SomeExtended words.now) }
{
    let (proto, rest) = proto_next(words)?;
    let (src, rest) = place(rest)?;
    let (sport, rest) = source_ports(rest, proto)?;
    let (dst, rest) = place(rest)?;
    let (dport, icmp, established) = options(rest, proto)?;
    Ok(Entry {
        number: 0,
        verdict,
        proto,
        src,
        dst,
        sport,
        dport,
        icmp,
        established,
    })
}

/// The entry that the words behind `permit` or `deny` spell in a standard list. Its number is 0.
fn standard_entry(words: &[Word], verdict: Verdict) -> Result<Entry, Stop>
    ensures verdict { IfOk result (λ entry. entry.verdict ≡ verdict) }
    ensures read { IfOk result (λ entry. IsStandard entry words.now) }
    ensures stop { IfErr result (IsStop SomeSourceEnd words.now) }
{
    let src = source_end(words)?;
    Ok(Entry {
        number: 0,
        verdict,
        proto: None,
        src,
        dst: (0, u32::MAX),
        sport: Ports::Any,
        dport: Ports::Any,
        icmp: None,
        established: false,
    })
}

/// The entry that the words spell, and None for a remark. Its number is 0, since it does not stand in them.
pub fn sentence(words: &[Word], extended: bool) -> Result<Option<Entry>, Stop>
    ensures read { IfOk result (IsSentence extended false words.now) }
    ensures stop { IfErr result (IsStop (Sentence extended) words.now) }
{
    let Some((first, rest)) = words.split_first() else {
        return Err(stop_before(words, Due::Keyword));
    };
    if first.is("remark") {
        return Ok(None);
    }
    let Some(verdict) = verdict_of(first) else {
        return Err(stop_before(words, Due::Keyword));
    };
    let entry = if extended {
        extended_entry(rest, verdict)?
    } else {
        standard_entry(rest, verdict)?
    };
    Ok(Some(entry))
}
