ghost use Rattle.std.specs.Prelude.{◌≡◌, ◌⊎◌, ◌<◌, ◌≤◌, ◌∷◌, true, false, length, IsTrue, IfOk, IfErr};
ghost use Rattle.ios_lex.specs.Refusal.{is_among};
ghost use Rattle.ios_lex.specs.Stops.{BeginsWith, expected_of, LacksFirst};
ghost use Rattle.ios_acl.specs.declared.entry.Ports.TheVariants as ports_of;
ghost use Rattle.ios_acl.specs.Grammar.{ArePorts, ports_above, ports_below};
ghost use Rattle.ios_acl.specs.Stops.{IsStop};
ghost use Rattle.ios_acl.specs.Parts.{IsPortOf, port_words, SomePort, SomePortFrom, SomePorts};

use crate::entry::Ports;
use ios_lex::{Due, Stop, Word, port, stop_before};

/// The port that the words begin with, and the words behind it.
fn port_next(words: &[Word], tcp: bool) -> Result<(u16, &[Word]), Stop>
    ensures read { IfOk result (λ found. BeginsWith (IsPortOf tcp found.0) words.now found.1.now) }
    ensures stop { IfErr result (IsStop (SomePort tcp) words.now) }
    ensures part { IfErr result (λ stop. (expected_of stop.due).whole ≡ false) }
{
    let Some((first, rest)) = words.split_first() else {
        return Err(stop_before(words, Due::Number));
    };
    let Some(found) = port(first.bytes(), tcp) else {
        return Err(stop_before(words, Due::Number));
    };
    Ok((found, rest))
}

/// The last port of a range that begins with this one, and the words behind it.
fn port_from(words: &[Word], tcp: bool, low: u16) -> Result<(u16, &[Word]), Stop>
    ensures order { IfOk result (λ found. low ≤ found.0) }
    ensures read { IfOk result (λ found. BeginsWith (IsPortOf tcp found.0) words.now found.1.now) }
    ensures stop { IfErr result (IsStop (SomePortFrom tcp low) words.now) }
    ensures part { IfErr result (λ stop. (expected_of stop.due).whole ≡ false) }
{
    let Some((first, rest)) = words.split_first() else {
        return Err(stop_before(words, Due::Number));
    };
    let Some(high) = port(first.bytes(), tcp) else {
        return Err(stop_before(words, Due::Number));
    };
    if high < low {
        return Err(stop_before(words, Due::Order));
    }
    Ok((high, rest))
}

/// The ports before this one.
fn below(port: u16) -> Ports
    ensures { result ≡ ports_below port }
{
    if port == 0 {
        Ports::Nothing
    } else {
        Ports::Within(0, port - 1)
    }
}

/// The ports behind this one.
fn above(port: u16) -> Ports
    ensures { result ≡ ports_above port }
{
    if port == u16::MAX {
        Ports::Nothing
    } else {
        Ports::Within(port + 1, u16::MAX)
    }
}

/// Whether the word begins a test of ports.
fn begins_test(word: &Word) -> bool
    ensures { result ≡ is_among port_words word.now }
{
    word.is("eq") || word.is("neq") || word.is("lt") || word.is("gt") || word.is("range")
}

/// The test of ports that the words begin with, and the words behind it.
fn port_test<'a>(first: &Word, rest: &'a [Word], tcp: bool) -> Result<(Ports, &'a [Word]), Stop>
    requires { IsTrue (is_among port_words first.now) }
    ensures read { IfOk result
        (λ found. BeginsWith (ArePorts false tcp found.0) (first.now ∷ rest.now) found.1.now) }
    ensures stop { IfErr result (IsStop (SomePorts tcp) (first.now ∷ rest.now)) }
    ensures part { IfErr result (λ stop. (expected_of stop.due).whole ≡ false) }
    ensures later { IfErr result (λ stop. stop.left ≤ length rest.now) }
{
    let (low, others) = port_next(rest, tcp)?;
    if first.is("eq") {
        Ok((Ports::Within(low, low), others))
    } else if first.is("neq") {
        Ok((Ports::Not(low), others))
    } else if first.is("lt") {
        Ok((below(low), others))
    } else if first.is("gt") {
        Ok((above(low), others))
    } else {
        let (high, others) = port_from(others, tcp, low)?;
        Ok((Ports::Within(low, high), others))
    }
}

/// The test of ports that the words may begin with, and the words behind it.
pub fn ports(words: &[Word], tcp: bool) -> Result<(Ports, &[Word]), Stop>
    ensures read { IfOk result
        (λ found. BeginsWith (ArePorts false tcp found.0) words.now found.1.now
        ⊎ (found.0 ≡ ports_of.Any) × (found.1.now ≡ words.now)
        × LacksFirst (SomePorts tcp true) words.now) }
    ensures stop { IfErr result (IsStop (SomePorts tcp) words.now) }
    ensures part { IfErr result (λ stop. (expected_of stop.due).whole ≡ false) }
    ensures later { IfErr result (λ stop. stop.left < length words.now) }
{
    match words.split_first() {
        Some((first, rest)) if begins_test(first) => port_test(first, rest, tcp),
        _ => Ok((Ports::Any, words)),
    }
}
