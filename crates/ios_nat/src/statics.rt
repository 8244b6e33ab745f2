ghost use Rattle.std.specs.Prelude.{◌≡◌, true, IfOk, IfErr};
ghost use Rattle.ios_lex.specs.NextWords.{NoName};
ghost use Rattle.ios_lex.specs.Stops.{IsStop};
ghost use Rattle.ios_nat.specs.declared.kind.Kind.TheVariants as kinds;
ghost use Rattle.ios_nat.specs.Grammar.{AreOptions, Line};
ghost use Rattle.ios_nat.specs.Parts.{IsGlobalEnd, IsPortEnd, IsStatic, Options, SomeGlobalEnd, SomePortEnd};

use crate::entry::{AddressEntry, PortEntry};
use ios_lex::{Due, Stop, Word, address, next_address, next_number, stop_before};

const TCP: u8 = 6;

const UDP: u8 = 17;

/// A static entry of one of the two forms.
#[derive(Clone, Copy)]
pub(crate) enum StaticEntry {
    Port(PortEntry),
    Address(AddressEntry),
}

/// The words are at their end, but for `extendable` and `no-alias`, where these may still stand.
fn options(words: &[Word], extendable: bool, alias: bool) -> Result<(), Stop>
    ensures read { IfOk result (λ _. AreOptions extendable alias words.now) }
    ensures stop { IfErr result (IsStop NoName (Options extendable alias) words.now) }
{
    let Some((first, rest)) = words.split_first() else {
        return Ok(());
    };
    if extendable && first.is("extendable") {
        return options(rest, false, alias);
    }
    if alias && first.is("no-alias") {
        return options(rest, extendable, false);
    }
    Err(stop_before(words, Due::Nothing))
}

/// The entry for a port of this protocol that the words behind the protocol spell.
fn port_end(words: &[Word], proto: u8) -> Result<PortEntry, Stop>
    ensures proto { IfOk result (λ entry. entry.proto ≡ proto) }
    ensures read { IfOk result (λ entry. IsPortEnd entry words.now) }
    ensures stop { IfErr result (IsStop NoName SomePortEnd words.now) }
{
    let (local, rest) = next_address(words)?;
    let (local_port, rest) = next_number(rest, 0, 65_535)?;
    let (global, rest) = next_address(rest)?;
    let (global_port, rest) = next_number(rest, 0, 65_535)?;
    options(rest, true, true)?;
    Ok(PortEntry {
        proto,
        local,
        local_port: local_port as u16,
        global,
        global_port: global_port as u16,
    })
}

/// The global address of an entry, behind its local one.
fn global_end(words: &[Word]) -> Result<u32, Stop>
    ensures read { IfOk result (λ global. IsGlobalEnd global words.now) }
    ensures stop { IfErr result (IsStop NoName SomeGlobalEnd words.now) }
{
    let (global, rest) = next_address(words)?;
    options(rest, true, true)?;
    Ok(global)
}

/// The static entry that the words behind `ip nat inside source static` spell.
pub(crate) fn static_entry(words: &[Word]) -> Result<StaticEntry, Stop>
    ensures read { IfOk result (λ entry. IsStatic entry words.now) }
    ensures stop { IfErr result (IsStop NoName (Line kinds.Static) words.now) }
{
    let Some((first, rest)) = words.split_first() else {
        return Err(stop_before(words, Due::Address));
    };
    if first.is("tcp") {
        let entry = port_end(rest, TCP)?;
        return Ok(StaticEntry::Port(entry));
    }
    if first.is("udp") {
        let entry = port_end(rest, UDP)?;
        return Ok(StaticEntry::Port(entry));
    }
    let Some(local) = address(first.bytes()) else {
        return Err(stop_before(words, Due::Address));
    };
    let global = global_end(rest)?;
    Ok(StaticEntry::Address(AddressEntry { local, global }))
}
