ghost use Rattle.std.specs.Prelude.{◌≡◌, ◌↔◌, ◌∷◌, [], ◌++◌, IfOk, IsTrue};
ghost use Rattle.std.specs.Fmt.{decimal};
ghost use Rattle.ios_lex.specs.Address.{dotted};
ghost use Rattle.ios_acl.specs.Block as specs;
ghost use Rattle.ios_acl.specs.Grammar as grammar;
ghost use Rattle.ios_acl.specs.Block.{IsBlock, IsBlockName};
ghost use Rattle.ios_acl.specs.Spelling.{behind_blanks, block_text, entry_line, established_words, match_words, message_words, opening_line, place_words, ports_words, proto_word, range_words};

use crate::access_list::Acl;
use crate::entry::{Entry, Ports, Verdict};
use ios_lex::{Dotted, is_name, is_number_of};
use std::alloc::{AllocError, Global};

/// Writes the list as a named block of a configuration, which is read as this list: a line `ip access-list`, the kind
/// and the name, and an indented line for each entry, its number first.
pub fn write_acl(alloc: Global, acl: &Acl) -> Result<Vec<u8>, AllocError>
    requires name { IsBlockName acl.now.extended acl.now.name }
    ensures block { IfOk result (λ text. IsBlock text.items acl.now) }
    ensures text { IfOk result (λ text. text.items ≡ block_text acl.now) }
{
    let mut text = Vec::new(alloc);
    let extended = acl.is_extended();
    push_opening(&mut text, acl.name().bytes(), extended)?;
    for entry in acl.entries() {
        push_entry(alloc, &mut text, entry, extended)?;
    }
    Ok(text)
}

/// Whether a list of this name and kind can be written as a named block: the name is not empty, its bytes are from 33
/// to 126 and no double quote, and it is no number of a list of the other kind.
pub fn is_block_name(name: &[u8], extended: bool) -> bool
    ensures { IsTrue result ↔ IsBlockName extended name.now }
{
    !name.is_empty() && is_name(name) && !is_number_of(name, !extended)
}

/// Writes the line that opens the block.
fn push_opening(text: &mut Vec<u8>, name: &[u8], extended: bool) -> Result<(), AllocError>
    ensures { IfOk result (λ _. text.new.items ≡ text.old.items ++ opening_line extended name.now) }
{
    text.extend_from_slice(b"ip")?;
    push_word(text, b"access-list")?;
    push_word(text, kind_word(extended))?;
    push_word(text, name)?;
    text.push(b'\n')?;
    Ok(())
}

fn kind_word(extended: bool) -> &'static [u8]
    ensures { result.now ≡ specs.kind_word extended }
{
    if extended { b"extended" } else { b"standard" }
}

/// Writes the line of an entry of a list of this kind.
fn push_entry(
    alloc: Global,
    text: &mut Vec<u8>,
    entry: &Entry,
    extended: bool,
) -> Result<(), AllocError>
    ensures { IfOk result (λ _. text.new.items ≡ text.old.items ++ entry_line extended entry.now) }
{
    push_number(alloc, text, u64::from(entry.number))?;
    push_word(text, verdict_word(entry.verdict))?;
    push_match(alloc, text, entry, extended)?;
    text.push(b'\n')?;
    Ok(())
}

fn verdict_word(verdict: Verdict) -> &'static [u8]
    ensures { result.now ≡ grammar.verdict_word verdict }
{
    match verdict {
        Verdict::Permit => b"permit",
        Verdict::Deny => b"deny",
    }
}

/// Writes what the entry matches.
fn push_match(
    alloc: Global,
    text: &mut Vec<u8>,
    entry: &Entry,
    extended: bool,
) -> Result<(), AllocError>
    ensures { IfOk result
        (λ _. text.new.items ≡ text.old.items ++ behind_blanks (match_words extended entry.now)) }
{
    if !extended {
        return push_place(alloc, text, entry.src);
    }
    push_proto(alloc, text, entry.proto)?;
    push_place(alloc, text, entry.src)?;
    push_ports(alloc, text, entry.sport)?;
    push_place(alloc, text, entry.dst)?;
    push_ports(alloc, text, entry.dport)?;
    push_message(alloc, text, entry.icmp)?;
    push_established(text, entry.established)
}

/// Writes `host` and an address, `any`, or an address and a wildcard.
fn push_place(alloc: Global, text: &mut Vec<u8>, place: (u32, u32)) -> Result<(), AllocError>
    ensures { IfOk result
        (λ _. text.new.items ≡ text.old.items ++ behind_blanks (place_words place)) }
{
    if place.1 == 0 {
        push_word(text, b"host")?;
        return push_address(alloc, text, place.0);
    }
    if place.0 == 0 && place.1 == u32::MAX {
        return push_word(text, b"any");
    }
    push_address(alloc, text, place.0)?;
    push_address(alloc, text, place.1)
}

/// Writes `ip`, or the name or the number of a protocol.
fn push_proto(alloc: Global, text: &mut Vec<u8>, proto: Option<u8>) -> Result<(), AllocError>
    ensures { IfOk result
        (λ _. text.new.items ≡ text.old.items ++ behind_blanks (proto_word proto ∷ [])) }
{
    match proto {
        None => push_word(text, b"ip"),
        Some(1) => push_word(text, b"icmp"),
        Some(6) => push_word(text, b"tcp"),
        Some(17) => push_word(text, b"udp"),
        Some(n) => push_number(alloc, text, u64::from(n)),
    }
}

/// Writes a test of ports, or nothing where every port passes.
fn push_ports(alloc: Global, text: &mut Vec<u8>, ports: Ports) -> Result<(), AllocError>
    ensures { IfOk result
        (λ _. text.new.items ≡ text.old.items ++ behind_blanks (ports_words ports)) }
{
    match ports {
        Ports::Any => Ok(()),
        Ports::Within(low, high) => push_range(alloc, text, low, high),
        Ports::Not(port) => {
            push_word(text, b"neq")?;
            push_number(alloc, text, u64::from(port))
        }
        Ports::Nothing => {
            push_word(text, b"lt")?;
            push_number(alloc, text, 0)
        }
    }
}

/// Writes a test of the ports from the first to the last.
fn push_range(alloc: Global, text: &mut Vec<u8>, low: u16, high: u16) -> Result<(), AllocError>
    ensures { IfOk result
        (λ _. text.new.items ≡ text.old.items ++ behind_blanks (range_words low high)) }
{
    if low == high {
        push_word(text, b"eq")?;
        return push_number(alloc, text, u64::from(low));
    }
    push_word(text, b"range")?;
    push_number(alloc, text, u64::from(low))?;
    push_number(alloc, text, u64::from(high))
}

/// Writes an ICMP type and perhaps a code, or nothing.
fn push_message(
    alloc: Global,
    text: &mut Vec<u8>,
    icmp: Option<(u8, Option<u8>)>,
) -> Result<(), AllocError>
    ensures { IfOk result
        (λ _. text.new.items ≡ text.old.items ++ behind_blanks (message_words icmp)) }
{
    let Some((kind, code)) = icmp else {
        return Ok(());
    };
    push_number(alloc, text, u64::from(kind))?;
    match code {
        None => Ok(()),
        Some(code) => push_number(alloc, text, u64::from(code)),
    }
}

fn push_established(text: &mut Vec<u8>, established: bool) -> Result<(), AllocError>
    ensures { IfOk result
        (λ _. text.new.items ≡ text.old.items ++ behind_blanks (established_words established)) }
{
    if established {
        push_word(text, b"established")
    } else {
        Ok(())
    }
}

/// Writes the four bytes of an address joined by dots.
fn push_address(alloc: Global, text: &mut Vec<u8>, address: u32) -> Result<(), AllocError>
    ensures { IfOk result
        (λ _. text.new.items ≡ text.old.items ++ behind_blanks (dotted address ∷ [])) }
{
    let address = Dotted(address);
    let word = format!(in alloc; "{address}")?;
    push_word(text, word.as_bytes())
}

fn push_number(alloc: Global, text: &mut Vec<u8>, n: u64) -> Result<(), AllocError>
    ensures { IfOk result (λ _. text.new.items ≡ text.old.items ++ behind_blanks (decimal n ∷ [])) }
{
    let word = format!(in alloc; "{n}")?;
    push_word(text, word.as_bytes())
}

/// Writes the word behind a blank.
fn push_word(text: &mut Vec<u8>, word: &[u8]) -> Result<(), AllocError>
    ensures { IfOk result (λ _. text.new.items ≡ text.old.items ++ behind_blanks (word.now ∷ [])) }
{
    text.push(b' ')?;
    text.extend_from_slice(word)
}
