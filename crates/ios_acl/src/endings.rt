ghost use Rattle.std.specs.Prelude.{◌≡◌, false, IfOk, IfErr};
ghost use Rattle.ios_acl.specs.Grammar.{IsLog};
ghost use Rattle.ios_acl.specs.Stops.{IsStop};
ghost use Rattle.ios_acl.specs.Parts.{IsCodeEnd, IsConnectionEnd, IsEnd, IsMessageEnd, is_log_next, is_log_word, SomeCodeEnd, SomeConnectionEnd, SomeEnd, SomeLog, SomeMessageEnd};

use crate::entry::Ports;
use crate::port_tests::ports;
use ios_lex::{Due, Stop, Word, icmp, number, stop_before};

/// The words are at their end, but for a word on logging: `log`, and in an extended list `log-input`.
pub fn end(words: &[Word], extended: bool) -> Result<(), Stop>
    ensures read { IfOk result (λ _. IsLog extended words.now) }
    ensures stop { IfErr result (IsStop (SomeLog extended) words.now) }
{
    let Some((first, rest)) = words.split_first() else {
        return Ok(());
    };
    if !is_log(first, extended) {
        return Err(stop_before(words, Due::Nothing));
    }
    if !rest.is_empty() {
        return Err(stop_before(rest, Due::Nothing));
    }
    Ok(())
}

/// Whether the word is one on logging.
fn is_log(word: &Word, extended: bool) -> bool
    ensures { result ≡ is_log_word extended word.now }
{
    word.is("log") || extended && word.is("log-input")
}

/// Whether the words of an extended entry are at their end, or go on with a word on logging.
fn is_at_end(words: &[Word]) -> bool
    ensures { result ≡ is_log_next words.now }
{
    match words.first() {
        Some(first) => is_log(first, true),
        None => true,
    }
}

/// The ICMP messages that the last words of an entry are for: a type or a name, or a type and a code.
fn message_end(words: &[Word]) -> Result<Option<(u8, Option<u8>)>, Stop>
    ensures read { IfOk result (λ icmp. IsMessageEnd icmp words.now) }
    ensures stop { IfErr result (IsStop SomeMessageEnd words.now) }
{
    if is_at_end(words) {
        end(words, true)?;
        return Ok(None);
    }
    let Some((first, rest)) = words.split_first() else {
        return Ok(None);
    };
    if let Some(kind) = number(first.bytes(), 255) {
        let code = code_end(rest)?;
        return Ok(Some((kind as u8, code)));
    }
    let Some(message) = icmp(first.bytes()) else {
        return Err(stop_before(words, Due::NameOrEnd));
    };
    end(rest, true)?;
    Ok(Some(message))
}

/// The code behind the type of an ICMP message, where there is one.
fn code_end(words: &[Word]) -> Result<Option<u8>, Stop>
    ensures read { IfOk result (λ code. IsCodeEnd code words.now) }
    ensures stop { IfErr result (IsStop SomeCodeEnd words.now) }
{
    if is_at_end(words) {
        end(words, true)?;
        return Ok(None);
    }
    let Some((first, rest)) = words.split_first() else {
        return Ok(None);
    };
    let Some(code) = number(first.bytes(), 255) else {
        return Err(stop_before(words, Due::NumberOrEnd));
    };
    end(rest, true)?;
    Ok(Some(code as u8))
}

/// Whether the last words of an entry for TCP ask for an established connection.
fn connection_end(words: &[Word]) -> Result<bool, Stop>
    ensures read { IfOk result (λ established. IsConnectionEnd established words.now) }
    ensures stop { IfErr result (IsStop SomeConnectionEnd words.now) }
{
    match words.split_first() {
        Some((first, rest)) if first.is("established") => {
            end(rest, true)?;
            Ok(true)
        }
        _ => {
            end(words, true)?;
            Ok(false)
        }
    }
}

/// What the words behind the destination say: its ports, the ICMP messages, and whether the connection is established.
pub fn options(
    words: &[Word],
    proto: Option<u8>,
) -> Result<(Ports, Option<(u8, Option<u8>)>, bool), Stop>
    ensures read { IfOk result (λ found. IsEnd false proto found.0 found.1 found.2 words.now) }
    ensures stop { IfErr result (IsStop (SomeEnd proto) words.now) }
{
    match proto {
        Some(1) => Ok((Ports::Any, message_end(words)?, false)),
        Some(6) => {
            let (ports, rest) = ports(words, true)?;
            Ok((ports, None, connection_end(rest)?))
        }
        Some(17) => {
            let (ports, rest) = ports(words, false)?;
            end(rest, true)?;
            Ok((ports, None, false))
        }
        _ => {
            end(words, true)?;
            Ok((Ports::Any, None, false))
        }
    }
}
