ghost use Rattle.std.specs.Prelude.{◌≡◌, ◌++◌, codes, IfOk, OnOk};
ghost use Rattle.std.specs.String.{string_bytes};
ghost use Rattle.session.specs.RunLines.{fault_line, reason_word, refused_line};

use crate::ended::Reason;
use std::alloc::{AllocError, Global};

/// What is written where the words are not of the stated form.
pub const USAGE: &str = "usage: margrave SCRIPT\n";

/// What is written of a file whose read failed.
#[tactic(auto, unfolding(crate::specs::RunLines::fault_line))]
pub fn fault_text(alloc: Global, file: &str) -> Result<String, AllocError>
    ensures { IfOk result (λ text. string_bytes text ≡ fault_line file.now) }
{
    format!(in alloc; "read fault: {file}\n")
}

/// What is written of a text that is refused, at this line of this file. Bytes, since a word that is not modelled may be
/// no text.
#[tactic(auto, unfolding(crate::specs::RunLines::refused_line))]
pub fn refused_text(
    alloc: Global,
    file: &str,
    line: u64,
    reason: &Reason,
) -> Result<Vec<u8>, AllocError>
    ensures { IfOk result (λ text. text.items ≡ refused_line file.now line reason.now) }
{
    let place = format!(in alloc; "refused: {file}:{line}: ")?;
    let mut text = Vec::from_slice(alloc, place.as_bytes())?;
    push_reason(&mut text, reason)?;
    text.extend_from_slice(b"\n")?;
    Ok(text)
}

fn push_reason(text: &mut Vec<u8>, reason: &Reason) -> Result<(), AllocError>
    ensures { OnOk result (text.new.items ≡ text.old.items ++ reason_word reason.now) }
{
    match reason {
        Reason::Unmodelled(word) => push_unmodelled(text, word.bytes()),
        Reason::TooLong { .. } => text.extend_from_slice(b"TooLong"),
        Reason::NotBuilt => text.extend_from_slice(b"NotBuilt"),
        Reason::Syntax => text.extend_from_slice(b"Syntax"),
        Reason::Depth => text.extend_from_slice(b"Depth"),
        Reason::Arity => text.extend_from_slice(b"Arity"),
        Reason::Duplicate => text.extend_from_slice(b"Duplicate"),
        Reason::UnknownPolicy => text.extend_from_slice(b"UnknownPolicy"),
        Reason::OutOfRange => text.extend_from_slice(b"OutOfRange"),
        Reason::NoExplore => text.extend_from_slice(b"NoExplore"),
        Reason::BadAddress => text.extend_from_slice(b"BadAddress"),
        Reason::BadNumber => text.extend_from_slice(b"BadNumber"),
        Reason::UnknownName => text.extend_from_slice(b"UnknownName"),
        Reason::BadMask => text.extend_from_slice(b"BadMask"),
        Reason::WrongKind => text.extend_from_slice(b"WrongKind"),
        Reason::DuplicateSequence => text.extend_from_slice(b"DuplicateSequence"),
        Reason::BadEntry => text.extend_from_slice(b"BadEntry"),
        Reason::NextHopNotConnected => text.extend_from_slice(b"NextHopNotConnected"),
        Reason::UnknownInterface => text.extend_from_slice(b"UnknownInterface"),
        Reason::DuplicateStatic => text.extend_from_slice(b"DuplicateStatic"),
        Reason::DuplicatePool => text.extend_from_slice(b"DuplicatePool"),
        Reason::UnknownPool => text.extend_from_slice(b"UnknownPool"),
        Reason::Unclosed => text.extend_from_slice(b"Unclosed"),
        Reason::TooMany => text.extend_from_slice(b"TooMany"),
    }
}

fn push_unmodelled(text: &mut Vec<u8>, word: &[u8]) -> Result<(), AllocError>
    ensures { OnOk result (text.new.items ≡ text.old.items ++ (codes "Unmodelled " ++ word.now)) }
{
    text.extend_from_slice(b"Unmodelled ")?;
    text.extend_from_slice(word)?;
    Ok(())
}
