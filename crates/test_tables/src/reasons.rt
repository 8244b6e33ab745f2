use crate::values::push_bytes;
use ios_lex::IosReason;
use std::test::Fail;

/// Writes why a line is refused, and of a word that is not modelled the word.
pub fn push_reason(text: &mut String, reason: &IosReason) -> Result<(), Fail> {
    if let IosReason::Unmodelled(word) = reason {
        text.push_str("unmodelled ")?;
        push_bytes(text, word.bytes())
    } else {
        text.push_str(name_of(reason))?;
        Ok(())
    }
}

fn name_of(reason: &IosReason) -> &str {
    match reason {
        IosReason::BadAddress => "bad address",
        IosReason::BadNumber => "bad number",
        IosReason::UnknownName => "unknown name",
        IosReason::BadMask => "bad mask",
        IosReason::WrongKind => "wrong kind",
        IosReason::DuplicateSequence => "duplicate sequence",
        IosReason::BadEntry => "bad entry",
        IosReason::NextHopNotConnected => "next hop not connected",
        IosReason::UnknownInterface => "unknown interface",
        IosReason::DuplicateStatic => "duplicate static",
        IosReason::DuplicatePool => "duplicate pool",
        IosReason::UnknownPool => "unknown pool",
        IosReason::Unclosed => "unclosed",
        IosReason::TooMany => "too many",
        IosReason::Unmodelled(_) => "unmodelled",
    }
}
