use crate::word::Word;

/// Why a line of a configuration is refused.
#[derive(Debug, Drop)]
pub enum IosReason {
    /// An address or a wildcard is due, and the word is none.
    BadAddress,
    /// A number is due, and the word begins with a digit and is none in range.
    BadNumber,
    /// A name is due, and the word is none that is known.
    UnknownName,
    /// A mask that is no prefix mask, or an address with bits outside its mask.
    BadMask,
    /// A list of the other kind.
    WrongKind,
    /// A sequence number that the list has already.
    DuplicateSequence,
    /// Too few words, too many, or a word that nothing allows there.
    BadEntry,
    /// Words that would change forwarding in a way that is not modelled.
    Unmodelled(Word),
    /// A static route whose next hop is in no connected network.
    NextHopNotConnected,
    /// A static route or a dynamic translation through an interface that the file does not have.
    UnknownInterface,
    /// A second static translation of one side.
    DuplicateStatic,
    /// A second pool of one name.
    DuplicatePool,
    /// A dynamic translation from a pool that the file does not have.
    UnknownPool,
    /// A banner without an end.
    Unclosed,
    /// More entries or interfaces than are read.
    TooMany,
}
