ghost use Rattle.std.specs.Prelude.{◌≡◌, length};

use crate::word::Word;

/// What is due where words stop to begin a line.
#[derive(Clone, Copy, Debug, PartialEq, Eq)]
pub enum Due {
    /// One of some words that are neither numbers nor names.
    Keyword,
    Address,
    /// An address, or the end of the line or words that are none.
    AddressOrEnd,
    /// An address, a number, or the end of the line or words that are none of these.
    AddressOrNumberOrEnd,
    /// Any name, which may be spelled as an address or a number is; the word is none that the line allows there.
    Name,
    /// An address that is a mask, or that is in order with one before, as the last of a range with its first; the word is
    /// an address, and none that the line allows there.
    Mask,
    /// A number or a name.
    Number,
    /// A number in order with one before; the word is a number, and out of order.
    Order,
    /// A number or a name, or the end of the line or words that are neither.
    NameOrEnd,
    /// A number, or the end of the line or words that are none.
    NumberOrEnd,
    /// The end of the line, or words that are neither numbers nor names.
    Nothing,
}

/// Where words stop to begin a line.
#[derive(Clone, Copy, Debug, PartialEq, Eq)]
pub struct Stop {
    pub due: Due,
    /// How many words there are from the one that does not go on; 0 where they end too early.
    pub left: usize,
}

/// The stop before these words.
pub fn stop_before(words: &[Word], due: Due) -> Stop
    ensures due { result.due ≡ due }
    ensures left { result.left ≡ length words.now }
{
    Stop {
        due,
        left: words.len(),
    }
}
