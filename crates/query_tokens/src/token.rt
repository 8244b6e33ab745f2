use crate::keyword::Keyword;
use sorted_logic::Text;

/// A sign that is a token by itself.
#[derive(Clone, Copy, Debug, PartialEq, Eq)]
pub enum Sign {
    Semicolon,
    Colon,
    Comma,
    Dot,
    Equals,
    Question,
    Open,
    Close,
    OpenBracket,
    CloseBracket,
    /// `<req>`, the fifteen fields of a request.
    Request,
}

/// A token of a script. A word begins with a letter, a digit or `_`, and goes on with these and `-`.
#[derive(Debug, Drop)]
pub enum Token {
    /// A word that is no name.
    Keyword(Keyword),
    /// A word that begins with a letter and is no keyword.
    Name(Text),
    /// A word of decimal digits alone.
    Digits(Text),
    /// Any other word.
    Word(Text),
    /// The text between two double quotes on one line.
    Quoted(Text),
    Sign(Sign),
    /// Bytes that are no token. No token stands behind it.
    Bad,
}

/// A token and its line.
#[derive(Debug, Drop)]
pub struct Placed {
    /// From 1.
    pub line: u64,
    pub token: Token,
}
