use sorted_logic::Text;
use sqlite_items::Items;

/// A name and its components, as `r.acl.101`. A component is a word, or what stands between quotes.
#[derive(Debug, Drop)]
pub struct Path {
    pub parts: Items<Text>,
}

/// A number, also where it is written as four bytes joined by dots, or the quoted name of an interface.
#[derive(Debug, Drop)]
pub enum Literal {
    Number(u128),
    Interface(Text),
}

/// A test of a field of a packet.
#[derive(Debug, Drop)]
pub enum NamedTest {
    /// The field agrees with the value on each bit that is 0 in the wildcard.
    Masked {
        field: Text,
        value: Literal,
        wildcard: Literal,
    },
    /// The field lies between the two, which may be the same.
    Range {
        field: Text,
        lo: Literal,
        hi: Literal,
    },
}
