use sorted_logic::Text;
use sqlite_items::Items;

/// A term, whose names are looked up later.
#[cycle(term)]
#[derive(Debug, Drop)]
pub enum NamedTerm {
    Name(Text),
    Call { name: Text, args: Items<Arg> },
}

/// An argument: `<req>`, which stands for the fifteen fields of a request, or a term.
#[cycle(term)]
#[derive(Debug, Drop)]
pub enum Arg {
    Req,
    Term(NamedTerm),
}
