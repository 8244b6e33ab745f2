use crate::literal::{Literal, Path};
use crate::term::{Arg, NamedTerm};
use sorted_logic::Text;
use sqlite_items::{Boxed, Items};

/// A formula, whose names are looked up later.
#[derive(Debug, Drop)]
pub enum Named {
    True,
    False,
    Not(Boxed<Named>),
    /// Two parts or more, joined by AND.
    And(Items<Named>),
    /// Two parts or more, joined by OR.
    Or(Items<Named>),
    Implies(Boxed<Named>, Boxed<Named>),
    /// Two parts or more, joined by IFF and grouped to the left.
    Iff(Items<Named>),
    Forall {
        name: Text,
        sort: Text,
        body: Boxed<Named>,
    },
    Exists {
        name: Text,
        sort: Text,
        body: Boxed<Named>,
    },
    /// What a policy decides, or a rule of it does, as `r.acl.101:permit(<req>)`.
    AtPath {
        path: Path,
        word: Text,
        args: Items<Arg>,
    },
    Equal(NamedTerm, NamedTerm),
    /// The term agrees with the value on each bit that is 0 in the wildcard.
    Masked(NamedTerm, Literal, Literal),
    /// The term lies between the two, which are the same where one alone is written.
    Range(NamedTerm, Literal, Literal),
    /// A relation, or a sort used as one.
    Holds {
        name: Text,
        args: Items<Arg>,
    },
}
