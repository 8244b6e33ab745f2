use crate::term::{Rel, Sort, Term};
use sqlite_items::{Boxed, Items};

/// A test of the number that an element carries.
#[derive(Clone, Copy, Debug, Drop, PartialEq, Eq)]
pub enum Test {
    /// The number agrees with the value on each bit that is 0 in the wildcard.
    Masked { value: u128, wildcard: u128 },
    /// The number is one from low to high, both included.
    Range { low: u128, high: u128 },
}

/// A sentence of order-sorted logic, or one with free variables.
#[derive(Drop)]
pub enum Formula {
    True,
    False,
    Not(Boxed<Formula>),
    And(Items<Formula>),
    Or(Items<Formula>),
    Implies(Boxed<Formula>, Boxed<Formula>),
    /// Grouped to the left: of three parts, the first two say the same exactly where the third is true.
    Iff(Items<Formula>),
    Forall(Sort, Boxed<Formula>),
    Exists(Sort, Boxed<Formula>),
    Equal(Term, Term),
    /// The element lies in the sort.
    InSort(Sort, Term),
    Holds(Rel, Items<Term>),
    NumberTest(Term, Test),
    /// A policy, by its place in a set, makes the decision, by its place in the policy's list, about these arguments.
    Decides {
        policy: u32,
        decision: u32,
        args: Items<Term>,
    },
    /// A rule of a policy, by its place, matches these arguments, or applies to them.
    RuleIs {
        policy: u32,
        rule: u32,
        applies: bool,
        args: Items<Term>,
    },
}
