use sqlite_items::Items;

/// A sort's place in a signature, from 0 in order of declaration.
#[derive(Clone, Copy, Debug, Drop, PartialEq, Eq)]
pub struct Sort(pub u64);

/// A function's place in a signature, from 0 in order of declaration.
#[derive(Clone, Copy, Debug, Drop, PartialEq, Eq)]
pub struct Func(pub u64);

/// A relation's place in a signature, from 0 in order of declaration.
#[derive(Clone, Copy, Debug, Drop, PartialEq, Eq)]
pub struct Rel(pub u64);

/// A term. Free variables have the numbers from 0, and a quantifier binds the next number.
#[derive(Drop)]
pub enum Term {
    Var(u32),
    Call(Func, Items<Term>),
}
