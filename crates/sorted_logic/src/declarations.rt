use crate::term::{Func, Rel, Sort};
use crate::text::Text;
use sqlite_items::Items;

/// A declared sort.
#[derive(Debug, Drop)]
pub struct SortDecl {
    pub name: Text,
    /// The direct supersort. A sort without one is a root.
    pub under: Option<Sort>,
    /// At an interpreted root alone: how many bits, from 1 to 128, the numbers of its elements have.
    pub bits: Option<u8>,
}

/// A declared function, a constant where it has no arguments.
#[derive(Debug, Drop)]
pub struct FuncDecl {
    pub name: Text,
    pub args: Items<Sort>,
    pub result: Sort,
}

/// A declared relation.
#[derive(Debug, Drop)]
pub struct RelDecl {
    pub name: Text,
    pub args: Items<Sort>,
}

/// What a name stands for.
#[derive(Clone, Copy, Debug, Drop, PartialEq, Eq)]
pub enum Symbol {
    Sort(Sort),
    Func(Func),
    Rel(Rel),
}
