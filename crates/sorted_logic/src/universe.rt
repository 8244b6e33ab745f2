//! Finite universes as they are kept.

use sqlite_items::Items;
use std::alloc::Global;
use std::marker::Model;

/// The value of a function at some elements.
#[derive(Drop)]
pub struct Entry {
    pub args: Items<u64>,
    pub value: u64,
}

/// A universe whose elements are the numbers below its size.
#[derive(Drop)]
pub struct FiniteUniverse {
    pub(crate) alloc: Global,
    pub(crate) size: u64,
    /// For each sort, which elements lie in it.
    pub(crate) members: Vec<Items<bool>>,
    /// For each function its values, in the order in which they were put.
    pub(crate) values: Vec<Items<Entry>>,
    /// For each relation the elements of which it holds.
    pub(crate) facts: Vec<Items<Items<u64>>>,
    /// For each element the number that it carries.
    pub(crate) numbers: Vec<Option<u128>>,
}

impl Model for FiniteUniverse {
    ghost use Rattle.std.specs.Prelude.{◌≡◌, length};
    ghost use Rattle.std.specs.List.{AllByRecursion};
    ghost use Rattle.sorted_logic.specs.Finite.{Table};

    ghost Value = { Table };

    ghost view = { λ u. record {
      size = u.size;
      members = u.members.items;
      values = u.values.items;
      facts = u.facts.items;
      numbers = u.numbers.items;
    } };

    ghost invariant = { λ u. AllByRecursion (λ row. length row ≡ u.size) u.members.items
        × (length u.numbers.items ≡ u.size) };
}
