ghost use Rattle.std.specs.Prelude.{◌≡◌, IfOk};

use crate::NoMemory;
use cnf::Clause;
use std::alloc::Global;
use std::marker::Model;

/// Numbers of clauses, from 1: the given clauses, then those of the steps in order.
#[derive(Debug, Drop)]
pub struct Numbers {
    numbers: Vec<usize>,
}

impl Model for Numbers {
    ghost use Rattle.std.specs.Prelude.{List, ℕ};

    ghost Value = { List ℕ };

    ghost view = { λ n. n.numbers.items };
}

impl Numbers {
    pub fn of(numbers: Vec<usize>) -> Numbers
        ensures { result ≡ numbers.items }
    {
        Numbers { numbers }
    }

    #[inline]
    pub fn as_slice(&self) -> &[usize]
        ensures { result.now ≡ self.now }
    {
        self.numbers.as_slice()
    }

    pub fn copy(&self, alloc: Global) -> Result<Numbers, NoMemory>
        ensures { IfOk result (λ copy. copy ≡ self.now) }
    {
        Ok(Numbers {
            numbers: Vec::from_slice(alloc, self.as_slice())?,
        })
    }
}

/// A clause that follows from those before it.
#[derive(Debug, Drop)]
pub struct Step {
    pub clause: Clause,
    /// The clauses that show it, in the order in which they propagate.
    pub hints: Numbers,
}

impl Step {
    pub fn copy(&self, alloc: Global) -> Result<Step, NoMemory>
        ensures { IfOk result (λ copy. copy ≡ self.now) }
    {
        Ok(Step {
            clause: self.clause.copy(alloc)?,
            hints: self.hints.copy(alloc)?,
        })
    }
}

#[derive(Debug, Drop)]
pub enum Item {
    Add(Step),
    /// These clauses are named no more.
    Delete(Numbers),
}

impl Item {
    pub fn copy(&self, alloc: Global) -> Result<Item, NoMemory>
        ensures { IfOk result (λ copy. copy ≡ self.now) }
    {
        match self {
            Item::Add(step) => Ok(Item::Add(step.copy(alloc)?)),
            Item::Delete(numbers) => Ok(Item::Delete(numbers.copy(alloc)?)),
        }
    }
}

/// Steps and deletions, in order.
#[derive(Debug, Drop)]
pub struct Derivation {
    items: Vec<Item>,
}

impl Model for Derivation {
    ghost use Rattle.std.specs.Prelude.{List};
    ghost use Rattle.certificates.specs.declared.derivation.Item.{Item};

    ghost Value = { List Item };

    ghost view = { λ d. d.items.items };
}

impl Derivation {
    pub fn of(items: Vec<Item>) -> Derivation
        ensures { result ≡ items.items }
    {
        Derivation { items }
    }

    #[inline]
    pub fn items(&self) -> &[Item]
        ensures { result.now ≡ self.now }
    {
        self.items.as_slice()
    }
}

/// A derivation for the question that begins at a line of a script.
#[derive(Debug, Drop)]
pub struct Certificate {
    pub line: u64,
    pub derivation: Derivation,
}
