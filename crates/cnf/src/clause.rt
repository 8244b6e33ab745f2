ghost use Rattle.std.specs.Prelude.{◌≡◌, IfOk, length, true};
ghost use Rattle.std.specs.Bool.{OnTrue};
ghost use Rattle.cnf.specs.Clauses.{IsInRange, clause_holds};

use crate::NoMemory;
use crate::lit::Lit;
use smallvec::SmallVec;
use std::alloc::Global;
use std::marker::Model;

/// A clause: it holds where one of its literals does. Up to three literals take no allocation.
#[derive(Debug, Drop)]
pub struct Clause {
    lits: SmallVec<Lit, 3>,
}

impl Model for Clause {
    ghost use Rattle.std.specs.Prelude.{List};
    ghost use Rattle.cnf.specs.declared.lit.Lit.{Lit};

    ghost Value = { List Lit };

    ghost view = { λ c. c.lits.items };
}

/// Whether each variable of the literals is below `vars`.
pub fn are_in_range(vars: usize, lits: &[Lit]) -> bool
    ensures yes { OnTrue result (IsInRange vars lits.now) }
    ensures no { IsInRange vars lits.now → result ≡ true }
{
    lits.iter().all(|lit| lit.var < vars)
}

impl Clause {
    /// The clause of these literals, in this order.
    pub fn from_lits(alloc: Global, lits: &[Lit]) -> Result<Clause, NoMemory>
        ensures { IfOk result (λ clause. clause ≡ lits.now) }
    {
        Ok(Clause {
            lits: SmallVec::from_slice(alloc, lits)?,
        })
    }

    pub fn copy(&self, alloc: Global) -> Result<Clause, NoMemory>
        ensures { IfOk result (λ clause. clause ≡ self.now) }
    {
        Clause::from_lits(alloc, self.lits())
    }

    #[inline]
    pub fn lits(&self) -> &[Lit]
        ensures { result.now ≡ self.now }
    {
        self.lits.as_slice()
    }

    /// Whether one of its literals is true. There is a value for each of its variables.
    pub fn holds(&self, values: &[bool]) -> bool
        requires { IsInRange (length values.now) self.now }
        ensures { result ≡ clause_holds values.now self.now }
    {
        for lit in self.lits() {
            if lit.holds(values) {
                return true;
            }
        }
        false
    }
}
