ghost use Rattle.std.specs.Prelude.{◌≡◌, ◌∷◌, [], All, IfOk, OnOk, OnErr, length};
ghost use Rattle.cnf.specs.Clauses.{IsInRange, all_hold, first_clauses, with_clauses};
ghost use Rattle.cnf.specs.declared.fault.CnfFault.TheVariants as fault;

use crate::NoMemory;
use crate::clause::{Clause, are_in_range};
use crate::fault::CnfFault;
use std::alloc::Global;
use std::marker::Model;

/// A conjunction of clauses over so many variables.
#[derive(Debug, Drop)]
pub struct Cnf {
    alloc: Global,
    vars: usize,
    clauses: Vec<Clause>,
}

impl Model for Cnf {
    ghost use Rattle.std.specs.Prelude.{All};
    ghost use Rattle.cnf.specs.Clauses.{Formula, IsInRange};

    ghost Value = { Formula };

    ghost view = { λ f. record { vars = f.vars; clauses = f.clauses.items } };

    ghost invariant = { λ f. All (IsInRange f.vars) f.clauses.items };
}

impl Cnf {
    /// A formula without clauses, over the variables from 0 to `vars`, the last one left out.
    pub fn new(alloc: Global, vars: usize) -> Cnf
        ensures { result ≡ record { vars = vars; clauses = [] } }
    {
        Cnf {
            alloc,
            vars,
            clauses: Vec::new(alloc),
        }
    }

    pub fn copy(&self, alloc: Global) -> Result<Cnf, NoMemory>
        ensures { IfOk result (λ copy. copy ≡ self.now) }
    {
        let mut clauses = Vec::with_capacity(alloc, self.clauses.len())?;
        for clause in &self.clauses {
            clauses.push(clause.copy(alloc)?)?;
        }
        Ok(Cnf {
            alloc,
            vars: self.vars,
            clauses,
        })
    }

    /// Adds a clause at the end. It is refused exactly where one of its variables is out of range.
    pub fn push(&mut self, clause: Clause) -> Result<(), CnfFault>
        ensures added { OnOk result (self.new ≡ with_clauses self.old (clause ∷ [])) }
        ensures in_range { OnOk result (IsInRange self.old.vars clause) }
        ensures range { result ≡ Err fault.VarRange → IsInRange self.old.vars clause → ⊥ }
        ensures memory { result ≡ Err fault.NoMemory → IsInRange self.old.vars clause }
        ensures err { OnErr result (self.new ≡ self.old) }
    {
        if !are_in_range(self.vars, clause.lits()) {
            return Err(CnfFault::VarRange);
        }
        if self.push_in_range(clause).is_err() {
            return Err(CnfFault::NoMemory);
        }
        Ok(())
    }

    /// The same for a clause whose variables are known to be in range.
    pub fn push_in_range(&mut self, clause: Clause) -> Result<(), NoMemory>
        requires { IsInRange self.old.vars clause }
        ensures added { OnOk result (self.new ≡ with_clauses self.old (clause ∷ [])) }
        ensures err { OnErr result (self.new ≡ self.old) }
    {
        self.clauses.push(clause)?;
        Ok(())
    }

    /// Leaves the first `count` clauses, or all where there are fewer.
    pub fn truncate(&mut self, count: usize)
        ensures { self.new ≡ first_clauses count self.old }
    {
        self.clauses.truncate(count);
    }

    /// How many variables there are.
    pub fn vars(&self) -> usize
        ensures { result ≡ self.now.vars }
    {
        self.vars
    }

    /// The clauses, in the order in which they were added.
    pub fn clauses(&self) -> &[Clause]
        ensures clauses { result.now ≡ self.now.clauses }
        ensures in_range { All (IsInRange self.now.vars) self.now.clauses }
    {
        self.clauses.as_slice()
    }

    /// Whether each clause holds of these values, one for each variable.
    pub fn holds(&self, values: &[bool]) -> bool
        requires { length values.now ≡ self.now.vars }
        ensures { result ≡ all_hold values.now self.now.clauses }
    {
        for clause in self.clauses() {
            if !clause.holds(values) {
                return false;
            }
        }
        true
    }
}
