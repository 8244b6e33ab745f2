ghost use Rattle.std.specs.Prelude.{◌≡◌, ◌+◌, ◌≤◌, ◌++◌, ◌∷◌, [], IfOk, IfSome, OnErr, OnOk, length};
ghost use Rattle.cnf.specs.Clauses.{IsInRange, with_clauses};
ghost use Rattle.sat_core.specs.Inside.Assuming.{Extends};
ghost use Rattle.sat_core.specs.Solving.{Answers, units, with_first, with_given};
ghost use Rattle.sat_core.specs.declared.fault.AddFault.TheVariants as fault;

use crate::derivation::refutation;
use crate::engine::Engine;
use crate::fault::AddFault;
use crate::search::{Finding, Search};
use crate::solved::Solved;
use crate::split::solve_plainly;
use crate::steps::Steps;
use crate::store::Store;
use crate::walk::least_of;
use cnf::{Clause, Cnf, Lit, NoMemory, are_in_range};
use std::alloc::Global;
use std::marker::Model;
use std::sync::ledger::Ledger;

/// How many clauses a solver had.
#[derive(Clone, Copy, Debug)]
pub struct Mark {
    count: usize,
}

impl Model for Mark {
    ghost use Rattle.std.specs.Prelude.{ℕ};

    ghost Value = { ℕ };

    ghost view = { λ m. m.count };

    ghost inverse = { λ count. record { count = count } };
}

/// Clauses over some variables, which come and go, and what was learned from them.
///
/// Contracts see the clauses, and how often a plain search stood in. What was learned follows from the clauses, and changes
/// no answer.
#[derive(Drop)]
pub struct Solver {
    alloc: Global,
    store: Store,
    fallbacks: u64,
}

impl Model for Solver {
    ghost use Rattle.sat_core.specs.Solving.{Standing};

    ghost Value = { Standing };

    ghost view = { λ s. record { given = s.store; fallbacks = s.fallbacks } };
}

/// Adds each literal as a clause of its own.
fn add_units(alloc: Global, store: &mut Store, lits: &[Lit]) -> Result<(), NoMemory>
    requires in_range { IsInRange store.old.vars lits.now }
    ensures added { OnOk result (store.new ≡ with_clauses store.old (units lits.now)) }
    ensures extends { Extends store.old store.new }
{
    for lit in lits {
        store.add(Clause::from_lits(alloc, &[*lit])?)?;
    }
    Ok(())
}

impl Solver {
    /// A solver of these clauses, which has learned nothing.
    pub fn new(alloc: Global, cnf: Cnf) -> Result<Solver, NoMemory>
        ensures { IfOk result (λ solver. solver ≡ record { given = cnf; fallbacks = 0 }) }
    {
        Ok(Solver {
            alloc,
            store: Store::new(alloc, cnf)?,
            fallbacks: 0,
        })
    }

    /// How many clauses there are, to go back to.
    pub fn mark(&self) -> Mark
        ensures { result ≡ length self.now.given.clauses }
    {
        Mark {
            count: self.store.cnf().clauses().len(),
        }
    }

    /// How often a search gave up, and a plain one, which takes a time that doubles with each variable, stood in for it.
    /// This is to stay 0.
    pub fn fallbacks(&self) -> u64
        ensures { result ≡ self.now.fallbacks }
    {
        self.fallbacks
    }

    /// Adds a clause at the end. It is refused exactly where one of its variables is out of range.
    pub fn add(&mut self, lits: &[Lit]) -> Result<(), AddFault>
        ensures added { OnOk result (self.new ≡ with_given self.old (lits.now ∷ [])) }
        ensures in_range { OnOk result (IsInRange self.old.given.vars lits.now) }
        ensures range { result ≡ Err fault.VarRange → IsInRange self.old.given.vars lits.now → ⊥ }
        ensures memory { result ≡ Err fault.NoMemory → IsInRange self.old.given.vars lits.now }
        ensures err { OnErr result (self.new ≡ self.old) }
    {
        if !are_in_range(self.store.cnf().vars(), lits) {
            return Err(AddFault::VarRange);
        }
        let Ok(clause) = Clause::from_lits(self.alloc, lits) else {
            return Err(AddFault::NoMemory);
        };
        if self.store.add(clause).is_err() {
            return Err(AddFault::NoMemory);
        }
        Ok(())
    }

    /// Leaves the clauses that there were at the mark, and what was learned from them alone.
    pub fn back_to(&mut self, mark: Mark)
        requires { mark ≤ length self.old.given.clauses }
        ensures { self.new ≡ with_first mark self.old }
    {
        self.store.back_to(mark.count);
    }

    /// The least model of the clauses in which the assumed literals are true, or a derivation that there is none: there the
    /// literals are clauses, in order behind the others. One step.
    pub fn solve<L: Ledger>(
        &mut self,
        assume: &[Lit],
        steps: &mut Steps<L>,
    ) -> Result<Solved, NoMemory>
        requires in_range { IsInRange self.old.given.vars assume.now }
        ensures answers { IfOk result
            (Answers self.old.given.vars (self.old.given.clauses ++ units assume.now)) }
        ensures unchanged { self.new.given ≡ self.old.given }
        ensures counted { self.old.fallbacks ≤ self.new.fallbacks }
        ensures one_step { steps.new ≡ steps.old + 1 }
    {
        steps.tick();
        let count = self.store.cnf().clauses().len();
        let answer = self.solve_assuming(assume);
        self.store.back_to(count);
        answer
    }

    /// The same, and leaves the literals as clauses, or some of them.
    fn solve_assuming(&mut self, assume: &[Lit]) -> Result<Solved, NoMemory>
        requires in_range { IsInRange self.old.given.vars assume.now }
        ensures answers { IfOk result
            (Answers self.old.given.vars (self.old.given.clauses ++ units assume.now)) }
        ensures extends { Extends self.old.given self.new.given }
        ensures counted { self.old.fallbacks ≤ self.new.fallbacks }
    {
        add_units(self.alloc, &mut self.store, assume)?;
        if let Some(solved) = self.search()? {
            return Ok(solved);
        }
        solve_plainly(self.alloc, self.store.cnf(), &mut self.fallbacks)
    }

    /// What the search finds, if it finds it and what it hands over is accepted.
    fn search(&mut self) -> Result<Option<Solved>, NoMemory>
        ensures answers { IfOk result (λ found. IfSome found
            (Answers self.old.given.vars self.old.given.clauses)) }
        ensures unchanged { self.new ≡ self.old }
    {
        let mut engine = Engine::new(self.alloc, self.store.cnf().vars())?;
        match Search::run(self.alloc, &mut engine, &mut self.store)? {
            Finding::Trail => match least_of(self.alloc, &self.store, &engine)? {
                Some(values) => Ok(Some(Solved::Least(values))),
                None => Ok(None),
            },
            Finding::Empty => match refutation(self.alloc, &self.store)? {
                Some(derivation) => Ok(Some(Solved::None(derivation))),
                None => Ok(None),
            },
            Finding::Nothing => Ok(None),
        }
    }
}
