ghost use Rattle.std.specs.Prelude.{◌≡◌, ◌∷◌, ◌++◌, [], ℕ, IfOk, IfNone, OnOk, OnErr, Some, length, is_some, map};
ghost use Rattle.std.specs.Option.{option_copied};
ghost use Rattle.proof_check.specs.Derivations.{delete_fault, live_at, without, without_all};
ghost use Rattle.proof_check.specs.Inside.Each.{LiveInRange};

use cnf::{Clause, Lit, NoMemory};
use std::alloc::Global;
use std::marker::Model;

/// Clauses by their numbers, from 1. They are named, and not copied.
#[derive(Drop)]
pub(crate) struct LiveClauses<'a> {
    /// None for one that was deleted.
    clauses: Vec<Option<&'a [Lit]>>,
}

impl<'a> Model for LiveClauses<'a> {
    ghost use Rattle.std.specs.Prelude.{map};
    ghost use Rattle.std.specs.Option.{option_copied};
    ghost use Rattle.proof_check.specs.Derivations.{Live};

    ghost Value = { Live };

    ghost view = { λ c. map option_copied c.clauses.items };
}

impl<'a> LiveClauses<'a> {
    /// No clauses, and memory for so many.
    pub(crate) fn with_capacity(alloc: Global, count: usize) -> Result<LiveClauses<'a>, NoMemory>
        ensures { IfOk result (λ clauses. clauses ≡ []) }
    {
        Ok(LiveClauses {
            clauses: Vec::with_capacity(alloc, count)?,
        })
    }

    #[inline]
    pub(crate) fn len(&self) -> usize
        ensures { result ≡ length self.now }
    {
        self.clauses.len()
    }

    /// The clause of this number, where it is one that is live.
    #[inline]
    pub(crate) fn get(&self, number: usize) -> Option<&'a [Lit]>
        ensures { option_copied result ≡ live_at self.now number }
    {
        if number == 0 || number > self.clauses.len() {
            return None;
        }
        self.clauses[number - 1]
    }

    pub(crate) fn push(&mut self, lits: &'a [Lit]) -> Result<(), NoMemory>
        ensures ok { OnOk result (self.new ≡ self.old ++ Some lits.now ∷ []) }
        ensures err { OnErr result (self.new ≡ self.old) }
    {
        self.clauses.push(Some(lits))?;
        Ok(())
    }

    /// Deletes the clause of this number, and says whether it was live.
    pub(crate) fn delete(&mut self, number: usize) -> bool
        ensures result { result ≡ is_some (live_at self.old number) }
        ensures after { self.new ≡ without self.old number }
        ensures in_range { (vars : ℕ) → LiveInRange vars self.old → LiveInRange vars self.new }
    {
        if self.get(number).is_none() {
            return false;
        }
        self.clauses[number - 1] = None;
        true
    }

    /// Deletes the clauses of these numbers, one after another, as far as they are live. Gives the place of the first number
    /// that names none, from 1.
    pub(crate) fn delete_all(&mut self, numbers: &[usize]) -> Option<usize>
        ensures fault { result ≡ delete_fault self.old numbers.now 1 }
        ensures after { IfNone result (self.new ≡ without_all self.old numbers.now) }
        ensures in_range { (vars : ℕ) → LiveInRange vars self.old → LiveInRange vars self.new }
    {
        for (place, number) in numbers.iter().enumerate() {
            if !self.delete(*number) {
                return Some(place + 1);
            }
        }
        None
    }

    /// All clauses of a formula, and memory for so many more.
    pub(crate) fn given(
        alloc: Global,
        clauses: &'a [Clause],
        more: usize,
    ) -> Result<LiveClauses<'a>, NoMemory>
        ensures { IfOk result (λ live. live ≡ map Some clauses.now) }
    {
        let mut live = LiveClauses::with_capacity(alloc, clauses.len().saturating_add(more))?;
        for clause in clauses {
            live.push(clause.lits())?;
        }
        Ok(live)
    }
}
