ghost use Rattle.std.specs.Prelude.{◌≡◌, ◌≤◌, ◌∷◌, [], All, IfOk, IfSome, None, OnErr, OnOk, length, replicate};
ghost use Rattle.cnf.specs.Clauses.{Follows, Formula, IsInRange, first_clauses, with_clauses};
ghost use Rattle.sat_core.specs.Inside.Learning.{FollowsFirst, IsLearned};

use crate::source::{Source, narrow};
use cnf::{Clause, Cnf, Lit, NoMemory, are_in_range};
use proof_check::{Outcome, Table};
use std::alloc::Global;
use std::marker::Model;

/// A clause that follows from the first given ones.
#[derive(Drop)]
pub(crate) struct Learned {
    pub(crate) clause: Clause,
    /// From how many of them.
    pub(crate) needs: usize,
    /// Greater than those of the clauses learned before it.
    pub(crate) number: u32,
    /// The codes of the clauses that show it, where a learned one stands with its number in place of its place.
    pub(crate) hints: Vec<u32>,
}

/// The clause of a source, and how many of the first given ones it needs.
#[inline]
fn find<'a>(cnf: &'a Cnf, learned: &'a [Learned], source: Source) -> Option<(&'a [Lit], usize)>
    requires { All (IsLearned cnf.now.vars cnf.now.clauses) learned.now }
    ensures { IfSome result (λ found. FollowsFirst cnf.now.vars cnf.now.clauses found.1 found.0.now) }
{
    match source {
        Source::Given(place) => {
            let given = cnf.clauses();
            if place < given.len() {
                Some((given[place].lits(), place + 1))
            } else {
                None
            }
        }
        Source::Learned(place) => {
            if place < learned.len() {
                let one = &learned[place];
                Some((one.clause.lits(), one.needs))
            } else {
                None
            }
        }
    }
}

/// From how many of the first given clauses the clause follows, if the hints show that it does: with its literals false
/// each hint leaves one literal, which is then true, until one leaves none.
fn needed(
    table: &mut Table,
    cnf: &Cnf,
    learned: &[Learned],
    lits: &[Lit],
    hints: &[Source],
) -> Option<usize>
    requires blank { table.old ≡ replicate cnf.now.vars None }
    requires learned { All (IsLearned cnf.now.vars cnf.now.clauses) learned.now }
    ensures len { length table.new ≡ length table.old }
    ensures follows { IfSome result (λ needs.
        FollowsFirst cnf.now.vars cnf.now.clauses needs lits.now) }
{
    if !are_in_range(table.len(), lits) || !table.assume(lits) {
        return None;
    }
    let mut needs: usize = 0;
    for hint in hints {
        let Some((clause, more)) = find(cnf, learned, *hint) else {
            return None;
        };
        needs = needs.max(more);
        match table.outcome(clause) {
            Outcome::Conflict => return Some(needs),
            Outcome::Unit(lit) => table.set_true(lit),
            Outcome::Stuck => return None,
        }
    }
    None
}

/// The codes of hints, with numbers for places.
fn numbered(alloc: Global, learned: &[Learned], hints: &[Source]) -> Result<Vec<u32>, NoMemory> {
    let mut codes = Vec::with_capacity(alloc, hints.len())?;
    for hint in hints {
        codes.push(match *hint {
            Source::Learned(place) if place < learned.len() => {
                Source::Learned(learned[place].number as usize).code()
            }
            source => source.code(),
        })?;
    }
    Ok(codes)
}

/// Given clauses, which come and go at the end, and clauses that were learned from them.
///
/// What was learned says nothing new, so contracts see the given clauses alone.
#[derive(Drop)]
pub(crate) struct Store {
    alloc: Global,
    cnf: Cnf,
    learned: Vec<Learned>,
    /// The number that the next learned clause gets.
    next: usize,
    /// No variable has a value in it but while a clause is learned.
    table: Table,
}

impl Model for Store {
    ghost use Rattle.std.specs.Prelude.{◌≡◌, All, None, replicate};
    ghost use Rattle.cnf.specs.Clauses.{Formula};
    ghost use Rattle.sat_core.specs.Inside.Learning.{IsLearned};

    ghost Value = { Formula };

    ghost view = { λ s. s.cnf };

    ghost invariant = { λ s. All (IsLearned s.cnf.vars s.cnf.clauses) s.learned.items
        × (s.table ≡ replicate s.cnf.vars None) };
}

impl Store {
    pub(crate) fn new(alloc: Global, cnf: Cnf) -> Result<Store, NoMemory>
        ensures { IfOk result (λ store. store ≡ cnf) }
    {
        let table = Table::new(alloc, cnf.vars())?;
        Ok(Store {
            alloc,
            cnf,
            learned: Vec::new(alloc),
            next: 0,
            table,
        })
    }

    pub(crate) fn cnf(&self) -> &Cnf
        ensures { result.now ≡ self.now }
    {
        &self.cnf
    }

    pub(crate) fn learned(&self) -> &[Learned] {
        self.learned.as_slice()
    }

    /// The clause of a source. It holds in each model.
    #[inline]
    pub(crate) fn clause(&self, source: Source) -> Option<&[Lit]>
        ensures in_range { IfSome result (λ lits. IsInRange self.now.vars lits.now) }
        ensures follows { IfSome result (λ lits.
            Follows self.now.vars self.now.clauses lits.now) }
    {
        let Some((lits, _)) = find(&self.cnf, self.learned.as_slice(), source) else {
            return None;
        };
        Some(lits)
    }

    /// Adds a given clause at the end.
    pub(crate) fn add(&mut self, clause: Clause) -> Result<(), NoMemory>
        requires { IsInRange self.old.vars clause }
        ensures added { OnOk result (self.new ≡ with_clauses self.old (clause ∷ [])) }
        ensures err { OnErr result (self.new ≡ self.old) }
    {
        self.cnf.push_in_range(clause)
    }

    /// Leaves the first given clauses, and what was learned from them alone.
    pub(crate) fn back_to(&mut self, count: usize)
        requires { count ≤ length self.old.clauses }
        ensures { self.new ≡ first_clauses count self.old }
    {
        self.learned.retain(|one| one.needs <= count);
        self.cnf.truncate(count);
        if self.learned.is_empty() {
            self.next = 0;
        }
    }

    /// Learns a clause where the hints show that it follows, and answers its place; else nothing.
    pub(crate) fn learn(
        &mut self,
        lits: &[Lit],
        hints: &[Source],
    ) -> Result<Option<usize>, NoMemory>
        ensures { self.new ≡ self.old }
    {
        let learned = self.learned.as_slice();
        let needs = needed(&mut self.table, &self.cnf, learned, lits, hints);
        self.table.clear();
        let Some(needs) = needs else {
            return Ok(None);
        };
        let clause = Clause::from_lits(self.alloc, lits)?;
        let hints = numbered(self.alloc, self.learned.as_slice(), hints)?;
        let place = self.learned.len();
        self.learned.push(Learned {
            clause,
            needs,
            number: narrow(self.next),
            hints,
        })?;
        self.next = self.next.saturating_add(1);
        Ok(Some(place))
    }
}
