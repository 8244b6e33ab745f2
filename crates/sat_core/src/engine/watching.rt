ghost use Rattle.std.specs.Prelude.{◌<◌};

use crate::engine::{Engine, HEADER, Value, Watch, var_of, word};
use crate::search::{Finding, Search};
use crate::source::narrow;
use crate::store::Store;
use cnf::{Clause, Cnf, CnfFault, Lit, NoMemory};
use std::alloc::Global;

impl Engine {
    /// The names of all clauses.
    fn names(&self, alloc: Global) -> Result<Vec<u32>, NoMemory> {
        let mut names = Vec::new(alloc);
        let mut place: usize = 0;
        for _ in 0..self.words.len() {
            if place >= self.words.len() {
                break;
            }
            names.push(narrow(place))?;
            let count = word(self.words.as_slice(), place) as usize;
            place = place.saturating_add(HEADER).saturating_add(count);
        }
        Ok(names)
    }

    /// The only watch of this literal over a clause.
    fn watch_over(&self, lit: u32, clause: u32) -> Option<Watch> {
        let place = lit as usize;
        if place >= self.watches.len() {
            return None;
        }
        let mut found = None;
        for watch in &self.watches[place] {
            if watch.clause == clause {
                if found.is_some() {
                    return None;
                }
                found = Some(*watch);
            }
        }
        found
    }

    /// Whether the literal was true when this other one became false, or has been since a level that is left no later.
    fn is_true_before(&self, lit: u32, other: u32) -> bool {
        self.value(lit) == Value::True && self.level_of(var_of(lit)) <= self.level_of(var_of(other))
    }

    /// Whether a literal is watched as it is to be, the other watched one of its clause given.
    fn is_watched(&self, clause: u32, lit: u32, other: u32) -> bool {
        let Some(watch) = self.watch_over(lit, clause) else {
            return false;
        };
        let waits = self.place_of(var_of(lit)) >= self.head;
        self.value(lit) != Value::False
            || waits
            || self.is_true_before(watch.blocker, lit)
            || self.is_true_before(other, lit)
    }

    /// How many clauses, of two literals or more, are not watched as they are to be.
    fn wrongly_watched(&self, alloc: Global) -> Result<u64, NoMemory> {
        let mut wrong: u64 = 0;
        for clause in &self.names(alloc)? {
            let lits = self.lits(*clause);
            if lits.len() >= 2
                && !(self.is_watched(*clause, lits[0], lits[1])
                    && self.is_watched(*clause, lits[1], lits[0]))
            {
                wrong = wrong.saturating_add(1);
            }
        }
        Ok(wrong)
    }
}

/// A number that looks random, below this one.
fn draw(seed: &mut u64, below: usize) -> usize
    requires { 0 < below }
    ensures { result < below }
{
    *seed = seed
        .wrapping_mul(2862933555777941757)
        .wrapping_add(3037000493);
    (*seed >> 40) as usize % below
}

/// A clause of two literals to four, of as many of 14 variables.
fn random_clause(alloc: Global, seed: &mut u64) -> Result<Clause, NoMemory> {
    let mut lits = Vec::new(alloc);
    let mut var = draw(seed, 14);
    for _ in 0..2 + draw(seed, 3) {
        lits.push(Lit::new(var, draw(seed, 2) == 1))?;
        var = (var % 14 + 1 + draw(seed, 3)) % 14;
    }
    Clause::from_lits(alloc, lits.as_slice())
}

/// Clauses of which some sets have models.
fn random_clauses(alloc: Global, seed: &mut u64) -> Result<Cnf, CnfFault> {
    let mut cnf = Cnf::new(alloc, 14);
    for _ in 0..40 + draw(seed, 30) {
        cnf.push(random_clause(alloc, seed)?)?;
    }
    Ok(cnf)
}

/// What was seen of searches: steps, conflicts, and clauses that were watched wrongly behind a step.
#[derive(Clone, Copy, Debug, Default)]
struct Seen {
    steps: u64,
    learned: u64,
    wrong: u64,
}

/// Searches, and looks at the watched literals of every clause behind each step.
fn watch_search(alloc: Global, cnf: Cnf, seen: &mut Seen) -> Result<(), NoMemory> {
    let mut engine = Engine::new(alloc, cnf.vars())?;
    let mut store = Store::new(alloc, cnf)?;
    let mut search = Search::begin(alloc, &mut engine, &store)?;
    for _ in 0..100_000 {
        let found = search.step(&mut engine, &mut store)?;
        if matches!(found, Some(Finding::Empty | Finding::Nothing)) {
            break;
        }
        seen.steps = seen.steps.saturating_add(1);
        seen.wrong = seen.wrong.saturating_add(engine.wrongly_watched(alloc)?);
        if found.is_some() {
            break;
        }
    }
    seen.learned = seen.learned.saturating_add(store.learned().len() as u64);
    Ok(())
}

fn watch_searches(alloc: Global, count: u64) -> Result<Seen, CnfFault> {
    let mut seed = 23;
    let mut seen = Seen::default();
    for _ in 0..count {
        let cnf = random_clauses(alloc, &mut seed)?;
        watch_search(alloc, cnf, &mut seen)?;
    }
    Ok(seen)
}

/// In 200 random searches each clause is watched as it is to be behind every step, of which there are over a thousand.
#[test]
fn clauses_are_watched_behind_every_step(rt: HostRuntime) {
    let seen = watch_searches(rt.alloc(), 200);
    assert!(&rt;
        matches!(
            seen,
            Ok(Seen {
                steps: 1000..,
                learned: 500..,
                wrong: 0
            })
        )
    );
}
