ghost use Rattle.std.specs.Prelude.{◌≡◌};

use crate::engine::{Engine, Value, negated, var_of};
use crate::learner::Learner;
use crate::source::{Source, narrow};
use crate::store::Store;
use cnf::{Lit, NoMemory};
use std::alloc::Global;

/// What a search says that it found. Nothing is proved of it.
#[derive(Clone, Copy, Debug)]
pub(crate) enum Finding {
    /// The trail has the least model.
    Trail,
    /// The empty clause was learned last.
    Empty,
    /// Nothing, as it gave up.
    Nothing,
}

fn code_of(lit: Lit) -> u32 {
    let positive = narrow(lit.var).wrapping_mul(2);
    if lit.negative {
        negated(positive)
    } else {
        positive
    }
}

fn codes_of(alloc: Global, lits: &[Lit]) -> Result<Vec<u32>, NoMemory> {
    let mut codes = Vec::with_capacity(alloc, lits.len())?;
    for lit in lits {
        codes.push(code_of(*lit))?;
    }
    Ok(codes)
}

/// Adds a clause. Answers it where it has no literal that is not false.
fn load_one(
    alloc: Global,
    engine: &mut Engine,
    source: Source,
    lits: &[Lit],
) -> Result<Option<u32>, NoMemory> {
    let codes = codes_of(alloc, lits)?;
    let clause = engine.add(source.code(), codes.as_slice())?;
    if codes.is_empty() {
        return Ok(Some(clause));
    }
    if codes.len() == 1 {
        match engine.value(codes[0]) {
            Value::Free => engine.fix(codes[0], Some(clause))?,
            Value::False => return Ok(Some(clause)),
            Value::True => {}
        }
    }
    Ok(None)
}

fn load_given(alloc: Global, engine: &mut Engine, store: &Store) -> Result<Option<u32>, NoMemory> {
    for (place, clause) in store.cnf().clauses().iter().enumerate() {
        let conflict = load_one(alloc, engine, Source::Given(place), clause.lits())?;
        if conflict.is_some() {
            return Ok(conflict);
        }
    }
    Ok(None)
}

fn load_learned(
    alloc: Global,
    engine: &mut Engine,
    store: &Store,
) -> Result<Option<u32>, NoMemory> {
    for (place, one) in store.learned().iter().enumerate() {
        let conflict = load_one(alloc, engine, Source::Learned(place), one.clause.lits())?;
        if conflict.is_some() {
            return Ok(conflict);
        }
    }
    Ok(None)
}

/// Adds all clauses that are known. Answers one that fails at once.
fn load(alloc: Global, engine: &mut Engine, store: &Store) -> Result<Option<u32>, NoMemory> {
    let conflict = load_given(alloc, engine, store)?;
    if conflict.is_some() {
        return Ok(conflict);
    }
    load_learned(alloc, engine, store)
}

/// The least variable from this one on that has no value.
fn first_free(engine: &Engine, from: usize, vars: usize) -> Option<u32> {
    for var in from..vars {
        let lit = code_of(Lit::new(var, true));
        if engine.value(lit) == Value::Free {
            return Some(lit);
        }
    }
    None
}

/// A search under way. Nothing is proved of what it does.
#[derive(Drop)]
pub(crate) struct Search {
    learner: Learner,
    /// A clause without a literal that is not false.
    conflict: Option<u32>,
    /// No variable before this one is without a value.
    next: usize,
}

impl Search {
    /// Searches until something is found.
    pub(crate) fn run(
        alloc: Global,
        engine: &mut Engine,
        store: &mut Store,
    ) -> Result<Finding, NoMemory>
        ensures { store.new ≡ store.old }
    {
        let mut search = Search::begin(alloc, engine, store)?;
        for _ in 0..u64::MAX {
            if let Some(found) = search.step(engine, store)? {
                return Ok(found);
            }
        }
        Ok(Finding::Nothing)
    }

    /// Takes all clauses that are known.
    pub(crate) fn begin(
        alloc: Global,
        engine: &mut Engine,
        store: &Store,
    ) -> Result<Search, NoMemory> {
        Ok(Search {
            learner: Learner::new(alloc, store.cnf().vars())?,
            conflict: load(alloc, engine, store)?,
            next: 0,
        })
    }

    /// Goes on by one decision, or by what is learned from one conflict. Answers what is found where that ends the search.
    pub(crate) fn step(
        &mut self,
        engine: &mut Engine,
        store: &mut Store,
    ) -> Result<Option<Finding>, NoMemory>
        ensures { store.new ≡ store.old }
    {
        if self.conflict.is_none() {
            self.conflict = engine.propagate()?;
        }
        match self.conflict {
            Some(clause) if engine.level() == 0 => self.refute(engine, store, clause),
            Some(clause) => self.learn(engine, store, clause),
            None => self.decide(engine, store.cnf().vars()),
        }
    }

    /// Decides the least variable that has no value, for false.
    fn decide(&mut self, engine: &mut Engine, vars: usize) -> Result<Option<Finding>, NoMemory> {
        let Some(lit) = first_free(engine, self.next, vars) else {
            return Ok(Some(Finding::Trail));
        };
        self.next = var_of(lit);
        engine.decide(lit)?;
        Ok(None)
    }

    fn learn(
        &mut self,
        engine: &mut Engine,
        store: &mut Store,
        conflict: u32,
    ) -> Result<Option<Finding>, NoMemory>
        ensures { store.new ≡ store.old }
    {
        let Some(first) = self.learner.resolve(engine, store, conflict)? else {
            return Ok(Some(Finding::Nothing));
        };
        self.next = first;
        self.conflict = None;
        Ok(None)
    }

    /// Learns the empty clause.
    fn refute(
        &mut self,
        engine: &mut Engine,
        store: &mut Store,
        conflict: u32,
    ) -> Result<Option<Finding>, NoMemory>
        ensures { store.new ≡ store.old }
    {
        if self.learner.refute(engine, store, conflict)? {
            Ok(Some(Finding::Empty))
        } else {
            Ok(Some(Finding::Nothing))
        }
    }
}
