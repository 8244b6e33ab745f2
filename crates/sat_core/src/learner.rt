ghost use Rattle.std.specs.Prelude.{◌≡◌};

use crate::engine::{Engine, literal, negated, var_of};
use crate::source::Source;
use crate::store::Store;
use cnf::NoMemory;
use std::alloc::Global;

/// Makes clauses out of conflicts.
#[derive(Drop)]
pub(crate) struct Learner {
    alloc: Global,
    marks: Vec<bool>,
    /// Those whose mark is set.
    marked: Vec<usize>,
    /// For each variable that has a value without a decision, the clause of that literal alone.
    units: Vec<Source>,
    /// How many literals of the trail have such a clause.
    settled: usize,
    /// The clauses from the conflict back to the implication point.
    chain: Vec<u32>,
    /// The marked literals below the last level.
    lower: Vec<u32>,
    /// The literals of the clause: the one to become true first, then one of the highest level among the others.
    lits: Vec<u32>,
    /// Where on the trail the literals stand that follow from others of the clause.
    implied: Vec<usize>,
    hints: Vec<Source>,
}

impl Learner {
    pub(crate) fn new(alloc: Global, vars: usize) -> Result<Learner, NoMemory> {
        Ok(Learner {
            alloc,
            marks: vec![in alloc; false; vars]?,
            marked: Vec::new(alloc),
            units: vec![in alloc; Source::Given(0); vars]?,
            settled: 0,
            chain: Vec::new(alloc),
            lower: Vec::new(alloc),
            lits: Vec::new(alloc),
            implied: Vec::new(alloc),
            hints: Vec::new(alloc),
        })
    }

    #[inline]
    fn is_marked(&self, var: usize) -> bool {
        var < self.marks.len() && self.marks[var]
    }

    fn mark(&mut self, var: usize) -> Result<(), NoMemory> {
        if var < self.marks.len() {
            self.marks[var] = true;
        }
        self.marked.push(var)?;
        Ok(())
    }

    fn clear(&mut self) {
        for var in &self.marked {
            if *var < self.marks.len() {
                self.marks[*var] = false;
            }
        }
        self.marked.clear();
        self.chain.clear();
        self.lower.clear();
        self.lits.clear();
        self.implied.clear();
        self.hints.clear();
    }

    /// Learns the clause of `lits` by `hints`, and adds it to the engine. Answers its name there, and none where the hints
    /// don't show it.
    fn learn(&self, engine: &mut Engine, store: &mut Store) -> Result<Option<u32>, NoMemory>
        ensures { store.new ≡ store.old }
    {
        let mut lits = Vec::with_capacity(self.alloc, self.lits.len())?;
        for code in &self.lits {
            lits.push(literal(*code))?;
        }
        let Some(place) = store.learn(lits.as_slice(), self.hints.as_slice())? else {
            return Ok(None);
        };
        let source = Source::Learned(place).code();
        Ok(Some(engine.add(source, self.lits.as_slice())?))
    }

    fn hint_unit(&mut self, var: usize) -> Result<(), NoMemory> {
        self.mark(var)?;
        if var < self.units.len() {
            let unit = self.units[var];
            self.hints.push(unit)?;
        }
        Ok(())
    }

    fn hint_clause(&mut self, engine: &Engine, clause: u32) -> Result<(), NoMemory> {
        self.hints.push(Source::of(engine.source(clause)))?;
        Ok(())
    }

    /// Hints at the units of the clause's variables that have a value without a decision, and are not marked.
    fn hint_grounded(&mut self, engine: &Engine, clause: u32) -> Result<(), NoMemory> {
        for lit in engine.lits(clause) {
            let var = var_of(*lit);
            if engine.level_of(var) == 0 && !self.is_marked(var) {
                self.hint_unit(var)?;
            }
        }
        Ok(())
    }

    /// Gives one literal that is true without a decision a clause of its own. Answers whether it has one.
    fn settle_one(
        &mut self,
        engine: &mut Engine,
        store: &mut Store,
        lit: u32,
    ) -> Result<bool, NoMemory>
        ensures { store.new ≡ store.old }
    {
        let var = var_of(lit);
        let Some(reason) = engine.reason(var) else {
            return Ok(false);
        };
        let mut unit = reason;
        if engine.lits(reason).len() != 1 {
            self.clear();
            self.mark(var)?;
            self.hint_grounded(engine, reason)?;
            self.hint_clause(engine, reason)?;
            self.lits.push(lit)?;
            let Some(clause) = self.learn(engine, store)? else {
                return Ok(false);
            };
            unit = clause;
        }
        if var < self.units.len() {
            self.units[var] = Source::of(engine.source(unit));
        }
        Ok(true)
    }

    /// Gives each literal that is true without a decision a clause of its own. Answers whether all have one.
    fn settle(&mut self, engine: &mut Engine, store: &mut Store) -> Result<bool, NoMemory>
        ensures { store.new ≡ store.old }
    {
        for place in self.settled..engine.grounded() {
            let lit = engine.at(place);
            if !self.settle_one(engine, store, lit)? {
                return Ok(false);
            }
        }
        self.settled = engine.grounded();
        Ok(true)
    }

    /// Marks the variables of a clause. Answers how many of the last level are new.
    fn gather(&mut self, engine: &Engine, clause: u32) -> Result<usize, NoMemory> {
        let mut new: usize = 0;
        for lit in engine.lits(clause) {
            let var = var_of(*lit);
            if self.is_marked(var) {
                continue;
            }
            let level = engine.level_of(var);
            if level == 0 {
                self.hint_unit(var)?;
                continue;
            }
            self.mark(var)?;
            if level == engine.level() {
                new = new.saturating_add(1);
            } else {
                self.lower.push(*lit)?;
            }
        }
        Ok(new)
    }

    /// Goes back along the trail from a conflict to the literal of the last level that all of it goes through.
    fn go_back(&mut self, engine: &Engine, conflict: u32) -> Result<(), NoMemory> {
        self.chain.push(conflict)?;
        let mut left = self.gather(engine, conflict)?;
        for place in (0..engine.trail().len()).rev() {
            let lit = engine.at(place);
            if !self.is_marked(var_of(lit)) {
                continue;
            }
            left = left.saturating_sub(1);
            if left == 0 {
                self.lits.push(negated(lit))?;
                break;
            }
            let Some(reason) = engine.reason(var_of(lit)) else {
                break;
            };
            self.chain.push(reason)?;
            let more = self.gather(engine, reason)?;
            left = left.saturating_add(more);
        }
        Ok(())
    }

    /// Whether a literal follows from others of the clause: all others of its reason are marked, or have their value
    /// without a decision.
    fn is_implied(&self, engine: &Engine, lit: u32) -> bool {
        let Some(reason) = engine.reason(var_of(lit)) else {
            return false;
        };
        for other in engine.lits(reason) {
            let var = var_of(*other);
            if var != var_of(lit) && !self.is_marked(var) && engine.level_of(var) != 0 {
                return false;
            }
        }
        true
    }

    /// Adds a literal to the clause, whose second literal is of the highest level but for the first.
    fn keep(&mut self, engine: &Engine, lit: u32) -> Result<(), NoMemory> {
        let last = self.lits.len();
        self.lits.push(lit)?;
        if last >= 2 && last < self.lits.len() {
            let second = self.lits[1];
            if engine.level_of(var_of(lit)) > engine.level_of(var_of(second)) {
                self.lits[1] = lit;
                self.lits[last] = second;
            }
        }
        Ok(())
    }

    /// Leaves out the literals that follow from others.
    fn shorten(&mut self, engine: &Engine) -> Result<(), NoMemory> {
        for place in 0..self.lower.len() {
            if place < self.lower.len() {
                let lit = self.lower[place];
                if self.is_implied(engine, lit) {
                    self.implied.push(engine.place_of(var_of(lit)))?;
                } else {
                    self.keep(engine, lit)?;
                }
            }
        }
        self.implied.sort()?;
        Ok(())
    }

    /// Hints at the units that the reasons of the literals left out need.
    fn hint_grounded_of_implied(&mut self, engine: &Engine) -> Result<(), NoMemory> {
        for place in 0..self.implied.len() {
            if place < self.implied.len() {
                let lit = engine.at(self.implied[place]);
                if let Some(reason) = engine.reason(var_of(lit)) {
                    self.hint_grounded(engine, reason)?;
                }
            }
        }
        Ok(())
    }

    /// Hints at the reasons of the literals left out, in the order of the trail.
    fn hint_implied(&mut self, engine: &Engine) -> Result<(), NoMemory> {
        for place in 0..self.implied.len() {
            if place < self.implied.len() {
                let lit = engine.at(self.implied[place]);
                if let Some(reason) = engine.reason(var_of(lit)) {
                    self.hint_clause(engine, reason)?;
                }
            }
        }
        Ok(())
    }

    /// Hints at the clauses from the implication point on, the conflict last.
    fn hint_chain(&mut self, engine: &Engine) -> Result<(), NoMemory> {
        for place in (0..self.chain.len()).rev() {
            if place < self.chain.len() {
                let clause = self.chain[place];
                self.hint_clause(engine, clause)?;
            }
        }
        Ok(())
    }

    /// Finds what a conflict shows, and the hints for it.
    fn analyze(&mut self, engine: &Engine, conflict: u32) -> Result<(), NoMemory> {
        self.clear();
        self.go_back(engine, conflict)?;
        self.shorten(engine)?;
        self.hint_grounded_of_implied(engine)?;
        self.hint_implied(engine)?;
        self.hint_chain(engine)
    }

    /// Learns the empty clause from a conflict that no decision leads to. Answers whether it was learned.
    pub(crate) fn refute(
        &mut self,
        engine: &mut Engine,
        store: &mut Store,
        conflict: u32,
    ) -> Result<bool, NoMemory>
        ensures { store.new ≡ store.old }
    {
        if !self.settle(engine, store)? {
            return Ok(false);
        }
        self.clear();
        self.hint_grounded(engine, conflict)?;
        self.hint_clause(engine, conflict)?;
        Ok(self.learn(engine, store)?.is_some())
    }

    /// Learns from a conflict, goes back to the second highest level of what was learned, and makes its first literal
    /// true. Answers the least variable that may be without a value, and none where nothing was learned.
    pub(crate) fn resolve(
        &mut self,
        engine: &mut Engine,
        store: &mut Store,
        conflict: u32,
    ) -> Result<Option<usize>, NoMemory>
        ensures { store.new ≡ store.old }
    {
        if !self.settle(engine, store)? {
            return Ok(None);
        }
        self.analyze(engine, conflict)?;
        if self.lits.is_empty() {
            return Ok(None);
        }
        let mut level = 0;
        if self.lits.len() >= 2 {
            level = engine.level_of(var_of(self.lits[1]));
        }
        let next = engine.back_to(level);
        let Some(clause) = self.learn(engine, store)? else {
            return Ok(None);
        };
        let first = self.lits[0];
        engine.fix(first, Some(clause))?;
        Ok(Some(next))
    }
}
