ghost use Rattle.std.specs.Prelude.{◌≤◌, length};

#[cfg(test)]
mod watching;

use crate::source::{Source, narrow};
use crate::walk::Fixed;
use cnf::{Lit, NoMemory};
use std::alloc::Global;
use std::mem;

/// The value of a literal, if its variable has one.
#[derive(Clone, Copy, Debug, PartialEq, Eq)]
pub(crate) enum Value {
    Free,
    True,
    False,
}

/// A clause to look at when the literal in whose list this stands becomes false, unless the blocker, another literal of
/// the clause, is true.
#[derive(Clone, Copy, Debug)]
struct Watch {
    clause: u32,
    blocker: u32,
}

/// What a look at a clause found, one of whose watched literals became false.
enum Look {
    /// This literal is watched in its place.
    Moved(u32),
    /// This other watched literal is true.
    Satisfied(u32),
    /// No literal but this one can be true.
    Only(u32),
}

/// How a variable got its value.
#[derive(Clone, Copy, Debug)]
struct Fixing {
    level: u32,
    /// The clause that left this value alone; none for a decision.
    reason: Option<u32>,
    /// Where the literal stands on the trail.
    place: u32,
}

/// Clauses, and values that follow from decisions by single clauses.
///
/// A literal is a number, twice its variable, and one more for the negative. A clause is named by the place where it
/// begins in `words`.
///
/// Nothing that is proved rests on what stands here. What makes it complete is this, of each clause of two literals or
/// more, whenever a decision is due: its first two literals are watched, and each watched literal that is false was made
/// so at a level not below that of some true literal of the clause, the blocker of that watch or the other watched one.
/// While literals wait behind `head`, a watched literal may also be one of those that wait. Since the true literal is not
/// of a higher level, going back keeps this.
#[derive(Drop)]
pub(crate) struct Engine {
    alloc: Global,
    /// All clauses end to end: how many literals, the code of the source, the literals.
    words: Vec<u32>,
    /// For each literal, who watches it.
    watches: Vec<Vec<Watch>>,
    /// For each literal.
    values: Vec<Value>,
    /// For each variable.
    fixings: Vec<Fixing>,
    /// The true literals, in the order in which they became so.
    trail: Vec<u32>,
    /// Where on the trail each level above 0 begins.
    limits: Vec<usize>,
    /// How many literals of the trail the watches have been told of.
    head: usize,
}

const HEADER: usize = 2;

#[inline]
pub(crate) fn negated(lit: u32) -> u32 {
    lit ^ 1
}

#[inline]
pub(crate) fn var_of(lit: u32) -> usize {
    (lit / 2) as usize
}

pub(crate) fn literal(code: u32) -> Lit {
    Lit::new(var_of(code), code % 2 == 1)
}

#[inline]
fn value_among(values: &[Value], lit: u32) -> Value {
    let place = lit as usize;
    if place < values.len() {
        values[place]
    } else {
        Value::Free
    }
}

#[inline]
fn word(words: &[u32], place: usize) -> u32 {
    if place < words.len() { words[place] } else { 0 }
}

/// Looks for another literal to watch in place of one that became false. The watched ones are the first two.
#[inline]
fn watch_another(values: &[Value], lits: &mut [u32], lit: u32) -> Look {
    if lits.len() < 2 {
        return Look::Only(negated(lit));
    }
    if lits[0] == lit {
        lits[0] = lits[1];
        lits[1] = lit;
    }
    let other = lits[0];
    if value_among(values, other) == Value::True {
        return Look::Satisfied(other);
    }
    for place in 2..lits.len() {
        let next = lits[place];
        if value_among(values, next) != Value::False {
            lits[1] = next;
            lits[place] = lit;
            return Look::Moved(next);
        }
    }
    Look::Only(other)
}

impl Engine {
    pub(crate) fn new(alloc: Global, vars: usize) -> Result<Engine, NoMemory> {
        let mut watches = Vec::new(alloc);
        let mut values = Vec::new(alloc);
        let free = Fixing {
            level: 0,
            reason: None,
            place: 0,
        };
        for _ in 0..vars {
            watches.push(Vec::new(alloc))?;
            watches.push(Vec::new(alloc))?;
            values.push(Value::Free)?;
            values.push(Value::Free)?;
        }
        Ok(Engine {
            alloc,
            words: Vec::new(alloc),
            watches,
            values,
            fixings: vec![in alloc; free; vars]?,
            trail: Vec::new(alloc),
            limits: Vec::new(alloc),
            head: 0,
        })
    }

    #[inline]
    pub(crate) fn value(&self, lit: u32) -> Value {
        value_among(self.values.as_slice(), lit)
    }

    /// The number of decisions.
    #[inline]
    pub(crate) fn level(&self) -> usize {
        self.limits.len()
    }

    #[inline]
    pub(crate) fn level_of(&self, var: usize) -> usize {
        if var < self.fixings.len() {
            self.fixings[var].level as usize
        } else {
            0
        }
    }

    #[inline]
    pub(crate) fn reason(&self, var: usize) -> Option<u32> {
        if var < self.fixings.len() {
            self.fixings[var].reason
        } else {
            None
        }
    }

    #[inline]
    pub(crate) fn place_of(&self, var: usize) -> usize {
        if var < self.fixings.len() {
            self.fixings[var].place as usize
        } else {
            0
        }
    }

    pub(crate) fn trail(&self) -> &[u32] {
        self.trail.as_slice()
    }

    /// What stands at a place of the trail.
    #[inline]
    pub(crate) fn at(&self, place: usize) -> u32 {
        word(self.trail.as_slice(), place)
    }

    /// The literal at a place of the trail, with the source of its reason.
    pub(crate) fn fixed_at(&self, place: usize) -> Fixed {
        let code = self.at(place);
        let source = match self.reason(var_of(code)) {
            Some(clause) => Some(Source::of(self.source(clause))),
            None => None,
        };
        Fixed {
            lit: literal(code),
            source,
        }
    }

    /// How many literals are true without a decision.
    pub(crate) fn grounded(&self) -> usize {
        if self.limits.is_empty() {
            self.trail.len()
        } else {
            self.limits[0]
        }
    }

    /// Where the literals of a clause begin and end.
    #[inline]
    fn range(&self, clause: u32) -> (usize, usize)
        ensures order { result.0 ≤ result.1 }
        ensures inside { result.1 ≤ length self.now.words.items }
    {
        let len = word(self.words.as_slice(), clause as usize) as usize;
        let from = clause as usize + HEADER;
        let to = from + len;
        if to <= self.words.len() {
            (from, to)
        } else {
            (0, 0)
        }
    }

    /// What a clause consists of.
    #[inline]
    pub(crate) fn lits(&self, clause: u32) -> &[u32] {
        let (from, to) = self.range(clause);
        &self.words[from..to]
    }

    /// The code of the clause's source.
    #[inline]
    pub(crate) fn source(&self, clause: u32) -> u32 {
        word(self.words.as_slice(), clause as usize + 1)
    }

    fn watch(&mut self, lit: u32, watch: Watch) -> Result<(), NoMemory> {
        let place = lit as usize;
        if place < self.watches.len() {
            self.watches[place].push(watch)?;
        }
        Ok(())
    }

    /// Adds a clause, whose first two literals are watched. Answers its name.
    pub(crate) fn add(&mut self, source: u32, lits: &[u32]) -> Result<u32, NoMemory> {
        let clause = narrow(self.words.len());
        self.words.push(narrow(lits.len()))?;
        self.words.push(source)?;
        self.words.extend_from_slice(lits)?;
        if lits.len() >= 2 {
            let (first, second) = (lits[0], lits[1]);
            self.watch(
                first,
                Watch {
                    clause,
                    blocker: second,
                },
            )?;
            self.watch(
                second,
                Watch {
                    clause,
                    blocker: first,
                },
            )?;
        }
        Ok(clause)
    }

    fn set(&mut self, lit: u32, value: Value, opposite: Value) {
        let place = lit as usize;
        let other = negated(lit) as usize;
        if place < self.values.len() && other < self.values.len() {
            self.values[place] = value;
            self.values[other] = opposite;
        }
    }

    /// Makes a literal true.
    #[inline]
    pub(crate) fn fix(&mut self, lit: u32, reason: Option<u32>) -> Result<(), NoMemory> {
        self.set(lit, Value::True, Value::False);
        let var = var_of(lit);
        if var < self.fixings.len() {
            self.fixings[var] = Fixing {
                level: narrow(self.limits.len()),
                reason,
                place: narrow(self.trail.len()),
            };
        }
        self.trail.push(lit)?;
        Ok(())
    }

    /// Decides for a literal, on a new level.
    pub(crate) fn decide(&mut self, lit: u32) -> Result<(), NoMemory> {
        self.limits.push(self.trail.len())?;
        self.fix(lit, None)
    }

    /// Takes back all levels above this one. Answers the variable of the first decision that was taken back.
    pub(crate) fn back_to(&mut self, level: usize) -> usize {
        if level >= self.limits.len() {
            return 0;
        }
        let keep = self.limits[level];
        let first = var_of(self.at(keep));
        self.limits.truncate(level);
        for _ in keep..self.trail.len() {
            if let Some(lit) = self.trail.pop() {
                self.set(lit, Value::Free, Value::Free);
            }
        }
        self.head = self.trail.len();
        first
    }

    /// Looks at a clause of which a watched literal became false. Answers the watch that stays, if it does, and whether
    /// the clause has no literal left.
    #[inline]
    fn visit(&mut self, watch: Watch, lit: u32) -> Result<(Option<Watch>, bool), NoMemory> {
        let clause = watch.clause;
        let (from, to) = self.range(clause);
        match watch_another(self.values.as_slice(), &mut self.words[from..to], lit) {
            Look::Moved(next) => {
                self.watch(next, watch)?;
                Ok((None, false))
            }
            Look::Satisfied(blocker) => Ok((Some(Watch { clause, blocker }), false)),
            Look::Only(blocker) => {
                let conflict = self.value(blocker) == Value::False;
                if !conflict {
                    self.fix(blocker, Some(clause))?;
                }
                Ok((Some(Watch { clause, blocker }), conflict))
            }
        }
    }

    /// Goes over the clauses that watch a literal, which became false. Answers one that has no literal left.
    fn visit_all(&mut self, lit: u32, watches: &mut Vec<Watch>) -> Result<Option<u32>, NoMemory> {
        let mut conflict = None;
        let mut kept = 0;
        for place in 0..watches.len() {
            let mut watch = watches[place];
            if conflict.is_none() && self.value(watch.blocker) != Value::True {
                let (stays, fails) = self.visit(watch, lit)?;
                if fails {
                    conflict = Some(watch.clause);
                }
                let Some(stays) = stays else {
                    continue;
                };
                watch = stays;
            }
            if kept < watches.len() {
                watches[kept] = watch;
                kept += 1;
            }
        }
        watches.truncate(kept);
        Ok(conflict)
    }

    /// Makes true what single clauses leave alone, until nothing more follows. Answers a clause that has no literal left.
    pub(crate) fn propagate(&mut self) -> Result<Option<u32>, NoMemory> {
        for _ in 0..u64::MAX {
            if self.head >= self.trail.len() {
                break;
            }
            let lit = negated(self.trail[self.head]);
            self.head += 1;
            let place = lit as usize;
            if place < self.watches.len() {
                let mut watches = mem::replace(&mut self.watches[place], Vec::new(self.alloc));
                let conflict = self.visit_all(lit, &mut watches)?;
                if place < self.watches.len() {
                    self.watches[place] = watches;
                }
                if conflict.is_some() {
                    return Ok(conflict);
                }
            }
        }
        Ok(None)
    }
}
