ghost use Rattle.std.specs.Prelude.{◌≡◌, ◌<◌, Option, Some, None, IfNone, IfOk, length, replicate, slice_index_or, slice_set};
ghost use Rattle.std.specs.List.{list_all};
ghost use Rattle.cnf.specs.Clauses.{IsInRange};
ghost use Rattle.proof_check.specs.Propagation.{assumed, propagates};
ghost use Rattle.proof_check.specs.Tables.{IsAssumed, IsFreeUnit};
ghost use Rattle.proof_check.specs.Values.{remaining, same_lit, value_of, with_true};

use cnf::{Lit, NoMemory};
use std::alloc::Global;
use std::marker::Model;

/// What a clause says where some variables have a value.
#[derive(Clone, Copy, Debug, PartialEq, Eq)]
pub enum Outcome {
    /// All of its literals are false.
    Conflict,
    /// All of its literals but this one are false, and this one has no value.
    Unit(Lit),
    /// Anything else.
    Stuck,
}

/// Values of some of the variables. All memory is taken when it is made; `clear` takes as long as what was set.
#[derive(Debug, Drop)]
pub struct Table {
    values: Vec<Option<bool>>,
    /// The variables that have a value, in the order in which they got it; then places for the others.
    trail: Vec<usize>,
    /// How many have a value.
    count: usize,
}

impl Model for Table {
    ghost use Rattle.std.specs.Prelude.{List, Option, Bool};
    ghost use Rattle.proof_check.specs.Inside.Trail.{IsTrail};

    ghost Value = { List (Option Bool) };

    ghost view = { λ t. t.values.items };

    ghost invariant = { λ t. IsTrail t.values.items t.trail.items t.count };
}

impl Table {
    /// A table of so many variables, of which nothing is known.
    pub fn new(alloc: Global, vars: usize) -> Result<Table, NoMemory>
        ensures { IfOk result (λ table. table ≡ replicate vars None) }
    {
        let values = vec![in alloc; None; vars]?;
        let trail = vec![in alloc; 0; vars]?;
        Ok(Table {
            values,
            trail,
            count: 0,
        })
    }

    /// The number of variables.
    #[inline]
    pub fn len(&self) -> usize
        ensures { result ≡ length self.now }
    {
        self.values.len()
    }

    #[inline]
    pub fn get(&self, var: usize) -> Option<bool>
        requires { var < length self.now }
        ensures { result ≡ slice_index_or self.now var None }
    {
        self.values[var]
    }

    /// What the literal is, where its variable has a value.
    #[inline]
    pub fn value(&self, lit: Lit) -> Option<bool>
        requires { lit.var < length self.now }
        ensures value { result ≡ value_of self.now lit }
        ensures free { IfNone result (slice_index_or self.now lit.var None ≡ None) }
    {
        match self.values[lit.var] {
            Some(value) => Some(lit.signed(value)),
            None => None,
        }
    }

    #[inline]
    fn set(&mut self, var: usize, value: bool)
        requires in_range { var < length self.old }
        requires free { slice_index_or self.old var None ≡ None }
        ensures { self.new ≡ slice_set self.old var (Some value) }
    {
        self.trail[self.count] = var;
        self.count += 1;
        self.values[var] = Some(value);
    }

    /// Makes a literal true of whose variable nothing is known.
    #[inline]
    pub fn set_true(&mut self, lit: Lit)
        requires in_range { lit.var < length self.old }
        requires free { slice_index_or self.old lit.var None ≡ None }
        ensures { self.new ≡ with_true self.old lit }
    {
        self.set(lit.var, !lit.negative);
    }

    /// Makes each literal false, unless one is true by then: then says no, and those before it stay false.
    pub fn assume(&mut self, lits: &[Lit]) -> bool
        requires { IsInRange (length self.old) lits.now }
        ensures assumed { IsAssumed (assumed self.old lits.now) result self.new }
        ensures len { length self.new ≡ length self.old }
    {
        for lit in lits {
            match self.value(*lit) {
                None => self.set(lit.var, lit.negative),
                Some(false) => {}
                Some(true) => return false,
            }
        }
        true
    }

    /// What the clause says.
    pub fn outcome(&self, lits: &[Lit]) -> Outcome
        requires { IsInRange (length self.now) lits.now }
        ensures outcome { result ≡ propagates self.now lits.now }
        ensures unit { IsFreeUnit self.now result }
    {
        for (place, lit) in lits.iter().enumerate() {
            match self.value(*lit) {
                Some(false) => {}
                Some(true) => return Outcome::Stuck,
                None => {
                    return if self.leaves_only(*lit, &lits[place + 1..]) {
                        Outcome::Unit(*lit)
                    } else {
                        Outcome::Stuck
                    };
                }
            }
        }
        Outcome::Conflict
    }

    /// Whether each of the literals is false or is this one.
    fn leaves_only(&self, only: Lit, lits: &[Lit]) -> bool
        requires { IsInRange (length self.now) lits.now }
        ensures { result ≡ list_all (same_lit only) (remaining self.now lits.now) }
    {
        for lit in lits {
            match self.value(*lit) {
                Some(false) => {}
                _ => {
                    if !is_same(only, *lit) {
                        return false;
                    }
                }
            }
        }
        true
    }

    /// Takes all values back.
    pub fn clear(&mut self)
        ensures { self.new ≡ replicate (length self.old) None }
    {
        while self.count > 0 {
            self.count -= 1;
            let var = self.trail[self.count];
            self.values[var] = None;
        }
    }
}

#[inline]
fn is_same(a: Lit, b: Lit) -> bool
    ensures { result ≡ same_lit a b }
{
    a.var == b.var && a.negative == b.negative
}
