//! Truth in finite universes.

ghost use Rattle.std.specs.Prelude.{◌≡◌, ◌↔◌, true, false, IsTrue, IsFalse, map, option_and_then};
ghost use Rattle.std.specs.Str.{bytes_eq};
ghost use Rattle.sorted_logic.specs.Finite.{answers};
ghost use Rattle.sorted_logic.specs.Inside.Evaluation.{scope, evaluation};
ghost use Rattle.sorted_logic.specs.Syntax.{for_all, there_is};
ghost use Rattle.sorted_logic.specs.Trees.{term_tree, terms_chain, formula_tree, conjunction, disjunction, equivalence};
ghost use Rattle.sorted_logic.specs.Truth.{value_of, values_of, passes_of, passes, are_same, no_policies, HasTruthValue};

use crate::elements::row_at;
use crate::formula::{Formula, Test};
use crate::scope::Scope;
use crate::term::{Sort, Term};
use crate::universe::FiniteUniverse;

/// The number passes the test.
fn is_passed(test: &Test, number: u128) -> bool
    ensures { result ≡ passes test.now number }
{
    match test {
        Test::Masked { value, wildcard } => bit_patterns::agrees(number, *value, *wildcard),
        Test::Range { low, high } => *low <= number && number <= *high,
    }
}

impl FiniteUniverse {
    /// Is the formula true where the free variables have these values?
    pub fn holds(&self, f: &Formula, env: &[u64]) -> bool
        ensures truth { IsTrue result
            ↔ HasTruthValue (answers self.now) no_policies (formula_tree f.now) true env.now }
        ensures falsity { IsFalse result
            ↔ HasTruthValue (answers self.now) no_policies (formula_tree f.now) false env.now }
    {
        self.truth(f, &Scope::Given(env))
    }

    /// The value of a term.
    #[cycle(value)]
    #[tactic(auto, using(crate::proofs::TreeEquations::term_trees))]
    fn value_of(&self, t: &Term, env: &Scope) -> Option<u64>
        ensures { result ≡ value_of (answers self.now) (scope env.now) (term_tree t.now) }
    {
        match t {
            Term::Var(x) => env.get(*x as u64),
            Term::Call(f, args) => self.value_at(f.0, args.as_slice(), env),
        }
    }

    /// The value of a function where its arguments are these terms: what was put last.
    #[cycle(value)]
    fn value_at(&self, function: u64, args: &[Term], env: &Scope) -> Option<u64>
        ensures { result ≡ option_and_then ((answers self.now).value function)
            (values_of (answers self.now) (scope env.now) (terms_chain args.now)) }
    {
        let mut last = None;
        for entry in row_at(self.values.as_slice(), function) {
            if self.have_values(args, env, entry.args.as_slice()) {
                last = Some(entry.value);
            }
        }
        last
    }

    /// The terms have these values.
    #[cycle(value)]
    fn have_values(&self, args: &[Term], env: &Scope, values: &[u64]) -> bool
        ensures { result ≡ passes_of (bytes_eq values.now)
            (values_of (answers self.now) (scope env.now) (terms_chain args.now)) }
    {
        if args.len() != values.len() {
            return false;
        }
        for (i, t) in args.iter().enumerate() {
            if self.value_of(t, env) != Some(values[i]) {
                return false;
            }
        }
        true
    }

    /// The relation holds of the terms' values.
    fn relates_terms(&self, relation: u64, args: &[Term], env: &Scope) -> bool
        ensures { result ≡ passes_of ((answers self.now).relates relation)
            (values_of (answers self.now) (scope env.now) (terms_chain args.now)) }
    {
        for fact in row_at(self.facts.as_slice(), relation) {
            if self.have_values(args, env, fact.as_slice()) {
                return true;
            }
        }
        false
    }

    /// Both terms have a value, and it is the same.
    fn equal_terms(&self, left: &Term, right: &Term, env: &Scope) -> bool
        ensures { result ≡ are_same
            (value_of (answers self.now) (scope env.now) (term_tree left.now))
            (value_of (answers self.now) (scope env.now) (term_tree right.now)) }
    {
        match (self.value_of(left, env), self.value_of(right, env)) {
            (Some(a), Some(b)) => a == b,
            _ => false,
        }
    }

    /// The term's value lies in the sort.
    fn lies_in(&self, s: Sort, t: &Term, env: &Scope) -> bool
        ensures { result ≡ passes_of ((answers self.now).has s.0)
            (value_of (answers self.now) (scope env.now) (term_tree t.now)) }
    {
        match self.value_of(t, env) {
            Some(e) => self.has(s, e),
            None => false,
        }
    }

    /// The term's value carries a number that passes the test.
    fn carries(&self, t: &Term, test: &Test, env: &Scope) -> bool
        ensures { result ≡ passes_of
            (λ e. passes_of (passes test.now) ((answers self.now).number e))
            (value_of (answers self.now) (scope env.now) (term_tree t.now)) }
    {
        match self.value_of(t, env) {
            Some(e) => match self.number(e) {
                Some(number) => is_passed(test, number),
                None => false,
            },
            None => false,
        }
    }

    /// Is the formula true?
    #[cycle(truth)]
    #[tactic(auto, using(crate::proofs::TreeEquations::formula_trees))]
    fn truth(&self, f: &Formula, env: &Scope) -> bool
        ensures { result ≡ evaluation (answers self.now) self.now.size
            (formula_tree f.now) (scope env.now) }
    {
        match f {
            Formula::True => true,
            Formula::False => false,
            Formula::Not(body) => !self.truth(body.get(), env),
            Formula::And(parts) => self.every_part(parts.as_slice(), env),
            Formula::Or(parts) => self.some_part(parts.as_slice(), env),
            Formula::Implies(left, right) => !self.truth(left.get(), env)
                || self.truth(right.get(), env),
            Formula::Iff(parts) => self.equal_parts(parts.as_slice(), env),
            Formula::Forall(s, body) => self.every_element(*s, body.get(), env),
            Formula::Exists(s, body) => self.some_element(*s, body.get(), env),
            Formula::Equal(left, right) => self.equal_terms(left, right, env),
            Formula::InSort(s, of) => self.lies_in(*s, of, env),
            Formula::Holds(r, args) => self.relates_terms(r.0, args.as_slice(), env),
            Formula::NumberTest(of, test) => self.carries(of, test, env),
            Formula::Decides {
                policy: _,
                decision: _,
                args: _,
            } => false,
            Formula::RuleIs {
                policy: _,
                rule: _,
                applies: _,
                args: _,
            } => false,
        }
    }

    /// Each part is true.
    #[cycle(truth)]
    fn every_part(&self, parts: &[Formula], env: &Scope) -> bool
        ensures { result ≡ evaluation (answers self.now) self.now.size
            (conjunction (map formula_tree parts.now)) (scope env.now) }
    {
        for part in parts {
            if !self.truth(part, env) {
                return false;
            }
        }
        true
    }

    /// Some part is true.
    #[cycle(truth)]
    fn some_part(&self, parts: &[Formula], env: &Scope) -> bool
        ensures { result ≡ evaluation (answers self.now) self.now.size
            (disjunction (map formula_tree parts.now)) (scope env.now) }
    {
        for part in parts {
            if self.truth(part, env) {
                return true;
            }
        }
        false
    }

    /// So many parts are false that the IFF of all is true: an even number.
    #[cycle(truth)]
    fn equal_parts(&self, parts: &[Formula], env: &Scope) -> bool
        ensures { result ≡ evaluation (answers self.now) self.now.size
            (equivalence (map formula_tree parts.now)) (scope env.now) }
    {
        let mut is_even = true;
        for part in parts {
            is_even = is_even == self.truth(part, env);
        }
        is_even
    }

    /// The formula is true of each element of the sort.
    #[cycle(truth)]
    fn every_element(&self, s: Sort, body: &Formula, env: &Scope) -> bool
        ensures { result ≡ evaluation (answers self.now) self.now.size
            (for_all s.0 (formula_tree body.now)) (scope env.now) }
    {
        for e in 0..self.size {
            if self.has(s, e) && !self.truth(body, &Scope::More(&*env, e)) {
                return false;
            }
        }
        true
    }

    /// The formula is true of some element of the sort.
    #[cycle(truth)]
    fn some_element(&self, s: Sort, body: &Formula, env: &Scope) -> bool
        ensures { result ≡ evaluation (answers self.now) self.now.size
            (there_is s.0 (formula_tree body.now)) (scope env.now) }
    {
        for e in 0..self.size {
            if self.has(s, e) && self.truth(body, &Scope::More(&*env, e)) {
                return true;
            }
        }
        false
    }
}
