//! Whether a finite universe is one of a signature: its functions and relations.

ghost use Rattle.std.specs.Prelude.{◌≡◌, ◌∷◌, length};
ghost use Rattle.std.specs.Str.{bytes_eq};
ghost use Rattle.sorted_logic.specs.Finite.{answers};
ghost use Rattle.sorted_logic.specs.Inside.Evaluation.{all_below, scope};
ghost use Rattle.sorted_logic.specs.Inside.UniverseTests.{are_elements, entries_fit, facts_fit, is_valued, each_choice, values_fit, arguments_fit, relation_fits, fits_symbols};

use crate::declarations::{FuncDecl, RelDecl};
use crate::elements::row_at;
use crate::scope::Scope;
use crate::signature::Sig;
use crate::term::Sort;
use crate::universe::{Entry, FiniteUniverse};
use sqlite_items::Items;

impl FiniteUniverse {
    /// Functions have values, in their result sorts, exactly at elements of their argument sorts, and relations hold of
    /// elements of their sorts alone.
    pub(crate) fn fits_symbols(&self, sig: &Sig) -> bool
        ensures { result ≡ fits_symbols self.now sig.now }
    {
        self.are_values_fit(sig.functions())
            && self.are_arguments_fit(sig.functions())
            && self.are_relations_fit(sig.relations())
    }

    /// The value of a function at the elements that were chosen.
    fn value_at_chosen(&self, f: u64, chosen: &Scope) -> Option<u64>
        ensures { result ≡ (answers self.now).value f (scope chosen.now) }
    {
        let mut last = None;
        for entry in row_at(self.values.as_slice(), f) {
            if chosen.equals(entry.args.as_slice()) {
                last = Some(entry.value);
            }
        }
        last
    }

    /// The function has a value there, and it lies in the result sort.
    fn is_valued(&self, f: u64, d: &FuncDecl, chosen: &Scope) -> bool
        ensures { result ≡ is_valued (answers self.now) f d.now (scope chosen.now) }
    {
        match self.value_at_chosen(f, chosen) {
            Some(e) => self.has(d.result, e),
            None => false,
        }
    }

    /// The function has its values at all elements of these sorts, behind those that were chosen.
    #[cycle(choices)]
    fn each_choice(&self, f: u64, d: &FuncDecl, sorts: &[Sort], chosen: &Scope) -> bool
        ensures { result ≡ each_choice (answers self.now) self.now.size
            (is_valued (answers self.now) f d.now) sorts.now (scope chosen.now) }
    {
        match sorts.split_first() {
            Some((s, others)) => self.each_first_choice(f, d, *s, others, chosen),
            None => self.is_valued(f, d, chosen),
        }
    }

    /// The same, where one sort comes before the others.
    #[cycle(choices)]
    fn each_first_choice(
        &self,
        f: u64,
        d: &FuncDecl,
        s: Sort,
        others: &[Sort],
        chosen: &Scope,
    ) -> bool
        ensures { result ≡ each_choice (answers self.now) self.now.size
            (is_valued (answers self.now) f d.now) (s ∷ others.now) (scope chosen.now) }
    {
        for e in 0..self.size {
            if self.has(s, e) && !self.each_choice(f, d, others, &Scope::More(&*chosen, e)) {
                return false;
            }
        }
        true
    }

    fn values_fit(&self, functions: &[FuncDecl], f: u64) -> bool
        ensures { result ≡ values_fit (answers self.now) self.now.size functions.now f }
    {
        match functions.get(f as usize) {
            Some(d) => self.each_choice(f, d, d.args.as_slice(), &Scope::Given(&[])),
            None => true,
        }
    }

    fn are_values_fit(&self, functions: &[FuncDecl]) -> bool
        ensures { result ≡ all_below (length functions.now)
            (values_fit (answers self.now) self.now.size functions.now) }
    {
        for f in 0..functions.len() as u64 {
            if !self.values_fit(functions, f) {
                return false;
            }
        }
        true
    }

    fn are_elements(&self, sorts: &[Sort], elements: &[u64]) -> bool
        ensures { result ≡ are_elements (answers self.now) sorts.now elements.now }
    {
        if sorts.len() != elements.len() {
            return false;
        }
        for (i, s) in sorts.iter().enumerate() {
            if !self.has(*s, elements[i]) {
                return false;
            }
        }
        true
    }

    fn entries_fit(&self, sorts: &[Sort], entries: &[Entry]) -> bool
        ensures { result ≡ entries_fit (answers self.now) sorts.now entries.now }
    {
        for entry in entries {
            if !self.are_elements(sorts, entry.args.as_slice()) {
                return false;
            }
        }
        true
    }

    fn facts_fit(&self, sorts: &[Sort], facts: &[Items<u64>]) -> bool
        ensures { result ≡ facts_fit (answers self.now) sorts.now facts.now }
    {
        for fact in facts {
            if !self.are_elements(sorts, fact.as_slice()) {
                return false;
            }
        }
        true
    }

    fn arguments_fit(&self, functions: &[FuncDecl], f: u64) -> bool
        ensures { result ≡ arguments_fit self.now functions.now f }
    {
        match functions.get(f as usize) {
            Some(d) => self.entries_fit(d.args.as_slice(), row_at(self.values.as_slice(), f)),
            None => true,
        }
    }

    fn are_arguments_fit(&self, functions: &[FuncDecl]) -> bool
        ensures { result ≡ all_below (length functions.now) (arguments_fit self.now functions.now) }
    {
        for f in 0..functions.len() as u64 {
            if !self.arguments_fit(functions, f) {
                return false;
            }
        }
        true
    }

    fn relation_fits(&self, relations: &[RelDecl], r: u64) -> bool
        ensures { result ≡ relation_fits self.now relations.now r }
    {
        match relations.get(r as usize) {
            Some(d) => self.facts_fit(d.args.as_slice(), row_at(self.facts.as_slice(), r)),
            None => true,
        }
    }

    fn are_relations_fit(&self, relations: &[RelDecl]) -> bool
        ensures { result ≡ all_below (length relations.now) (relation_fits self.now relations.now) }
    {
        for r in 0..relations.len() as u64 {
            if !self.relation_fits(relations, r) {
                return false;
            }
        }
        true
    }
}
