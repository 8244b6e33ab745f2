//! The elements of a finite universe: how its sorts, values, facts and numbers are put and asked.

ghost use Rattle.std.specs.Prelude.{◌≡◌, ◌<◌, false, [], IfOk, OnOk, OnErr, length, replicate};
ghost use Rattle.std.specs.List.{list_any};
ghost use Rattle.std.specs.Str.{bytes_eq};
ghost use Rattle.sorted_logic.specs.Finite.{row, last_value, answers, empty_table, with_member, with_value, with_fact, with_number};

use crate::signature::Sig;
use crate::term::{Func, Rel, Sort};
use crate::universe::{Entry, FiniteUniverse};
use sqlite_items::Items;
use std::alloc::{AllocError, Global};

/// So many rows of so many elements that lie in no sort.
fn rows_of_none(alloc: Global, count: usize, size: usize) -> Result<Vec<Items<bool>>, AllocError>
    ensures { IfOk result (λ rows. rows.items ≡ replicate count (replicate size false)) }
{
    let mut rows = Vec::new(alloc);
    for _place in 0..count {
        rows.push(Items::from_vec(vec![in alloc; false; size]?))?;
    }
    Ok(rows)
}

/// So many rows without items.
fn empty_rows<T: Drop>(alloc: Global, count: usize) -> Result<Vec<Items<T>>, AllocError>
    ensures { IfOk result (λ rows. rows.items ≡ replicate count []) }
{
    let mut rows = Vec::new(alloc);
    for _place in 0..count {
        rows.push(Items::new(alloc))?;
    }
    Ok(rows)
}

/// What stands in the row at a place, nothing where there is no such row.
pub(crate) fn row_at<T>(rows: &[Items<T>], place: u64) -> &[T]
    ensures { result.now ≡ row rows.now place }
{
    match rows.get(place as usize) {
        Some(items) => items.as_slice(),
        None => &[],
    }
}

/// The value that was put last at these elements.
fn last_put(entries: &[Entry], elements: &[u64]) -> Option<u64>
    ensures { result ≡ last_value entries.now elements.now }
{
    let mut last = None;
    for entry in entries {
        if entry.args.as_slice() == elements {
            last = Some(entry.value);
        }
    }
    last
}

/// Some fact is of these elements.
fn is_fact(facts: &[Items<u64>], elements: &[u64]) -> bool
    ensures { result ≡ list_any (bytes_eq elements.now) facts.now }
{
    for fact in facts {
        if elements == fact.as_slice() {
            return true;
        }
    }
    false
}

impl FiniteUniverse {
    /// A universe in which no sort has elements, nothing has a value, and nothing holds.
    pub fn new(alloc: Global, sig: &Sig, size: u64) -> Result<FiniteUniverse, AllocError>
        ensures { IfOk result (λ universe. universe ≡ empty_table sig.now size) }
    {
        Ok(FiniteUniverse {
            alloc,
            size,
            members: rows_of_none(alloc, sig.sorts().len(), size as usize)?,
            values: empty_rows(alloc, sig.functions().len())?,
            facts: empty_rows(alloc, sig.relations().len())?,
            numbers: vec![in alloc; None; size as usize]?,
        })
    }

    /// Puts an element into a sort.
    pub fn put_sort(&mut self, s: Sort, e: u64)
        requires sort { s.0 < length self.old.members }
        requires element { e < self.old.size }
        ensures { self.new ≡ with_member self.old s.0 e }
    {
        self.members[s.0 as usize].set(e as usize, true);
    }

    /// Gives a function a value at some elements, in place of the one that was put there before.
    pub fn put_value(&mut self, f: Func, args: &[u64], e: u64) -> Result<(), AllocError>
        requires function { f.0 < length self.old.values }
        ensures put { OnOk result (self.new ≡ with_value self.old f.0 args.now e) }
        ensures unchanged { OnErr result (self.new ≡ self.old) }
    {
        let args = Items::from_slice(self.alloc, args)?;
        self.values[f.0 as usize].push(Entry { args, value: e })
    }

    /// Makes a relation hold of some elements.
    pub fn put_holds(&mut self, r: Rel, args: &[u64]) -> Result<(), AllocError>
        requires relation { r.0 < length self.old.facts }
        ensures put { OnOk result (self.new ≡ with_fact self.old r.0 args.now) }
        ensures unchanged { OnErr result (self.new ≡ self.old) }
    {
        let args = Items::from_slice(self.alloc, args)?;
        self.facts[r.0 as usize].push(args)
    }

    /// Gives an element a number.
    pub fn put_number(&mut self, e: u64, n: u128)
        requires element { e < self.old.size }
        ensures { self.new ≡ with_number self.old e n }
    {
        self.numbers[e as usize] = Some(n);
    }

    /// How many elements there are.
    pub fn size(&self) -> u64
        ensures { result ≡ self.now.size }
    {
        self.size
    }

    /// The element lies in the sort.
    pub fn has(&self, s: Sort, e: u64) -> bool
        ensures { result ≡ (answers self.now).has s.0 e }
    {
        if e >= self.size {
            return false;
        }
        match row_at(self.members.as_slice(), s.0).get(e as usize) {
            Some(is_member) => *is_member,
            None => false,
        }
    }

    /// The value of a function at some elements: what was put last.
    pub fn value(&self, f: Func, args: &[u64]) -> Option<u64>
        ensures { result ≡ (answers self.now).value f.0 args.now }
    {
        last_put(row_at(self.values.as_slice(), f.0), args)
    }

    /// The relation holds of the elements.
    pub fn relates(&self, r: Rel, args: &[u64]) -> bool
        ensures { result ≡ (answers self.now).relates r.0 args.now }
    {
        is_fact(row_at(self.facts.as_slice(), r.0), args)
    }

    /// The number that an element carries.
    pub fn number(&self, e: u64) -> Option<u128>
        ensures { result ≡ (answers self.now).number e }
    {
        match self.numbers.get(e as usize) {
            Some(number) => *number,
            None => None,
        }
    }
}
