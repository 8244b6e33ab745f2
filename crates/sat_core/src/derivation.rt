ghost use Rattle.std.specs.Prelude.{◌≡◌, IfOk, IfSome, All, ◌<◌, ◌≤◌, ◌+◌, ◌^◌};
ghost use Rattle.std.specs.Bool.{OnTrue};
ghost use Rattle.certificates.specs.Writable.{IsWritable, IsWritableItem, IsWritableNumber, IsWritableStep};
ghost use Rattle.proof_check.specs.Derivations.{IsAccepted};
ghost use Rattle.sat_core.specs.Solving.{EndsEmpty, IsRefutation, adds_empty as item_adds_empty};

use crate::source::{Source, narrow};
use crate::store::{Learned, Store};
use certificates::{Derivation, Item, Numbers, Step};
use cnf::{Cnf, Lit, NoMemory};
use proof_check::{CheckFault, check};
use std::alloc::Global;

/// The first number, and the first variable, that has no text.
const LIMIT: usize = 1 << 62;

fn place_of(learned: &[Learned], number: u32) -> Option<usize> {
    learned.binary_search_by_key(&number, |one| one.number).ok()
}

/// Marks the learned clauses that a clause's hints name.
fn mark_hinted(learned: &[Learned], hints: &[u32], marks: &mut Vec<bool>) {
    for hint in hints {
        if let Source::Learned(number) = Source::of(*hint) {
            if let Some(place) = place_of(learned, narrow(number)) {
                if place < marks.len() {
                    marks[place] = true;
                }
            }
        }
    }
}

/// Which learned clauses the last one needs.
fn needed(alloc: Global, learned: &[Learned]) -> Result<Vec<bool>, NoMemory> {
    let mut marks = vec![in alloc; false; learned.len()]?;
    let count = learned.len();
    for (place, one) in learned.iter().enumerate().rev() {
        if place < marks.len() && (marks[place] || place + 1 == count) {
            marks[place] = true;
            mark_hinted(learned, one.hints.as_slice(), &mut marks);
        }
    }
    Ok(marks)
}

/// The number of a clause among the given ones and the steps.
fn number_of(learned: &[Learned], numbers: &[usize], hint: u32) -> usize {
    match Source::of(hint) {
        Source::Given(place) => place.saturating_add(1),
        Source::Learned(number) => match place_of(learned, narrow(number)) {
            Some(place) if place < numbers.len() => numbers[place],
            _ => 0,
        },
    }
}

fn step_of(
    alloc: Global,
    learned: &[Learned],
    numbers: &[usize],
    one: &Learned,
) -> Result<Step, NoMemory> {
    let mut hints = Vec::with_capacity(alloc, one.hints.len())?;
    for hint in &one.hints {
        hints.push(number_of(learned, numbers, *hint))?;
    }
    Ok(Step {
        clause: one.clause.copy(alloc)?,
        hints: Numbers::of(hints),
    })
}

/// The learned clauses that the last one needs, as steps, up to the first that is empty.
fn replayed(alloc: Global, given: usize, learned: &[Learned]) -> Result<Vec<Item>, NoMemory> {
    let marks = needed(alloc, learned)?;
    let mut numbers = vec![in alloc; 0; learned.len()]?;
    let mut items = Vec::new(alloc);
    for (place, one) in learned.iter().enumerate() {
        if place < marks.len() && marks[place] {
            items.push(Item::Add(step_of(alloc, learned, numbers.as_slice(), one)?))?;
            if place < numbers.len() {
                numbers[place] = given.saturating_add(items.len());
            }
            if one.clause.lits().is_empty() {
                break;
            }
        }
    }
    Ok(items)
}

fn adds_empty(item: &Item) -> bool
    ensures { result ≡ item_adds_empty item.now }
{
    match item {
        Item::Add(step) => step.clause.lits().is_empty(),
        Item::Delete(_) => false,
    }
}

/// Whether the last item adds the empty clause, and no other one does.
fn ends_empty(items: &[Item]) -> bool
    ensures { OnTrue result (EndsEmpty items.now) }
{
    for (place, item) in items.iter().enumerate() {
        if adds_empty(item) {
            if place + 1 < items.len() {
                return false;
            }
            return true;
        }
    }
    false
}

fn are_writable_numbers(numbers: &[usize]) -> bool
    ensures { OnTrue result (All IsWritableNumber numbers.now) }
{
    numbers.iter().all(|number| *number >= 1 && *number < LIMIT)
}

fn are_writable_lits(lits: &[Lit]) -> bool
    ensures { OnTrue result (All (λ l. l.var + 1 < 2 ^ 62) lits.now) }
{
    lits.iter().all(|lit| lit.var < LIMIT - 1)
}

fn is_writable_item(item: &Item) -> bool
    ensures { OnTrue result (IsWritableItem item.now) }
{
    match item {
        Item::Add(step) => {
            are_writable_lits(step.clause.lits()) && are_writable_numbers(step.hints.as_slice())
        }
        Item::Delete(numbers) => {
            let numbers = numbers.as_slice();
            !numbers.is_empty() && are_writable_numbers(numbers)
        }
    }
}

/// Whether the items have a text.
pub(crate) fn are_writable(items: &[Item]) -> bool
    ensures { OnTrue result (IsWritable items.now) }
{
    for item in items {
        if !is_writable_item(item) {
            return false;
        }
    }
    true
}

/// Whether the derivation is accepted over the clauses.
fn is_accepted(alloc: Global, cnf: &Cnf, derivation: &Derivation) -> Result<bool, NoMemory>
    ensures { IfOk result (λ answer. OnTrue answer
        (IsAccepted cnf.now.vars cnf.now.clauses derivation.now)) }
{
    match check(alloc, cnf, derivation) {
        Ok(()) => Ok(true),
        Err(CheckFault::NoMemory) => Err(NoMemory),
        Err(_) => Ok(false),
    }
}

/// The derivation of the clause that was learned last, if it shows that there is no model.
pub(crate) fn refutation(alloc: Global, store: &Store) -> Result<Option<Derivation>, NoMemory>
    ensures { IfOk result (λ found. IfSome found (λ derivation.
        IsRefutation store.now.vars store.now.clauses derivation)) }
{
    let cnf = store.cnf();
    let items = replayed(alloc, cnf.clauses().len(), store.learned())?;
    if !ends_empty(items.as_slice()) || !are_writable(items.as_slice()) {
        return Ok(None);
    }
    let derivation = Derivation::of(items);
    if is_accepted(alloc, cnf, &derivation)? {
        return Ok(Some(derivation));
    }
    Ok(None)
}
