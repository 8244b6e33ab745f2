ghost use Rattle.std.specs.Prelude.{◌≡◌, ◌||◌, ◌+◌, ◌<◌, ◌≤◌, ◌^◌, ◌∷◌, ◌++◌, [], ℕ, false, IfOk, OnOk, length, map, reverse, slice_index_or, if◌then◌else◌};
ghost use Rattle.std.specs.List.{filter, range_with_len};
ghost use Rattle.certificates.specs.Writable.{IsWritable};
ghost use Rattle.certificates.specs.declared.derivation.Item.TheVariants as variants;
ghost use Rattle.proof_check.specs.Derivations.{IsAccepted};
ghost use Rattle.proof_check.specs.Trimming as specs;
ghost use Rattle.proof_check.specs.Trimming.{deletion, needed_items, trimmed};
ghost use Rattle.proof_check.specs.Inside.Trim as inside;
ghost use Rattle.proof_check.specs.Inside.Trim.{looked_up, pointed};

use certificates::{Derivation, Item, Numbers, Step};
use cnf::{Cnf, NoMemory};
use std::alloc::Global;

/// What an accepted derivation needs to reach its first empty clause, with the numbers that the clauses then have, and with a
/// deletion behind each step for the steps that it is the last to name.
pub fn trim(alloc: Global, cnf: &Cnf, derivation: &Derivation) -> Result<Derivation, NoMemory>
    requires { IsAccepted cnf.now.vars cnf.now.clauses derivation.now }
    ensures trimmed { IfOk result
        (λ answer. answer ≡ trimmed (length cnf.now.clauses) derivation.now) }
    ensures accepted { IfOk result
        (λ answer. IsAccepted cnf.now.vars cnf.now.clauses answer) }
    ensures writable { IsWritable derivation.now → IfOk result (λ answer. IsWritable answer) }
{
    let given = cnf.clauses().len();
    let steps = steps_to_empty(alloc, derivation.items())?;
    let mut named = vec![in alloc; false; steps.len()]?;
    let items = needed_items(alloc, given, steps.as_slice(), named.as_mut_slice())?;
    let numbers = new_numbers(alloc, given, named.as_slice())?;
    let answer = all_renumbered(alloc, given, numbers.as_slice(), items.as_slice())?;
    Ok(Derivation::of(answer))
}

/// The steps up to the first with the empty clause.
fn steps_to_empty<'a>(alloc: Global, items: &'a [Item]) -> Result<Vec<&'a Step>, NoMemory>
    ensures { IfOk result (λ steps. pointed steps.items ≡ specs.steps_to_empty items.now) }
{
    let mut steps = Vec::new(alloc);
    for item in items {
        if let Item::Add(step) = item {
            steps.push(step)?;
            if step.clause.lits().is_empty() {
                return Ok(steps);
            }
        }
    }
    Ok(steps)
}

/// The needed steps and their deletions, by the old numbers. Finds out which steps a later one needs.
fn needed_items(
    alloc: Global,
    given: usize,
    steps: &[&Step],
    named: &mut [bool],
) -> Result<Vec<Item>, NoMemory>
    requires len { length named.old ≡ length steps.now }
    requires unnamed { (place : ℕ) → slice_index_or named.old place false ≡ false }
    ensures items { IfOk result
        (λ items. items.items ≡ needed_items given (given + 1) (pointed steps.now)) }
    ensures named { IfOk result (λ _. inside.AreNamed given (pointed steps.now) named.new) }
{
    let mut items = Vec::new(alloc);
    for place in (0..steps.len()).rev() {
        let ends = place + 1 == steps.len();
        if !ends && !named[place] {
            continue;
        }
        let step = steps[place];
        let last = last_named(alloc, given, &*named, place, step.hints.as_slice())?;
        mark(named, given, last.as_slice());
        push_step(alloc, &mut items, step, last, ends)?;
    }
    items.reverse();
    Ok(items)
}

/// The step, and before it what follows it: the deletion of these, unless the derivation ends with it.
fn push_step(
    alloc: Global,
    items: &mut Vec<Item>,
    step: &Step,
    last: Vec<usize>,
    ends: bool,
) -> Result<(), NoMemory>
    ensures { OnOk result (items.new.items ≡ items.old.items
        ++ reverse (variants.Add step.now ∷ (if ends then [] else deletion last.items))) }
{
    let step = Item::Add(copy(alloc, step)?);
    if ends || last.is_empty() {
        items.push(step)?;
        return Ok(());
    }
    items.push(Item::Delete(Numbers::of(last)))?;
    items.push(step)?;
    Ok(())
}

fn copy(alloc: Global, step: &Step) -> Result<Step, NoMemory>
    ensures { IfOk result (λ copy. copy ≡ step.now) }
{
    Ok(Step {
        clause: step.clause.copy(alloc)?,
        hints: Numbers::of(Vec::from_slice(alloc, step.hints.as_slice())?),
    })
}

/// The numbers of steps before this one among the hints that no later step names, rising.
fn last_named(
    alloc: Global,
    given: usize,
    named: &[bool],
    place: usize,
    hints: &[usize],
) -> Result<Vec<usize>, NoMemory>
    requires { place ≤ length named.now }
    ensures { IfOk result (λ numbers. numbers.items
        ≡ filter (inside.is_last given named.now hints.now) (range_with_len (given + 1) place)) }
{
    let mut numbers = Vec::new(alloc);
    for hint in hints {
        if *hint > given && *hint - given <= place && !named[*hint - given - 1] {
            numbers.push(*hint)?;
        }
    }
    numbers.sort_unstable();
    numbers.dedup();
    Ok(numbers)
}

/// Marks the steps of these numbers.
fn mark(named: &mut [bool], given: usize, numbers: &[usize])
    ensures { inside.Marks given numbers.now named.old named.new }
{
    for number in numbers {
        if *number > given && *number - given <= named.len() {
            named[*number - given - 1] = true;
        }
    }
}

/// The new number of the last given clause, and those of the steps.
fn new_numbers(alloc: Global, given: usize, named: &[bool]) -> Result<Vec<usize>, NoMemory>
    requires { given + length named.now < 2 ^ 64 }
    ensures { IfOk result (λ numbers. inside.AreNewNumbers given named.now numbers.items) }
{
    let mut numbers = Vec::with_capacity(alloc, named.len())?;
    let mut last = given;
    numbers.push(last)?;
    for (place, is_named) in named.iter().enumerate() {
        last = next_number(last, *is_named, place + 1 == named.len());
        numbers.push(last)?;
    }
    Ok(numbers)
}

fn next_number(last: usize, is_named: bool, ends: bool) -> usize
    requires { last + 1 < 2 ^ 64 }
    ensures { result ≡ (if is_named || ends then last + 1 else last) }
{
    if is_named || ends { last + 1 } else { last }
}

/// The new number for an old one; beyond the last, the last.
fn new_number(given: usize, numbers: &[usize], number: usize) -> usize
    requires { 0 < length numbers.now }
    ensures { result ≡ looked_up given numbers.now number }
{
    if number <= given {
        number
    } else {
        numbers[(number - given).min(numbers.len() - 1)]
    }
}

fn all_new(
    alloc: Global,
    given: usize,
    numbers: &[usize],
    olds: &[usize],
) -> Result<Numbers, NoMemory>
    requires { 0 < length numbers.now }
    ensures { IfOk result (λ news. news ≡ map (looked_up given numbers.now) olds.now) }
{
    let mut news = Vec::with_capacity(alloc, olds.len())?;
    for old in olds {
        news.push(new_number(given, numbers, *old))?;
    }
    Ok(Numbers::of(news))
}

fn renumbered(alloc: Global, given: usize, numbers: &[usize], item: &Item) -> Result<Item, NoMemory>
    requires { 0 < length numbers.now }
    ensures { IfOk result
        (λ new. new ≡ specs.renumbered (looked_up given numbers.now) item.now) }
{
    match item {
        Item::Add(step) => Ok(Item::Add(Step {
            clause: step.clause.copy(alloc)?,
            hints: all_new(alloc, given, numbers, step.hints.as_slice())?,
        })),
        Item::Delete(olds) => Ok(Item::Delete(all_new(alloc, given, numbers, olds.as_slice())?)),
    }
}

fn all_renumbered(
    alloc: Global,
    given: usize,
    numbers: &[usize],
    items: &[Item],
) -> Result<Vec<Item>, NoMemory>
    requires { 0 < length numbers.now }
    ensures { IfOk result
        (λ news. news.items ≡ map (specs.renumbered (looked_up given numbers.now)) items.now) }
{
    let mut news = Vec::with_capacity(alloc, items.len())?;
    for item in items {
        news.push(renumbered(alloc, given, numbers, item)?)?;
    }
    Ok(news)
}
