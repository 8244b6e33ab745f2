ghost use Rattle.std.specs.Prelude.{◌≡◌, ◌≤◌, ◌+◌, ◌<◌, ◌^◌, ◌++◌, ◌∷◌, [], Bool, IfOk, IfSome, List, length, map};
ghost use Rattle.cnf.specs.Clauses.{IsModel};
ghost use Rattle.certificates.specs.declared.derivation.Item.TheVariants as item;
ghost use Rattle.sat_core.specs.Inside.Split.{Excludes, FirstFails, Grows, IsLog, IsRight, Splits, excluding, with_steps};
ghost use Rattle.sat_core.specs.Solving.{Answers};

use crate::derivation::are_writable;
use crate::solved::Solved;
use certificates::{Derivation, Item, Numbers, Step};
use cnf::{Clause, Cnf, Lit, NoMemory};
use std::alloc::Global;

/// The place of the first clause that fails.
fn first_failing(cnf: &Cnf, values: &[bool]) -> Option<usize>
    requires { length values.now ≡ cnf.now.vars }
    ensures fails { FirstFails cnf.now values.now result }
    ensures few { IfSome result (λ place. place + 1 < 2 ^ 64) }
{
    for (place, clause) in cnf.clauses().iter().enumerate() {
        if !clause.holds(values) {
            return Some(place);
        }
    }
    None
}

/// The clause that is false just where the first variables have the chosen values.
fn exclusion(alloc: Global, chosen: &[bool]) -> Result<Clause, NoMemory>
    ensures { IfOk result (λ clause. clause ≡ excluding 0 chosen.now) }
{
    let mut lits = Vec::new(alloc);
    for (var, value) in chosen.iter().enumerate() {
        lits.push(Lit::new(var, *value))?;
    }
    Clause::from_lits(alloc, lits.as_slice())
}

/// Adds the step that excludes the choice, which these clauses show by their numbers. Answers its number.
fn exclude(
    alloc: Global,
    cnf: &Cnf,
    steps: &mut Vec<Step>,
    chosen: &[bool],
    hints: &[usize],
) -> Result<usize, NoMemory>
    requires log { IsLog cnf.now steps.old.items }
    requires right { IsRight cnf.now.vars (with_steps cnf.now.clauses steps.old.items)
        (record { clause = excluding 0 chosen.now; hints = hints.now }) }
    requires none { (rest : List Bool) →
        IsModel cnf.now.vars cnf.now.clauses (chosen.now ++ rest) → ⊥ }
    ensures grows { IfOk result (λ _. Grows steps.old.items steps.new.items) }
    ensures excludes { IfOk result (Excludes cnf.now steps.new.items chosen.now) }
{
    let number = cnf.clauses().len() + steps.len() + 1;
    let step = Step {
        clause: exclusion(alloc, chosen)?,
        hints: Numbers::of(Vec::from_slice(alloc, hints)?),
    };
    steps.push(step)?;
    Ok(number)
}

/// The least model that begins with the chosen values, in their place; else the number of a step that excludes them.
fn split(
    alloc: Global,
    cnf: &Cnf,
    steps: &mut Vec<Step>,
    chosen: &mut Vec<bool>,
) -> Result<Option<usize>, NoMemory>
    requires few { length chosen.old.items ≤ cnf.now.vars }
    requires log { IsLog cnf.now steps.old.items }
    ensures grows { IfOk result (λ _. Grows steps.old.items steps.new.items) }
    ensures splits { IfOk result
        (Splits cnf.now steps.new.items chosen.old.items chosen.new.items) }
{
    if chosen.len() == cnf.vars() {
        let Some(place) = first_failing(cnf, chosen.as_slice()) else {
            return Ok(None);
        };
        let number = exclude(alloc, cnf, steps, chosen.as_slice(), &[place + 1])?;
        return Ok(Some(number));
    }
    chosen.push(false)?;
    let Some(low) = split(alloc, cnf, steps, chosen)? else {
        return Ok(None);
    };
    chosen.pop();
    chosen.push(true)?;
    let Some(high) = split(alloc, cnf, steps, chosen)? else {
        return Ok(None);
    };
    chosen.pop();
    let number = exclude(alloc, cnf, steps, chosen.as_slice(), &[low, high])?;
    Ok(Some(number))
}

fn items_of(alloc: Global, steps: Vec<Step>) -> Result<Vec<Item>, NoMemory>
    ensures { IfOk result (λ items. items.items ≡ map item.Add steps.items) }
{
    let mut items = Vec::new(alloc);
    for step in steps {
        items.push(Item::Add(step))?;
    }
    Ok(items)
}

/// The least model of the clauses, or a derivation that there is none, by trying false before true for one variable after
/// another. It takes a time that doubles with each variable, so it counts how often it is called.
pub(crate) fn solve_plainly(alloc: Global, cnf: &Cnf, calls: &mut u64) -> Result<Solved, NoMemory>
    ensures answers { IfOk result (Answers cnf.now.vars cnf.now.clauses) }
    ensures counted { calls.old + 1 < 2 ^ 64 → calls.new ≡ calls.old + 1 }
    ensures kept { calls.old ≤ calls.new }
{
    *calls = calls.saturating_add(1);
    let mut chosen = Vec::new(alloc);
    let mut steps = Vec::new(alloc);
    let Some(_) = split(alloc, cnf, &mut steps, &mut chosen)? else {
        return Ok(Solved::Least(chosen));
    };
    let items = items_of(alloc, steps)?;
    // Numbers of 2^62 and more have no text, and so many clauses or variables have no place in any memory.
    if !are_writable(items.as_slice()) {
        return Err(NoMemory);
    }
    Ok(Solved::None(Derivation::of(items)))
}
