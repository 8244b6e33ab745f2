ghost use Rattle.std.specs.Prelude.{◌≡◌};

use crate::searches::{answer, answer_assuming};
use cnf::{Clause, Cnf, CnfFault, Lit, NoMemory};
use sat_core::{Solved, Solver};
use std::alloc::Global;

const VARS: usize = 9;

/// Numbers that look random, from a seed.
fn draw(seed: &mut u64) -> u64 {
    let now = *seed;
    *seed = now
        .wrapping_mul(6364136223846793005)
        .wrapping_add(1442695040888963407);
    (now >> 33) ^ (now >> 53)
}

fn clause(alloc: Global, seed: &mut u64) -> Result<Vec<Lit>, NoMemory> {
    let mut lits = Vec::new(alloc);
    for _ in 0..1 + draw(seed) % 4 {
        let var = (draw(seed) % 9) as usize;
        lits.push(Lit::new(var, draw(seed) % 2 == 0))?;
    }
    Ok(lits)
}

fn random_clauses(alloc: Global, seed: &mut u64) -> Result<Cnf, CnfFault> {
    let mut cnf = Cnf::new(alloc, VARS);
    for _ in 0..10 + draw(seed) % 20 {
        let lits = clause(alloc, seed)?;
        cnf.push(Clause::from_lits(alloc, lits.as_slice())?)?;
    }
    Ok(cnf)
}

/// The values of a number, the highest bit first.
fn values_of(alloc: Global, number: u64) -> Result<Vec<bool>, NoMemory> {
    let mut values = Vec::new(alloc);
    for place in [8, 7, 6, 5, 4, 3, 2, 1, 0] {
        values.push((number >> place) % 2 == 1)?;
    }
    Ok(values)
}

fn clause_holds(lits: &[Lit], values: &[bool]) -> bool {
    lits.iter().any(|lit| lit.var < values.len() && values[lit.var] != lit.negative)
}

fn all_hold(clauses: &[Clause], values: &[bool]) -> bool {
    clauses
        .iter()
        .all(|clause| clause_holds(clause.lits(), values))
}

/// The first values with which all clauses hold, by a table of all values.
fn first_by_table(alloc: Global, clauses: &[Clause]) -> Result<Option<Vec<bool>>, CnfFault> {
    for number in 0..512 {
        let values = values_of(alloc, number)?;
        if all_hold(clauses, values.as_slice()) {
            return Ok(Some(values));
        }
    }
    Ok(None)
}

fn agree(solved: &Solved, expected: &Option<Vec<bool>>) -> bool {
    match (solved, expected) {
        (Solved::Least(values), Some(first)) => values.as_slice() == first.as_slice(),
        (Solved::None(_), None) => true,
        _ => false,
    }
}

/// How many of so many random sets of clauses were answered otherwise than by the table, or by a plain search.
fn disagreements(alloc: Global, count: u64) -> Result<u64, CnfFault> {
    let mut seed = 7;
    let mut wrong: u64 = 0;
    for _ in 0..count {
        let cnf = random_clauses(alloc, &mut seed)?;
        let expected = first_by_table(alloc, cnf.clauses())?;
        let mut solver = Solver::new(alloc, cnf)?;
        let solved = answer(&mut solver)?;
        if !agree(&solved, &expected) || solver.fallbacks() != 0 {
            wrong = wrong.saturating_add(1);
        }
    }
    Ok(wrong)
}

#[test]
fn random_clauses_have_the_answer_of_a_table(rt: HostRuntime) {
    let wrong = disagreements(rt.alloc(), 60);
    assert!(&rt; matches!(wrong, Ok(0)));
}

/// Whether the answer is the table's, and no plain search gave it.
fn is_right(alloc: Global, solver: &mut Solver, cnf: &Cnf) -> Result<bool, CnfFault>
    ensures { solver.new.given ≡ solver.old.given }
{
    let expected = first_by_table(alloc, cnf.clauses())?;
    let solved = answer(solver)?;
    Ok(agree(&solved, &expected) && solver.fallbacks() == 0)
}

/// Whether the answer with the literal assumed is the table's with the literal as a clause, and the answer without it
/// again is that of the clauses alone.
fn assumes(alloc: Global, seed: &mut u64) -> Result<bool, CnfFault> {
    let cnf = random_clauses(alloc, seed)?;
    let lit = Lit::new((draw(seed) % 9) as usize, draw(seed) % 2 == 0);
    let mut with = cnf.copy(alloc)?;
    with.push(Clause::from_lits(alloc, &[lit])?)?;
    let expected = first_by_table(alloc, with.clauses())?;
    let mut solver = Solver::new(alloc, cnf.copy(alloc)?)?;
    let solved = answer_assuming(&mut solver, &[lit])?;
    Ok(agree(&solved, &expected) && is_right(alloc, &mut solver, &cnf)?)
}

/// How many of so many random sets of clauses were answered otherwise where a literal was assumed.
fn wrongly_assumed(alloc: Global, count: u64) -> Result<u64, CnfFault> {
    let mut seed = 5;
    let mut wrong: u64 = 0;
    for _ in 0..count {
        if !assumes(alloc, &mut seed)? {
            wrong = wrong.saturating_add(1);
        }
    }
    Ok(wrong)
}

#[test]
fn literals_are_assumed_for_one_answer(rt: HostRuntime) {
    let wrong = wrongly_assumed(rt.alloc(), 40);
    assert!(&rt; matches!(wrong, Ok(0)));
}

/// Adds a clause, asks, goes back and asks again. Answers whether both answers are right.
fn come_and_go(
    alloc: Global,
    solver: &mut Solver,
    base: &Cnf,
    seed: &mut u64,
) -> Result<bool, CnfFault> {
    let lits = clause(alloc, seed)?;
    let mut longer = base.copy(alloc)?;
    longer.push(Clause::from_lits(alloc, lits.as_slice())?)?;
    let mark = solver.mark();
    let Ok(()) = solver.add(lits.as_slice()) else {
        return Ok(false);
    };
    let with = is_right(alloc, solver, &longer)?;
    solver.back_to(mark);
    let without = is_right(alloc, solver, base)?;
    Ok(with && without)
}

/// How often an answer was wrong while clauses came and went.
fn wrong_answers(alloc: Global, count: u64) -> Result<u64, CnfFault> {
    let mut seed = 11;
    let mut wrong: u64 = 0;
    let base = random_clauses(alloc, &mut seed)?;
    let mut solver = Solver::new(alloc, base.copy(alloc)?)?;
    for _ in 0..count {
        if !come_and_go(alloc, &mut solver, &base, &mut seed)? {
            wrong = wrong.saturating_add(1);
        }
    }
    Ok(wrong)
}

#[test]
fn clauses_come_and_go(rt: HostRuntime) {
    let wrong = wrong_answers(rt.alloc(), 40);
    assert!(&rt; matches!(wrong, Ok(0)));
}
