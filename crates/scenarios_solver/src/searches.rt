ghost use Rattle.std.specs.Prelude.{◌≡◌, ◌<◌};
ghost use Rattle.cnf.specs.Clauses.{IsInRange};

use cnf::{Clause, Cnf, CnfFault, Lit, NoMemory};
use sat_core::{Solved, Solver, Steps};
use std::alloc::Global;
use std::marker::Brand;
use std::sync::ledger::{Blank, Ledger};

/// What is found where these literals are assumed.
fn found<L: Ledger>(solver: &mut Solver, assume: &[Lit], blank: Blank) -> Result<Solved, NoMemory>
    requires name { blank.name ≡ L.name }
    requires parts { blank.parts ≡ L.parts }
    requires some { 0 < blank.parts }
    requires in_range { IsInRange solver.old.given.vars assume.now }
    ensures { solver.new.given ≡ solver.old.given }
{
    let mut steps: Steps<L> = Steps::begin(blank);
    solver.solve(assume, &mut steps)
}

/// What is found where these literals are assumed, by who counts no steps.
pub(crate) fn answer_assuming(solver: &mut Solver, assume: &[Lit]) -> Result<Solved, NoMemory>
    requires { IsInRange solver.old.given.vars assume.now }
    ensures { solver.new.given ≡ solver.old.given }
{
    found::<Brand>(solver, assume, Blank::new(1))
}

/// What is found where nothing is assumed.
pub(crate) fn answer(solver: &mut Solver) -> Result<Solved, NoMemory>
    ensures { solver.new.given ≡ solver.old.given }
{
    answer_assuming(solver, &[])
}

fn push(alloc: Global, cnf: &mut Cnf, lits: &[Lit]) -> Result<(), CnfFault> {
    cnf.push(Clause::from_lits(alloc, lits)?)
}

/// Of each of 32 pairs one is true; and no values of the last two variables are left. The last two are decided last.
fn pairs_and_none(alloc: Global) -> Result<Cnf, CnfFault> {
    let mut cnf = Cnf::new(alloc, 66);
    for pair in 0..32 {
        push(
            alloc,
            &mut cnf,
            &[Lit::new(2 * pair, false), Lit::new(2 * pair + 1, false)],
        )?;
    }
    for signs in 0..4 {
        let lits = [Lit::new(64, signs % 2 == 1), Lit::new(65, signs >= 2)];
        push(alloc, &mut cnf, &lits)?;
    }
    Ok(cnf)
}

/// Each variable but the last implies the next one, in an order of clauses that jumps; the first one is true.
fn chain(alloc: Global, count: usize) -> Result<Cnf, CnfFault> {
    let mut cnf = Cnf::new(alloc, count.saturating_add(1));
    let mut var: usize = 0;
    for _ in 0..count {
        push(
            alloc,
            &mut cnf,
            &[Lit::new(var, true), Lit::new(var.saturating_add(1), false)],
        )?;
        var = var.wrapping_add(1025) % count.max(1);
    }
    push(alloc, &mut cnf, &[Lit::new(0, false)])?;
    Ok(cnf)
}

fn steps_of(alloc: Global) -> Result<Option<(usize, u64)>, CnfFault> {
    let mut solver = Solver::new(alloc, pairs_and_none(alloc)?)?;
    let found = answer(&mut solver)?;
    match found {
        Solved::Least(_) => Ok(None),
        Solved::None(derivation) => Ok(Some((derivation.items().len(), solver.fallbacks()))),
    }
}

fn all_true(alloc: Global, count: usize) -> Result<Option<(bool, u64)>, CnfFault> {
    let mut solver = Solver::new(alloc, chain(alloc, count)?)?;
    let found = answer(&mut solver)?;
    match found {
        Solved::Least(values) => {
            Ok(Some((values.iter().all(|value| *value), solver.fallbacks())))
        }
        Solved::None(_) => Ok(None),
    }
}

#[test]
fn what_was_learned_is_not_searched_again(rt: HostRuntime) {
    let steps = steps_of(rt.alloc());
    assert!(&rt; matches!(steps, Ok(Some((1..=100, 0)))));
}

#[test]
fn a_chain_is_followed_at_once(rt: HostRuntime) {
    let values = all_true(rt.alloc(), 1 << 19);
    assert!(&rt; matches!(values, Ok(Some((true, 0)))));
}
