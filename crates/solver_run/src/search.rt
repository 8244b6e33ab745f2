ghost use Rattle.std.specs.Prelude.{◌≡◌, ◌<◌, IfOk};
ghost use Rattle.sat_core.specs.Solving.{Answers};

use cnf::{Cnf, NoMemory};
use sat_core::{Solved, Solver, Steps};
use std::alloc::Global;
use std::marker::Brand;
use std::sync::ledger::{Blank, Ledger};

/// The least model of the clauses, or a derivation that there is none.
pub fn solved(alloc: Global, cnf: Cnf) -> Result<Solved, NoMemory>
    ensures { IfOk result (Answers cnf.vars cnf.clauses) }
{
    solved_by::<Brand>(alloc, cnf, Blank::new(1))
}

/// The same by one search, which is counted by a counter of its own.
fn solved_by<L: Ledger>(alloc: Global, cnf: Cnf, blank: Blank) -> Result<Solved, NoMemory>
    requires name { blank.name ≡ L.name }
    requires parts { blank.parts ≡ L.parts }
    requires some { 0 < blank.parts }
    ensures { IfOk result (Answers cnf.vars cnf.clauses) }
{
    let mut solver = Solver::new(alloc, cnf)?;
    let mut steps = Steps::<L>::begin(blank);
    solver.solve(&[], &mut steps)
}
