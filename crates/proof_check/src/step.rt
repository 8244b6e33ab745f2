ghost use Rattle.std.specs.Prelude.{◌≡◌, Some, None, length, map, replicate};
ghost use Rattle.cnf.specs.Clauses.{IsInRange};
ghost use Rattle.proof_check.specs.Derivations as specs;
ghost use Rattle.proof_check.specs.Derivations.{live_at};
ghost use Rattle.proof_check.specs.Inside.Each.{LiveInRange};
ghost use Rattle.proof_check.specs.Propagation as propagation;

use crate::live::LiveClauses;
use crate::table::{Outcome, Table};
use certificates::Step;

/// The place of the first hint that is a fault, from 1; behind them where they end before a conflict.
fn hint_fault(table: &mut Table, live: &LiveClauses<'_>, hints: &[usize]) -> Option<usize>
    requires { LiveInRange (length table.old) live.now }
    ensures fault { result
        ≡ propagation.hint_fault table.old (map (live_at live.now) hints.now) 1 }
    ensures len { length table.new ≡ length table.old }
{
    for (place, number) in hints.iter().enumerate() {
        let Some(lits) = live.get(*number) else {
            return Some(place + 1);
        };
        match table.outcome(lits) {
            Outcome::Unit(lit) => table.set_true(lit),
            Outcome::Conflict => {
                return if place + 1 == hints.len() {
                    None
                } else {
                    Some(place + 2)
                };
            }
            Outcome::Stuck => return Some(place + 1),
        }
    }
    Some(hints.len() + 1)
}

/// What is wrong with the step's hints: the place of the first that is a fault, from 1, or 0 for a clause that has a literal
/// with its negative. Nothing is known in the table, before and after.
pub(crate) fn step_fault(table: &mut Table, live: &LiveClauses<'_>, step: &Step) -> Option<usize>
    requires blank { table.old ≡ replicate (length table.old) None }
    requires live { LiveInRange (length table.old) live.now }
    requires step { IsInRange (length table.old) step.now.clause }
    ensures fault { result ≡ specs.step_fault (length table.old) live.now step.now }
    ensures blank { table.new ≡ table.old }
{
    let fault = if table.assume(step.clause.lits()) {
        hint_fault(table, live, step.hints.as_slice())
    } else {
        Some(0)
    };
    table.clear();
    fault
}
