ghost use Rattle.solver_run.specs.Run.{IsTaskRun, Performs};
ghost use Rattle.solver_run.specs.Stores.{StoreLog};
ghost use Rattle.solver_run.specs.Tasks as task;
ghost use Rattle.dimacs.specs.Text.{model_text};
ghost use Rattle.solver_run.specs.declared.cause.Cause.TheVariants as cause;
ghost use Rattle.solver_run.specs.Inside.Endings.{EndsCompared, Says};

use crate::cause::Cause;
use crate::endings::{end_unread, say};
use crate::search::solved;
use crate::solve::say_model;
use crate::unread::read_list;
use dimacs::no_model_text;
use frame::{Comparison, comparison_clauses};
use ios_acl::Entry;
use mg_outside::{Files, Sink};
use sat_core::Solved;
use std::alloc::Global;

/// From so many values on a model has no text in DIMACS form. No machine holds clauses over so many variables.
const TOO_MANY_VALUES: usize = 1 << 62;

/// Ends the run with a model, whose first values are two verdicts and the bits of a packet.
fn say_packet<S: Sink>(alloc: Global, values: &[bool], out: &mut S) -> Cause
    ensures { Says (S.log out.old) (S.log out.new) cause.Satisfiable (model_text values.now) result }
{
    if values.len() >= TOO_MANY_VALUES {
        return Cause::NoMemory;
    }
    say_model(alloc, values, out)
}

/// Ends the run with a packet that two lists decide as is asked, as a model of the clauses that ask for it, or with the
/// answer that there is none.
fn answer<S: Sink>(
    alloc: Global,
    asked: Comparison,
    first: &[Entry],
    second: &[Entry],
    out: &mut S,
) -> Cause
    ensures { EndsCompared asked first.now second.now (S.log out.old) (S.log out.new) result }
{
    let Ok(cnf) = comparison_clauses(alloc, first, second, asked) else {
        return Cause::NoMemory;
    };
    match solved(alloc, cnf) {
        Ok(Solved::Least(values)) => say_packet(alloc, values.as_slice(), out),
        Ok(Solved::None(_)) => say(out, no_model_text().as_bytes(), Cause::Unsatisfiable),
        Err(_) => Cause::NoMemory,
    }
}

/// A packet that the lists in two files decide as is asked, or that there is none.
pub fn compare<F: Files, S: Sink>(
    alloc: Global,
    asked: Comparison,
    first: &str,
    second: &str,
    files: &mut F,
    out: &mut S,
) -> Cause
    ensures { (log : StoreLog)
        → Performs (IsTaskRun (F.holds files.old) (task.compare asked first.now second.now))
        (F.log files.old) (F.log files.new) (S.log out.old) (S.log out.new) log log result }
{
    let before = match read_list(alloc, first, files) {
        Ok(list) => list,
        Err(why) => return end_unread(alloc, first, why, out),
    };
    let after = match read_list(alloc, second, files) {
        Ok(list) => list,
        Err(why) => return end_unread(alloc, second, why, out),
    };
    answer(alloc, asked, before.entries(), after.entries(), out)
}
