ghost use Rattle.std.specs.Prelude.{◌≡◌};
ghost use Rattle.proof_check.specs.Derivations.{fault_of};
ghost use Rattle.solver_run.specs.Run.{IsTaskRun, Performs};
ghost use Rattle.solver_run.specs.Stores.{StoreLog};
ghost use Rattle.solver_run.specs.Tasks as task;
ghost use Rattle.solver_run.specs.Inside.Endings.{Judged};

use crate::cause::Cause;
use crate::endings::{end_unread, refuse, say};
use crate::reason::check_reason;
use crate::run_lines::accepted_text;
use crate::unread::{read_formula, read_proof};
use certificates::Derivation;
use cnf::Cnf;
use mg_outside::{Files, Sink};
use proof_check::check as check_derivation;
use std::alloc::Global;

/// Ends the run with what the checker says of a derivation, which stands in a file of this name.
fn judge<S: Sink>(
    alloc: Global,
    name: &str,
    cnf: &Cnf,
    derivation: &Derivation,
    out: &mut S,
) -> Cause
    ensures { Judged name.now (fault_of cnf.now.vars cnf.now.clauses derivation.now)
        (S.log out.old) (S.log out.new) result }
{
    match check_derivation(alloc, cnf, derivation) {
        Ok(()) => say(out, accepted_text().as_bytes(), Cause::Done),
        Err(fault) => match check_reason(fault) {
            Some(reason) => refuse(alloc, name, 0, reason, out),
            None => Cause::NoMemory,
        },
    }
}

/// Whether the certificate in one file is right for the clauses in another.
pub fn check<F: Files, S: Sink>(
    alloc: Global,
    file: &str,
    name: &str,
    files: &mut F,
    out: &mut S,
) -> Cause
    ensures { (log : StoreLog)
        → Performs (IsTaskRun (F.holds files.old) (task.check file.now name.now))
        (F.log files.old) (F.log files.new) (S.log out.old) (S.log out.new) log log result }
{
    let cnf = match read_formula(alloc, file, files) {
        Ok(cnf) => cnf,
        Err(why) => return end_unread(alloc, file, why, out),
    };
    let certificate = match read_proof(alloc, name, files) {
        Ok(certificate) => certificate,
        Err(why) => return end_unread(alloc, name, why, out),
    };
    judge(alloc, name, &cnf, &certificate.derivation, out)
}
