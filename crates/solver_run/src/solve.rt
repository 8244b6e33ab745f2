ghost use Rattle.std.specs.Prelude.{◌≡◌, ◌^◌, ◌<◌, length};
ghost use Rattle.certificates.specs.Writable.{IsWritable};
ghost use Rattle.dimacs.specs.Text.{model_text};
ghost use Rattle.solver_run.specs.declared.cause.Cause.TheVariants as cause;
ghost use Rattle.solver_run.specs.Run.{IsTaskRun, Performs};
ghost use Rattle.solver_run.specs.Stores.{StoreLog};
ghost use Rattle.solver_run.specs.Tasks as task;
ghost use Rattle.solver_run.specs.Inside.Endings.{EndsStored, Says};

use crate::cause::Cause;
use crate::endings::{end_unread, fail_to_store, say};
use crate::search::solved;
use crate::store::{Store, StoreFault};
use crate::unread::read_formula;
use certificates::{Certificate, Derivation, write_certificate};
use dimacs::{model_text, no_model_text};
use mg_outside::{Files, Sink};
use sat_core::Solved;
use std::alloc::Global;

/// Ends the run with a model.
pub fn say_model<S: Sink>(alloc: Global, values: &[bool], out: &mut S) -> Cause
    requires { length values.now < 2 ^ 62 }
    ensures { Says (S.log out.old) (S.log out.new) cause.Satisfiable (model_text values.now) result }
{
    let Ok(text) = model_text(alloc, values) else {
        return Cause::NoMemory;
    };
    say(out, text.as_slice(), Cause::Satisfiable)
}

/// Ends the run without a model, and stores the derivation that shows it.
fn store_proof<S: Sink, T: Store>(
    alloc: Global,
    name: &str,
    derivation: Derivation,
    out: &mut S,
    store: &mut T,
) -> Cause
    requires { IsWritable derivation }
    ensures { EndsStored name.now derivation (S.log out.old) (S.log out.new)
        (T.log store.old) (T.log store.new) result }
{
    let certificate = Certificate {
        line: 0,
        derivation,
    };
    let Ok(text) = write_certificate(alloc, &certificate) else {
        return Cause::NoMemory;
    };
    match store.store(name, text.as_slice()) {
        Ok(()) => say(out, no_model_text().as_bytes(), Cause::Unsatisfiable),
        Err(StoreFault::Failed) => fail_to_store(alloc, name, out),
        Err(StoreFault::NoMemory) => Cause::NoMemory,
    }
}

/// The least model of the clauses in a file.
pub fn solve<F: Files, S: Sink>(alloc: Global, file: &str, files: &mut F, out: &mut S) -> Cause
    ensures { (log : StoreLog) → Performs (IsTaskRun (F.holds files.old) (task.solve file.now))
        (F.log files.old) (F.log files.new) (S.log out.old) (S.log out.new) log log result }
{
    let cnf = match read_formula(alloc, file, files) {
        Ok(cnf) => cnf,
        Err(why) => return end_unread(alloc, file, why, out),
    };
    match solved(alloc, cnf) {
        Ok(Solved::Least(values)) => say_model(alloc, values.as_slice(), out),
        Ok(Solved::None(_)) => say(out, no_model_text().as_bytes(), Cause::Unsatisfiable),
        Err(_) => Cause::NoMemory,
    }
}

/// The same, and where there is no model the certificate in another file.
pub fn certify<F: Files, S: Sink, T: Store>(
    alloc: Global,
    file: &str,
    name: &str,
    files: &mut F,
    out: &mut S,
    store: &mut T,
) -> Cause
    ensures { Performs (IsTaskRun (F.holds files.old) (task.certify file.now name.now))
        (F.log files.old) (F.log files.new) (S.log out.old) (S.log out.new)
        (T.log store.old) (T.log store.new) result }
{
    let cnf = match read_formula(alloc, file, files) {
        Ok(cnf) => cnf,
        Err(why) => return end_unread(alloc, file, why, out),
    };
    match solved(alloc, cnf) {
        Ok(Solved::Least(values)) => say_model(alloc, values.as_slice(), out),
        Ok(Solved::None(derivation)) => store_proof(alloc, name, derivation, out, store),
        Err(_) => Cause::NoMemory,
    }
}
