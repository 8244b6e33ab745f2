ghost use Rattle.std.specs.Prelude.{map};
ghost use Rattle.std.specs.String.{string_bytes};
ghost use Rattle.solver_run.specs.Run.{IsRun, Performs};

use crate::cause::Cause;
use crate::check::check;
use crate::endings::say;
use crate::gates::gates;
use crate::lists::compare;
use crate::run_lines::USAGE;
use crate::solve::{certify, solve};
use crate::store::Store;
use crate::words::{Command, command_of};
use mg_outside::{Files, Sink};
use std::alloc::Global;

/// The whole program: carries out what the words behind its name ask for. Each file is read once; the
/// certificate of a search is stored before the answer is written, which is one write.
pub fn run<F: Files, S: Sink, T: Store>(
    alloc: Global,
    words: &[String],
    files: &mut F,
    out: &mut S,
    store: &mut T,
) -> Cause
    // What is read, which read failed, what is stored and written, and why the run ended: those of a run over the bytes
    // that the files told.
    ensures { Performs (IsRun (F.holds files.old) (map string_bytes words.now))
        (F.log files.old) (F.log files.new) (S.log out.old) (S.log out.new)
        (T.log store.old) (T.log store.new) result }
{
    let Some(command) = command_of(words) else {
        return say(out, USAGE.as_bytes(), Cause::BadWords);
    };
    match command {
        Command::Solve(file) => solve(alloc, file, files, out),
        Command::Certify(file, name) => certify(alloc, file, name, files, out, store),
        Command::Check(file, name) => check(alloc, file, name, files, out),
        Command::Compare(asked, first, second) => compare(alloc, asked, first, second, files, out),
        Command::Gates(count) => gates(alloc, count, out),
    }
}
