ghost use Rattle.std.specs.Prelude.{◌≡◌, ◌⊎◌, map};
ghost use Rattle.std.specs.String.{string_bytes};
ghost use Rattle.mg_outside.specs.Effects.{IsFrontOfSome, Performs};
ghost use Rattle.session.specs.Blame.{BlamesFiles, BlamesSink, NoReadFailed, NoWriteFailed};
ghost use Rattle.session.specs.Complete.{IsAnswerable};
ghost use Rattle.session.specs.Run.{IsCutShort, IsRun, IsScriptRun, NeverCut, status_of};

use crate::ended::{Cause, Ended, Reason};
use crate::endings::{end_unread, refuse, say};
use crate::loading::MAX_BYTES;
use crate::run_lines::USAGE;
use crate::statements::carry_out_all;
use crate::words::script_of;
use mg_outside::{Files, Sink};
use query_lang::{ScriptFault, read_script};
use std::alloc::Global;

/// The whole program: reads the words and the script that they name, and carries out its statements in order, each of
/// which may read a file and write a text. At the statuses 0 to 3 the whole text of the run is written. At 4 and 5 the
/// run is cut within the text of one statement, or within one line, and nothing behind that is read, run or written. It
/// reads the script once, and the file of each LOAD that it reaches once, in their order, unless the name is taken.
pub fn run<F: Files, S: Sink>(alloc: Global, words: &[String], files: &mut F, out: &mut S) -> Ended
    ensures status { result.status ≡ status_of result.cause }

    // What is read, which read failed, what is taken of each write, and why the run ended: those of a run over
    // the bytes that the files told.
    ensures headline { Performs (IsRun IsCutShort (map string_bytes words.now) (F.holds files.old))
        (F.log files.old) (F.log files.new) (S.log out.old) (S.log out.new) result.cause }

    // Whom the cause blames: where it blames nobody, nothing failed.
    ensures blames_sink { BlamesSink (S.log out.old) (S.log out.new) result.cause }
    ensures blames_files { BlamesFiles (F.log files.old) (F.log files.new) result.cause }

    // A run that is cut short could go on: what is written is a front of the text of a whole run.
    ensures whole { IsFrontOfSome (IsRun NeverCut (map string_bytes words.now) (F.holds files.old))
        (S.log out.old) (S.log out.new) }

    // A script that can be answered is answered, unless a fault comes or memory is wanting.
    ensures complete { IsAnswerable (map string_bytes words.now) (F.holds files.old)
        → NoReadFailed (F.log files.old) (F.log files.new)
        → NoWriteFailed (S.log out.old) (S.log out.new)
        → (result.cause ≡ Cause.Done) ⊎ (result.cause ≡ Cause.NoMemory) }
{
    let Some(name) = script_of(words) else {
        return Ended::by(say(out, USAGE.as_bytes(), Cause::BadWords));
    };
    Ended::by(run_script(alloc, name, files, out))
}

fn run_script<F: Files, S: Sink>(alloc: Global, name: &str, files: &mut F, out: &mut S) -> Cause
    ensures { Performs (IsScriptRun IsCutShort name.now (F.holds files.old))
        (F.log files.old) (F.log files.new) (S.log out.old) (S.log out.new) result }
{
    let bytes = match files.read(alloc, name, MAX_BYTES) {
        Ok(bytes) => bytes,
        Err(fault) => return end_unread(alloc, name, fault, out),
    };
    match read_script(alloc, bytes.as_slice()) {
        Ok(script) => carry_out_all(alloc, name, script.statements.as_slice(), files, out),
        Err(ScriptFault::At { line, reason }) => {
            refuse(alloc, name, line, Reason::of_script(reason), out)
        }
        Err(ScriptFault::NoMemory) => Cause::NoMemory,
    }
}
