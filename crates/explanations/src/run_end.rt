ghost use Rattle.std.specs.Prelude.{◌≢◌, IfOk};
ghost use Rattle.std.specs.String.{string_bytes};
ghost use Rattle.notes.specs.Reports.{EndsLine};
ghost use Rattle.session.specs.declared.ended.Cause.TheVariants as cause;

use crate::causes::{bad_words, no_memory, read_fault, write_fault};
use crate::loaded::load_all;
use crate::outside::{Names, bytes_of};
use crate::refused::{Refusal, refused_text};
use crate::script_notes::script_notes;
use mg_outside::Files;
use notes::Report;
use query_lang::read_script;
use session::{Cause, Ended};
use std::alloc::{AllocError, Global};

/// What is said to people about the end of a run of these words, over these files: nothing where the run was carried out and
/// nothing is noted.
pub fn explain<F: Files, N: Names>(
    alloc: Global,
    words: &[String],
    ended: &Ended,
    files: &mut F,
    names: &N,
) -> Result<String, AllocError>
    ensures { ended.now.cause ≢ cause.Done
        → IfOk result (λ text. EndsLine (string_bytes text)) }
{
    let mut report = Report::new(alloc);
    match &ended.cause {
        Cause::Done => {
            if let [script] = words {
                done_notes(alloc, script.as_str(), files, names, &mut report)?;
            }
            report.finish()
        }
        Cause::Refused { file, line, reason } => {
            let refused = Refusal {
                file: file.as_str(),
                line: *line,
                reason,
            };
            refused_text(alloc, words, &refused, files, names, report)
        }
        Cause::BadWords => bad_words(words, report),
        Cause::ReadFault { file } => read_fault(alloc, words, file.as_str(), files, names, report),
        Cause::WriteFault => write_fault(report),
        Cause::NoMemory => no_memory(report),
    }
}

/// The notes on a script that was carried out, and on the files that it loaded.
fn done_notes<F: Files, N: Names>(
    alloc: Global,
    script: &str,
    files: &mut F,
    names: &N,
    report: &mut Report,
) -> Result<(), AllocError> {
    let Some(bytes) = bytes_of(alloc, files, names, script)? else {
        return Ok(());
    };
    let bytes = bytes.as_slice();
    match read_script(alloc, bytes) {
        Ok(read) => {
            let loaded = load_all(alloc, &read, u64::MAX, files, names, report)?;
            drop(loaded);
            script_notes(alloc, script, bytes, &read, u64::MAX, report)
        }
        Err(_) => Ok(()),
    }
}
