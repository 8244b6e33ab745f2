//! The program `margrave`: words in, files read, text out, and a status that means something.
//!
//! `session::run` is the whole program as one call, over any files and any sink. `main` hands it the system's words, the
//! real file system and standard output, then says on standard error what people want to know about its end, and ends with
//! its status, whatever becomes of that. Nothing stands above.
#![tactic(auto)]

ghost use Rattle.std.specs.Prelude.{◌≡◌};
ghost use Rattle.session.specs.Run.{status_of};

mod system_names;

use explanations::explain;
use mg_outside::{DiskFiles, StdSink};
pub use session::run;
use session::{Cause, Ended, behind_name};
use std::alloc::AllocError;
use std::env;
use std::env::Env;
use std::io::ErrorKind;
use std::process::ExitCode;
use system_names::SystemNames;

/// The words of the command line, the program's name first; none where they are no text.
fn words_of(rt: &(impl Env + AllocGlobal)) -> Result<Vec<String>, AllocError> {
    match env::args(rt) {
        Ok(words) => words.collect(rt.alloc()),
        Err(fault) if fault.kind() == ErrorKind::OutOfMemory => Err(AllocError),
        Err(_) => Ok(Vec::new(rt.alloc())),
    }
}

/// The whole program over the real files and the real standard output, and then what is said about its end.
fn run_on_system(rt: &HostRuntime) -> Ended
    ensures { result.status ≡ status_of result.cause }
{
    match words_of(rt) {
        Ok(words) => {
            let words = behind_name(words.as_slice());
            let mut files = DiskFiles::new(rt.alloc(), rt);
            let ended = run(rt.alloc(), words, &mut files, &mut StdSink::new(rt));
            say(rt, words, &ended);
            ended
        }
        Err(_) => Ended::by(Cause::NoMemory),
    }
}

/// Says on standard error what people want to know about the end. Where that fails, nothing is said.
fn say(rt: &HostRuntime, words: &[String], ended: &Ended) {
    let mut files = DiskFiles::new(rt.alloc(), rt);
    if let Ok(text) = explain(rt.alloc(), words, ended, &mut files, &SystemNames::new(rt)) {
        let _ = rt.eprint(text.as_str());
    }
}

fn main(rt: HostRuntime) -> ExitCode {
    ExitCode::from(run_on_system(&rt).status)
}
