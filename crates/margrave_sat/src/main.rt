//! The program `margrave_sat`: the search and the checker alone, over clauses in DIMACS form or those of two access lists.
//!
//! `solver_run::run` is the whole program as one call, over any files, any sink and any store. `main` hands it the system's
//! words, the real file system and standard output, and ends with its status. Nothing stands above.
#![tactic(auto)]

mod disk_store;

use disk_store::DiskStore;
use mg_outside::{DiskFiles, StdSink};
pub use solver_run::run;
use solver_run::{Cause, behind_name};
use std::alloc::AllocError;
use std::env;
use std::env::Env;
use std::io::ErrorKind;
use std::process::ExitCode;

/// The words of the command line, the program's name first; none where they are no text.
fn words_of(rt: &(impl Env + AllocGlobal)) -> Result<Vec<String>, AllocError> {
    match env::args(rt) {
        Ok(words) => words.collect(rt.alloc()),
        Err(fault) if fault.kind() == ErrorKind::OutOfMemory => Err(AllocError),
        Err(_) => Ok(Vec::new(rt.alloc())),
    }
}

/// The whole program over the real files and the real standard output.
fn run_on_system(rt: &HostRuntime) -> Cause {
    match words_of(rt) {
        Ok(words) => run(
            rt.alloc(),
            behind_name(words.as_slice()),
            &mut DiskFiles::new(rt.alloc(), rt),
            &mut StdSink::new(rt),
            &mut DiskStore::new(rt),
        ),
        Err(_) => Cause::NoMemory,
    }
}

fn main(rt: HostRuntime) -> ExitCode {
    ExitCode::from(run_on_system(&rt).status())
}
