//! Files and standard output as the rest of the program sees them, and fakes of both for tests.
//!
//! A `Files` reads a whole file by its name, a `Sink` takes bytes. Contracts above speak of the bytes that a file
//! holds and that a sink has taken, where these are told, and of logs: which names were read, how many writes there
//! were, and counts of faults that never fall. An answer that blames the outside says that the count of that name, or of
//! that sink, rose in this very call. `MemFiles`,
//! `SureFiles`, `MemSink` and `SureSink` tell all they hold. `DiskFiles` and `StdSink` tell what the `Folder` and the
//! `Output` tell that they stand on, which open, read and write a piece at a time. In the program these are `Disk` and
//! `StandardOutput`, three calls of the system that tell no bytes of a name or of the terminal. The program's `run`
//! stands on `Files` and `Sink`.
#![tactic(auto)]

mod contents;
mod disk;
mod disk_files;
mod failed;
mod files;
mod folder;
mod mem_files;
mod mem_sink;
mod names;
mod output;
mod sink;
mod standard_output;
mod std_sink;
mod sure_files;
mod sure_sink;

pub use disk::Disk;
pub use disk_files::DiskFiles;
pub use failed::Failed;
pub use files::{FileFault, Files};
pub use folder::{Folder, OpenFault};
pub use mem_files::MemFiles;
pub use mem_sink::MemSink;
pub use output::Output;
pub use sink::{Sink, SinkFault};
pub use standard_output::StandardOutput;
pub use std::alloc::AllocError as NoMemory;
pub use std_sink::StdSink;
pub use sure_files::SureFiles;
pub use sure_sink::SureSink;
