//! Names of configurations, each once, at its place: of access lists and of interfaces.
//!
//! `NameIndex` finds the place of a name, and adds names at the end; `NameTable` is such an index whose places are
//! numbers of 16 bits, and adds many names or none.
//! What reads a configuration keeps the names of its lists so, and what answers questions about routers numbers their
//! interfaces so.
#![tactic(auto)]

mod name_index;
mod name_table;

pub use name_index::NameIndex;
pub use name_table::NameTable;
pub use std::alloc::AllocError as NoMemory;
