//! The language of scripts: statements, questions and the formulas in them.
//!
//! `read_script` gives the script that the bytes spell, or the first token with which no script goes on, and why; each
//! text has exactly one of the two. Names are kept as they are written: what they mean depends on what is loaded.
//! `write_script` writes a script a statement a line, with the parentheses that it needs and no others, and where some
//! text is read as this script, what it wrote is read as the same statements. `session` carries scripts out.
#![tactic(auto)]

mod formula;
mod laws;
mod literal;
mod read;
mod reading;
mod script;
mod term;
mod write;

pub use formula::Named;
pub use laws::one_reading;
pub use literal::{Literal, NamedTest, Path};
pub use reading::read_script;
pub use script::{Explore, Kind, Script, ScriptFault, ScriptReason, Statement};
pub use std::alloc::AllocError as NoMemory;
pub use term::{Arg, NamedTerm};
pub use write::write_script;
