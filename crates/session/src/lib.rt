//! The run of a script: its statements in order, the texts that they write, and how a run ends.
//!
//! `run` is the whole program as one call, over any files and any sink; its contract says what is read and written and with
//! which cause it ends, for all words and all files. Each text is a definition, and the call that makes it answers that text
//! or wants memory. `margrave_cli` hands the words, the real files and the real output in.
#![tactic(auto)]

mod asking;
mod counts;
mod deciding;
mod ended;
mod endings;
mod known_names;
mod library;
mod loading;
mod locate;
mod policies;
mod policy;
mod program;
mod run_lines;
mod state;
mod statements;
mod text;
mod value;
mod words;

pub use counts::Counts;
pub use ended::{Cause, Ended, Reason};
pub use known_names::KnownNames;
pub use program::run;
pub use std::alloc::AllocError as NoMemory;
pub use text::{decision_text, loaded_text, no_scenario_text, scenario_text};
pub use words::behind_name;
