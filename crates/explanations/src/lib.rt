//! What is said to people about the end of a run: why it ended, of which word, and the likeliest cure; and notes on what is
//! right and probably not meant (`notes`).
//!
//! `explain` makes the text from the words, the cause and the files, which it reads again: nothing of the run depends on it.
//! The word that is meant is found by the readers themselves: fronts of the text are read, and the first that is refused ends
//! with it. `margrave_cli` writes the text on standard error.
#![tactic(auto)]

mod causes;
mod config_words;
mod known;
mod loaded;
mod outside;
mod reasons;
mod refused;
mod run_end;
mod scattered;
mod script_notes;
mod script_words;
mod statements;
mod unfit;
mod unmodelled;

pub use outside::{Names, Standing};
pub use run_end::explain;
pub use std::alloc::AllocError as NoMemory;
