//! Notes for people: what a configuration says that is right and probably not meant; and how a text for people is written,
//! with the line of the file and a mark under the word.
//!
//! `config_notes` adds notes to a `Report`, which is one text. Lines and words are those of the reader (`ios_lex`). No clause
//! says what the texts are: they are compared in tables, of tests and of `.ci/explanations`. `explanations` adds notes on
//! scripts, and why a run was refused.
#![tactic(auto)]

mod doubts;
mod lines;
mod near;
mod place;
mod printed;
mod report;
mod words;

pub use lines::config_notes;
pub use near::{is_near, is_other_case};
pub use place::{Place, found, line_place, split_at_line, whole_file};
pub use printed::Printed;
pub use report::Report;
pub use std::alloc::AllocError as NoMemory;
pub use words::{Cut, MOST_WORDS, begins_marked, words_of};
