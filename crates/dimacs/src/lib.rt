//! Clauses in DIMACS form, and the answers of solvers.
//!
//! `read_dimacs` answers the formula whose text the bytes are, or the line of the first word with which no text goes on,
//! and why none does. `model_text` and `no_model_text` are what a solver writes. `solver_run` stands above.
//!
//! ```text
//! c two clauses over three variables
//! p cnf 3 2
//! 1 -3 0
//! 2 3
//! -1 0
//! ```
//!
//! A text is words with blanks or line ends between them: `p`, `cnf`, the number of variables, the number of clauses,
//! and then each clause: its literals and a 0. A literal is the number of its variable, from 1, behind a minus sign where it
//! is negative. Numbers are decimal, below 2^62, with no zero in front and no plus sign. No variable is above the head's
//! number, and there are as many clauses as the head says. A blank is a space, a tab or a carriage return. A line that
//! begins with `c` is a comment, wherever it stands, and is not looked at. A `%`, as some collections of such texts have
//! it behind the clauses, is refused.
#![tactic(auto)]

mod answers;
mod clauses;
mod fault;
mod head;
mod laws;
mod line_words;
mod reader;
mod words;

pub use answers::{model_text, no_model_text};
pub use fault::{DimacsFault, DimacsReason};
pub use laws::one_formula;
pub use reader::read_dimacs;
pub use std::alloc::AllocError as NoMemory;
