//! Derivations that clauses have no model, as values and as text.
//!
//! A derivation is a list of items: a step adds a clause, with the numbers of the clauses that show it, and a deletion
//! says which clauses are named no more. Clauses are numbered from 1: first those that are given, then those of the
//! steps. `read_certificate` answers the certificate whose text the bytes are, or the first line that no certificate has
//! there; what `write_certificate` writes is read as the same. `proof_check` says which derivations are accepted.
//!
//! The text for the question at line 12 of a script:
//!
//! ```text
//! margrave-proof 2 12
//! -3 7 0 4 1 0
//! d 4 0
//! 0 2 8 0
//! qed
//! ```
//!
//! The head has the version and the line. A step is its literals, a 0, the numbers of its hints, and a 0. A literal is
//! the number of its variable, here from 1, behind a minus sign where it is negative. A deletion is `d`, at least one
//! number, and a 0. One blank stands between two words, and none before or behind them. Numbers are decimal, below 2^62,
//! with no zero in front and no plus sign. Lines before the head and behind `qed` are not looked at. Version 1 is the
//! same without deletions, and is read as well.
#![tactic(auto)]

mod cut;
mod derivation;
mod fault;
mod head;
mod items;
mod laws;
mod lines;
mod lists;
mod reader;
mod words;
mod writer;

pub use cut::split_at_byte;
pub use derivation::{Certificate, Derivation, Item, Numbers, Step};
pub use fault::CertFault;
pub use laws::{one_certificate, written_is_read};
pub use lines::first_line;
pub use reader::read_certificate;
pub use std::alloc::AllocError as NoMemory;
pub use words::{lit, number};
pub use writer::{push_lit, write_certificate};
