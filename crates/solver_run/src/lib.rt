//! The run of the search and of the checker alone: words in, clauses in DIMACS form or two configurations read, an answer out.
//!
//! `run` is the whole program as one call, over any files, any sink and any store; its contract says what is read, stored and
//! written and with which cause it ends, for all words and all files. A text that is answered has the least model, or has
//! none as the certificate shows that is stored. Two lists are compared by clauses, a model of which is a packet.
//! `MemStore` is a store for tests; `margrave_sat` hands the words, the real files, the real output and a real store in.
#![tactic(auto)]

mod cause;
mod check;
mod endings;
mod gates;
mod laws;
mod lists;
mod mem_store;
mod program;
mod reason;
mod run_lines;
mod search;
mod solve;
mod store;
mod unread;
mod words;

pub use cause::Cause;
pub use laws::{answers_are_right, comparisons_are_right};
pub use mem_store::MemStore;
pub use program::run;
pub use reason::Reason;
pub use store::{Store, StoreFault};
pub use words::behind_name;
