//! The checker of derivations.
//!
//! `check` accepts a derivation exactly where each of its items is right and some step has the empty clause, and else
//! names the first fault. Clauses with an accepted derivation have no model. `trim` leaves out what a derivation does
//! not need.
//! A search hands over derivations; whoever trusts none but this crate may check them.
#![tactic(auto)]

mod checking;
mod fault;
mod laws;
mod live;
mod step;
mod table;
mod trimming;

pub use certificates::{Certificate, Derivation, Item, Numbers, Step};
pub use checking::check;
pub use fault::CheckFault;
pub use laws::{refuted_clauses_have_no_model, trimmed_derivations_are_accepted};
pub use std::alloc::AllocError as NoMemory;
pub use table::{Outcome, Table};
pub use trimming::trim;
