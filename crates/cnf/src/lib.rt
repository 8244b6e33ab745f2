//! Clauses over numbered variables: literals, disjunctions of literals, and conjunctions of these.
//!
//! `Cnf::holds` says whether each clause has a true literal; `Cnf::push` takes a clause only where its variables are in
//! range. The specs have what a model is, and which one is the least.
//! Circuits are written as such clauses, a search looks for their models, and derivations show that there are none.
#![tactic(auto)]

mod clause;
mod fault;
mod formula;
mod lit;

pub use clause::{Clause, are_in_range};
pub use fault::CnfFault;
pub use formula::Cnf;
pub use lit::Lit;
pub use std::alloc::AllocError as NoMemory;
