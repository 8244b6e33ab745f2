//! Order-sorted logic: signatures, formulas, universes and truth.
//!
//! A formula is well-sorted over a signature and true or false in a universe, finite or infinite, by Tarski's cases; `holds`
//! tells it for finite universes without memory, `check_sorts` finds the first fault of a formula's sorts, and `join` makes one
//! signature of two. Policies, vocabularies, problems and all that answers questions about them stand on these definitions.
#![tactic(auto)]

mod adding;
mod base;
mod check;
mod check_terms;
mod clash;
mod copy;
mod declarations;
mod elements;
mod evaluate;
mod fault;
mod finite_laws;
mod fits;
mod fits_symbols;
mod formula;
mod hierarchy;
mod joining;
mod laws;
mod name_map;
mod request;
mod scope;
mod signature;
mod sort_scope;
mod sorting_laws;
mod term;
mod text;
mod universe;

pub use check::check_sorts;
pub use declarations::{FuncDecl, RelDecl, SortDecl, Symbol};
pub use fault::{JoinFault, SigFault, SortFault};
pub use finite_laws::{finite_decides, last_is_answered};
pub use formula::{Formula, Test};
pub use joining::join;
pub use laws::{
    PolicyAnswers, Universe, field_bits, iff_chains, is_of_numbers, looks_at_occurring, never_both,
    overlap_is_symmetric, sharers_overlap,
};
pub use request::Field;
pub use signature::Sig;
pub use sorting_laws::faultless_is_well_sorted;
pub use std::alloc::AllocError as NoMemory;
pub use term::{Func, Rel, Sort, Term};
pub use text::Text;
pub use universe::{Entry, FiniteUniverse};
