//! Boolean circuits, and the least inputs that make a node true.
//!
//! A circuit is a list of gates, each of them once and over nodes that were there before it; a node is a place in that
//! list. Each call finds a gate or adds it, and says what its node is worth, that older nodes keep their values, and
//! which circuit it leaves; `to_cnf` writes a circuit as clauses; `least` says which inputs make a node true, the least
//! in dictionary order, or that none do. `frame` makes its questions of these gates.
#![tactic(auto)]

mod append;
mod circuit;
mod encoding;
mod equal;
mod gate;
mod laws;
mod masked;
mod range;
mod search;
mod settled;
mod support;
mod table;

pub use circuit::Circuit;
pub use encoding::to_cnf;
pub use gate::{Gate, Node, Parts};
pub use laws::{clauses_are_circuits, gates_are_shared, gates_are_tests};
pub use search::least;
pub use std::alloc::AllocError as NoMemory;
