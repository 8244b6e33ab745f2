//! Ordered and reduced decision diagrams, and their guarded gates.
//!
//! A diagram is a function of bits, made by calls over bits that the caller names by their places in one order. A table
//! has each diagram once, so that two with the same values are one. `gates` writes a diagram into a circuit in a form
//! in which a search that decides the bits in order does nothing for the parts that are out of reach. Neither lists nor
//! formulas are known here.
#![tactic(auto)]

mod adopt;
mod alone;
mod choice;
mod diagrams;
mod digits;
mod edges;
mod fault;
mod guarded;
mod laws;
mod meeting;
mod memo;
mod node;
mod numbers;
mod passes;

pub use diagrams::{Diagrams, MOST_NODES};
pub use fault::DiagramFault;
pub use guarded::gates;
pub use laws::{equal_diagrams_are_one, gates_have_the_value, listings_are_one};
pub use node::{Diagram, Node};
pub use std::alloc::AllocError as NoMemory;
