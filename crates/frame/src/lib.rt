//! Scenarios: the first request that answers a question about an access list.
//!
//! `question_clauses` writes a question as clauses, whose least model begins with the packet of the first scenario, and
//! `model_packet` reads that packet; `visible` gives the tests that a scenario is shown with. A question is a circuit over
//! the bits of a packet. What searches for models stands above.
#![tactic(auto)]

mod bits;
mod comparison;
mod decision;
mod difference;
mod entry_diagram;
mod inputs;
mod laws;
mod list_diagram;
mod matching;
mod packet_circuit;
mod packet_diagrams;
mod question;
mod relevance;

pub use bits::model_packet;
pub use comparison::{Comparison, comparison_clauses};
pub use laws::{first_or_none, one_first, shown_once};
pub use question::{Pattern, Test, question_clauses, visible};
pub use std::alloc::AllocError as NoMemory;
