//! Questions about one access list: which formulas ask what a list decides of the packet that comes in.
//!
//! `question_of` says of an EXPLORE whether it asks such a question, and which one; none asks two. `tests_of` hands its
//! tests to `frame`, where they fit; `packet_of` reads the packet of a DECIDE, or names the first fault from the left; and
//! `push_mentions` lists what a formula asks of policies. `first_packet` finds the packet of the first scenario, by a search
//! for the least model of the question's clauses.
//! `session` answers these questions.
#![tactic(auto)]

mod atom;
mod field_test;
mod first;
mod laws;
mod mention;
mod packet;
mod question;
mod range;

pub use field_test::FieldTest;
pub use first::first_packet;
pub use laws::one_question;
pub use mention::{Mention, push_mentions};
pub use packet::{LiteralFault, packet_of};
pub use question::{ListQuestion, question_of};
pub use range::{fits, tests_of};
pub use std::alloc::AllocError as NoMemory;
