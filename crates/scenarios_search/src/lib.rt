//! Tests of what searches: circuits and their least inputs (`circuit`), decision diagrams and their gates
//! (`decision_diagram`), and the first request that answers a question about an access list, and two lists beside each
//! other (`frame`).
//!
//! A test of circuits makes one and compares its least inputs, as one text, with those that were worked by hand. A test of
//! diagrams or of questions is a table (`test_tables`). Nothing stands above this crate.
#![tactic(auto)]

#[cfg(test)]
mod circuits;
#[cfg(test)]
mod comparisons;
#[cfg(test)]
mod diagram_gates;
#[cfg(test)]
mod diagrams;
#[cfg(test)]
mod meeting;
#[cfg(test)]
mod questions;
