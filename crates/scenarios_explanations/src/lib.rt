//! Tests of what is said to people about the end of a run (`explanations`, `notes`), over files in memory.
//!
//! The test is a table (`test_tables`), of a row for each way that a text is made; `.ci/explanations` compares many more, of
//! the real program. Nothing stands above this crate.
#![tactic(auto)]

#[cfg(test)]
mod said;
