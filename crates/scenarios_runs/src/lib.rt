//! Tests of whole runs, over files and a sink in memory, and of the texts that they write (`session`); and of files and sinks
//! (`mg_outside`): the real ones, those in memory, and the adapters over a folder that gives one byte at a time and an
//! output that takes one at a time.
//!
//! Each test is a table (`test_tables`). The answers were worked by hand from what is documented of scripts. That a
//! `SlowFolder` is a `Folder`, and a `SlowOutput` an `Output`, shows that code outside of `mg_outside` can meet these
//! contracts. Nothing stands above this crate.
#![tactic(auto)]

#[cfg(test)]
mod faults;
#[cfg(test)]
mod files;
#[cfg(test)]
mod run_of;
#[cfg(test)]
mod runs;
#[cfg(test)]
mod sinks;
#[cfg(test)]
mod slow;
#[cfg(test)]
mod texts;
