//! Tests of derivations, as they are read, judged and trimmed (`certificates`, `proof_check`), and of the search that
//! learns (`sat_core`): clauses that have to be learned from, a chain, random clauses against a
//! table of all values, and clauses that come and go. And tests of the run of both alone (`solver_run`), over files, a sink and
//! a store in memory.
//!
//! That an answer is right is proved. What is tested is that the search finds it, and that the plain one behind it, which
//! would take too long, never runs.
#![tactic(auto)]

#[cfg(test)]
mod derivations;
#[cfg(test)]
mod random;
#[cfg(test)]
mod searches;
#[cfg(test)]
mod solver_commands;
