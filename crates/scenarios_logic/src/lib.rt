//! Tests of logic and of policies: what a policy decides of one element, as its formula says in a finite universe
//! (`combiners`, `sorted_logic`), and how deep and how long formulas may be.
//!
//! Tests of policies are tables (`test_tables`). Nothing stands above this crate.
#![tactic(auto)]

#[cfg(test)]
mod long_formulas;
#[cfg(test)]
mod policies;
