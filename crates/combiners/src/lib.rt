//! Policies, their rules and combiners, and the formulas of what they decide.
//!
//! A policy decides by which of its rules match, or by what its children decide, as its combiner says. The formula of a
//! decision, of when a rule matches or of when it applies is true in a universe, finite or infinite, exactly where the policy or
//! the rule does so, and false exactly where it does not. Readers of policies, and problems that ask policies, stand on it.
#![tactic(auto)]

mod atoms;
mod copy;
mod decisions;
mod formulas;
mod laws;
mod order;
mod plain;
mod policy;
mod rules;

pub use atoms::{applies_formula, decision_formula, matches_formula};
pub use laws::{formula_is_right, policies_never_contradict, policy_is_unfolded};
pub use plain::is_plain;
pub use policy::{Comb, Parts, Policy, PolicySet, Rule, Variable};
pub use std::alloc::AllocError as NoMemory;
