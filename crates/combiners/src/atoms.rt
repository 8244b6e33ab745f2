//! The formulas of policy atoms, which a set's policies are asked for by place.

ghost use Rattle.std.specs.Prelude.{◌≡◌, ◌↔◌, ℕ, Bool, List, IfOk};
ghost use Rattle.sorted_logic.specs.Syntax.{decides, matches, applies};
ghost use Rattle.sorted_logic.specs.Trees.{formula_tree};
ghost use Rattle.sorted_logic.specs.Truth.{no_policies, HasTruthValue};
ghost use Rattle.sorted_logic.specs.Universe.{Universe};
ghost use Rattle.combiners.specs.Combining.{policies_of};
ghost use Rattle.combiners.specs.Making as specs;
ghost use Rattle.combiners.specs.Tree.{tree_of};

use crate::decisions::decision_within;
use crate::policy::{Parts, PolicySet};
use crate::rules::{rule_applies, rule_matches};
use sorted_logic::Formula;
use std::alloc::{AllocError, Global};

/// When a policy makes a decision. The formula's free variables are the policy's.
pub fn decision_formula(
    alloc: Global,
    p: &PolicySet,
    policy: u32,
    decision: u32,
) -> Result<Formula, AllocError>
    ensures formula { IfOk result (λ made. formula_tree made
        ≡ specs.decision_tree (tree_of p.now policy) decision) }
    ensures meaning { IfOk result (λ made. (u : Universe) (value : Bool) (elements : List ℕ)
        → HasTruthValue u no_policies (formula_tree made) value elements
        ↔ policies_of u p.now (decides policy decision) value elements) }
{
    decision_within(alloc, p, p.policies.len(), policy, decision as usize)
}

/// When a rule of a policy matches. The formula's free variables are the policy's.
pub fn matches_formula(
    alloc: Global,
    p: &PolicySet,
    policy: u32,
    rule: u32,
) -> Result<Formula, AllocError>
    ensures formula { IfOk result (λ made. formula_tree made
        ≡ specs.matches_tree (tree_of p.now policy) rule) }
    ensures meaning { IfOk result (λ made. (u : Universe) (value : Bool) (elements : List ℕ)
        → HasTruthValue u no_policies (formula_tree made) value elements
        ↔ policies_of u p.now (matches policy rule) value elements) }
{
    matches_at(alloc, p, policy, rule as usize)
}

/// When a rule of a policy applies. The formula's free variables are the policy's.
pub fn applies_formula(
    alloc: Global,
    p: &PolicySet,
    policy: u32,
    rule: u32,
) -> Result<Formula, AllocError>
    ensures formula { IfOk result (λ made. formula_tree made
        ≡ specs.applies_tree (tree_of p.now policy) rule) }
    ensures meaning { IfOk result (λ made. (u : Universe) (value : Bool) (elements : List ℕ)
        → HasTruthValue u no_policies (formula_tree made) value elements
        ↔ policies_of u p.now (applies policy rule) value elements) }
{
    applies_at(alloc, p, policy, rule as usize)
}

fn matches_at(
    alloc: Global,
    set: &PolicySet,
    place: u32,
    rule: usize,
) -> Result<Formula, AllocError>
    ensures { IfOk result (λ made. formula_tree made
        ≡ specs.matches_tree (tree_of set.now place) rule) }
{
    match set.policies.get(place as usize) {
        None => Ok(Formula::False),
        Some(policy) => match &policy.parts {
            Parts::Rules(rules) => rule_matches(alloc, rules, rule),
            Parts::Children(_) => Ok(Formula::False),
        },
    }
}

fn applies_at(
    alloc: Global,
    set: &PolicySet,
    place: u32,
    rule: usize,
) -> Result<Formula, AllocError>
    ensures { IfOk result (λ made. formula_tree made
        ≡ specs.applies_tree (tree_of set.now place) rule) }
{
    match set.policies.get(place as usize) {
        None => Ok(Formula::False),
        Some(policy) => match &policy.parts {
            Parts::Rules(rules) => rule_applies(alloc, &policy.comb, rules, rule),
            Parts::Children(_) => Ok(Formula::False),
        },
    }
}
