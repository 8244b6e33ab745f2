//! Plain policies.

ghost use Rattle.std.specs.Prelude.{◌≡◌, IsTrue, map};
ghost use Rattle.std.specs.List.{list_all, list_any};
ghost use Rattle.sorted_logic.specs.Trees.{formula_tree};
ghost use Rattle.combiners.specs.Plainness as specs;
ghost use Rattle.combiners.specs.Tree.{plain_rule, plain_rules, tree_of, tree_within};

use crate::policy::{Parts, PolicySet, Rule};
use sorted_logic::Formula;

/// The policy, with all its children, has no local variable and no quantifier. Takes no memory.
pub fn is_plain(p: &PolicySet, policy: u32) -> bool
    ensures { result ≡ specs.is_plain (tree_of p.now policy) }
{
    is_plain_within(p, p.policies.len(), policy)
}

/// The policy at a place is plain, so many levels deep.
#[cycle(plain)]
fn is_plain_within(set: &PolicySet, levels: usize, place: u32) -> bool
    ensures { result ≡ specs.is_plain (tree_within set.now levels place) }
{
    if levels == 0 {
        return true;
    }
    match set.policies.get(place as usize) {
        None => true,
        Some(policy) => match &policy.parts {
            Parts::Rules(rules) => are_plain_rules(rules.as_slice()),
            Parts::Children(children) => are_plain(set, levels - 1, children.as_slice()),
        },
    }
}

/// The policies at some places are plain, so many levels deep.
#[cycle(plain)]
fn are_plain(set: &PolicySet, levels: usize, places: &[u32]) -> bool
    ensures { result
        ≡ list_all (λ place. specs.is_plain (tree_within set.now levels place)) places.now }
{
    for place in places {
        if !is_plain_within(set, levels, *place) {
            return false;
        }
    }
    true
}

fn are_plain_rules(rules: &[Rule]) -> bool
    ensures { result ≡ list_all specs.is_plain_rule (plain_rules rules.now) }
{
    for rule in rules {
        if !is_plain_rule(rule) {
            return false;
        }
    }
    true
}

fn is_plain_rule(rule: &Rule) -> bool
    ensures { result ≡ specs.is_plain_rule (plain_rule rule.now) }
{
    rule.locals.is_empty() && !has_quantifier(&rule.body)
}

/// The formula has a quantifier.
#[cycle(quantifier)]
#[tactic(auto, using(sorted_logic::proofs::TreeEquations::formula_trees, crate::proofs::Quantifiers::chains,))]
fn has_quantifier(formula: &Formula) -> bool
    ensures { result ≡ specs.has_quantifier (formula_tree formula.now) }
{
    match formula {
        Formula::True => false,
        Formula::False => false,
        Formula::Not(body) => has_quantifier(body.get()),
        Formula::And(parts) => has_quantifier_in(parts.as_slice()),
        Formula::Or(parts) => has_quantifier_in(parts.as_slice()),
        Formula::Implies(left, right) => has_quantifier(left.get()) || has_quantifier(right.get()),
        Formula::Iff(parts) => has_quantifier_in(parts.as_slice()),
        Formula::Forall(_, _) => true,
        Formula::Exists(_, _) => true,
        Formula::Equal(_, _) => false,
        Formula::InSort(_, _) => false,
        Formula::Holds(_, _) => false,
        Formula::NumberTest(_, _) => false,
        Formula::Decides { .. } => false,
        Formula::RuleIs { .. } => false,
    }
}

/// Some of the formulas has one.
#[cycle(quantifier)]
fn has_quantifier_in(formulas: &[Formula]) -> bool
    ensures { result
        ≡ list_any (λ formula. specs.has_quantifier (formula_tree formula)) formulas.now }
{
    for formula in formulas {
        if has_quantifier(formula) {
            return true;
        }
    }
    false
}
