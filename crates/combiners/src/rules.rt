//! What rules decide, as formulas.

ghost use Rattle.std.specs.Prelude.{◌≡◌, ◌<◌, IfOk, length, map, slice_get};
ghost use Rattle.sorted_logic.specs.Trees.{formula_tree};
ghost use Rattle.combiners.specs.Making as specs;
ghost use Rattle.combiners.specs.Tree.{plain_rule, plain_rules, sorts_of};

use crate::formulas::{any_of, both, either, not};
use crate::order::is_before;
use crate::policy::{Comb, Rule, Variable};
use sorted_logic::Formula;
use sqlite_items::{Boxed, Items};
use std::alloc::{AllocError, Global};

/// A formula under an EXISTS for each variable, in order.
#[tactic(auto, using(sorted_logic::proofs::TreeEquations::formula_trees))]
fn under(alloc: Global, variables: &[Variable], body: Formula) -> Result<Formula, AllocError>
    ensures { IfOk result (λ made. formula_tree made
        ≡ specs.under (sorts_of variables.now) (formula_tree body)) }
{
    match variables.split_first() {
        None => Ok(body),
        Some((variable, others)) => {
            let rest = under(alloc, others, body)?;
            Ok(Formula::Exists(variable.sort, Boxed::new(alloc, rest)?))
        }
    }
}

/// When a rule matches.
pub(crate) fn matching(alloc: Global, rule: &Rule) -> Result<Formula, AllocError>
    ensures { IfOk result (λ made. formula_tree made ≡ specs.matching (plain_rule rule.now)) }
{
    under(alloc, rule.locals.as_slice(), rule.body.copy(alloc)?)
}

/// When each rule matches.
pub(crate) fn matching_all(alloc: Global, rules: &[Rule]) -> Result<Items<Formula>, AllocError>
    ensures { IfOk result (λ made. map formula_tree made
        ≡ map specs.matching (plain_rules rules.now)) }
{
    let mut parts = Items::new(alloc);
    for rule in rules {
        parts.push(matching(alloc, rule)?)?;
    }
    Ok(parts)
}

/// When the rules of a decision match.
fn matching_of(alloc: Global, rules: &[Rule], decision: usize) -> Result<Items<Formula>, AllocError>
    ensures { IfOk result (λ made. map formula_tree made
        ≡ specs.matching_of decision (plain_rules rules.now)) }
{
    let mut parts = Items::new(alloc);
    for rule in rules {
        if rule.decision as usize == decision {
            parts.push(matching(alloc, rule)?)?;
        }
    }
    Ok(parts)
}

/// When the rules of the decisions before one match.
pub(crate) fn matching_before(
    alloc: Global,
    order: &[u32],
    rules: &[Rule],
    decision: usize,
) -> Result<Items<Formula>, AllocError>
    ensures { IfOk result (λ made. map formula_tree made
        ≡ specs.matching_before order.now decision (plain_rules rules.now)) }
{
    let mut parts = Items::new(alloc);
    for rule in rules {
        if is_before(order, rule.decision as usize, decision) {
            parts.push(matching(alloc, rule)?)?;
        }
    }
    Ok(parts)
}

/// The decision of a rule and of those behind it.
fn with_rule(
    alloc: Global,
    rule: &Rule,
    decision: usize,
    rest: Formula,
) -> Result<Formula, AllocError>
    ensures { IfOk result (λ made. formula_tree made
        ≡ specs.with_rule decision (plain_rule rule.now) (formula_tree rest)) }
{
    let matches = matching(alloc, rule)?;
    if rule.decision as usize == decision {
        either(alloc, matches, rest)
    } else {
        both(alloc, not(alloc, matches)?, rest)
    }
}

/// The decision of the first rule that matches.
#[tactic(auto, using(sorted_logic::proofs::TreeEquations::formula_trees))]
fn first_rule(alloc: Global, rules: &[Rule], decision: usize) -> Result<Formula, AllocError>
    ensures { IfOk result (λ made. formula_tree made
        ≡ specs.first_rule decision (plain_rules rules.now)) }
{
    let mut rest = Formula::False;
    let mut at = rules.len();
    while at > 0 {
        at -= 1;
        rest = with_rule(alloc, &rules[at], decision, rest)?;
    }
    Ok(rest)
}

/// What rules decide under a combiner.
pub(crate) fn decision_of_rules(
    alloc: Global,
    comb: &Comb,
    rules: &[Rule],
    decision: usize,
) -> Result<Formula, AllocError>
    ensures { IfOk result (λ made. formula_tree made
        ≡ specs.decision_of_rules comb.now (plain_rules rules.now) decision) }
{
    match comb {
        Comb::First => first_rule(alloc, rules, decision),
        Comb::Over(order) => {
            let some = any_of(matching_of(alloc, rules, decision)?);
            let before = any_of(matching_before(alloc, order.as_slice(), rules, decision)?);
            both(alloc, some, not(alloc, before)?)
        }
        Comb::All => Ok(any_of(matching_of(alloc, rules, decision)?)),
    }
}

/// When the rule at a place matches.
#[tactic(auto, using(crate::proofs::PlainRules::plain_places))]
pub(crate) fn rule_matches(
    alloc: Global,
    rules: &Items<Rule>,
    place: usize,
) -> Result<Formula, AllocError>
    ensures { IfOk result (λ made. formula_tree made
        ≡ specs.matches_of (slice_get (plain_rules rules.now) place)) }
{
    match rules.get(place) {
        None => Ok(Formula::False),
        Some(rule) => matching(alloc, rule),
    }
}

/// When the rule at a place applies.
#[tactic(auto, using(crate::proofs::PlainRules::plain_places))]
pub(crate) fn rule_applies(
    alloc: Global,
    comb: &Comb,
    rules: &Items<Rule>,
    place: usize,
) -> Result<Formula, AllocError>
    ensures { let plain = plain_rules rules.now in
        IfOk result (λ made. formula_tree made
        ≡ specs.applies_of comb.now plain place (slice_get plain place)) }
{
    match rules.get(place) {
        None => Ok(Formula::False),
        Some(rule) => applies_to(alloc, comb, rules.as_slice(), place, rule),
    }
}

/// When a rule at a place applies.
#[tactic(auto, using(crate::proofs::PlainRules::plain_before))]
fn applies_to(
    alloc: Global,
    comb: &Comb,
    rules: &[Rule],
    place: usize,
    rule: &Rule,
) -> Result<Formula, AllocError>
    requires { place < length rules.now }
    ensures { IfOk result (λ made. formula_tree made
        ≡ specs.applies_to comb.now (plain_rules rules.now) place (plain_rule rule.now)) }
{
    let matches = matching(alloc, rule)?;
    match comb {
        Comb::First => {
            let earlier = any_of(matching_all(alloc, &rules[..place])?);
            both(alloc, matches, not(alloc, earlier)?)
        }
        Comb::Over(order) => {
            let decision = rule.decision as usize;
            let before = any_of(matching_before(alloc, order.as_slice(), rules, decision)?);
            both(alloc, matches, not(alloc, before)?)
        }
        Comb::All => Ok(matches),
    }
}
