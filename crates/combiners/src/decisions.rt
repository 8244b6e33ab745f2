//! What policies decide, as formulas: those with children by what these decide.

ghost use Rattle.std.specs.Prelude.{◌≡◌, ℕ, IfOk, map};
ghost use Rattle.std.specs.List.{flat_map};
ghost use Rattle.sorted_logic.specs.Trees.{formula_tree};
ghost use Rattle.combiners.specs.Inside.ChildFormulas.{child_formulas};
ghost use Rattle.combiners.specs.Making as specs;
ghost use Rattle.combiners.specs.Tree.{tree_within};

use crate::formulas::{any_of, both, either, not};
use crate::order::{decisions_before, decisions_below};
use crate::policy::{Comb, Parts, PolicySet};
use crate::rules::decision_of_rules;
use sorted_logic::Formula;
use sqlite_items::Items;
use std::alloc::{AllocError, Global};

/// What the policy at a place decides, so many levels deep.
#[cycle(decision)]
#[tactic(auto, using(sorted_logic::proofs::TreeEquations::formula_trees))]
pub(crate) fn decision_within(
    alloc: Global,
    set: &PolicySet,
    levels: usize,
    place: u32,
    decision: usize,
) -> Result<Formula, AllocError>
    ensures { IfOk result (λ made. formula_tree made
        ≡ specs.decision_tree (tree_within set.now levels place) decision) }
{
    if levels == 0 {
        return Ok(Formula::False);
    }
    match set.policies.get(place as usize) {
        None => Ok(Formula::False),
        Some(policy) => match &policy.parts {
            Parts::Rules(rules) => {
                decision_of_rules(alloc, &policy.comb, rules.as_slice(), decision)
            }
            Parts::Children(children) => decision_of_children(
                alloc,
                set,
                levels - 1,
                &policy.comb,
                policy.decisions.len(),
                children.as_slice(),
                decision,
            ),
        },
    }
}

/// What children decide under a combiner.
#[cycle(decision)]
fn decision_of_children(
    alloc: Global,
    set: &PolicySet,
    levels: usize,
    comb: &Comb,
    decisions: usize,
    children: &[u32],
    decision: usize,
) -> Result<Formula, AllocError>
    ensures { let all = child_formulas set.now levels children.now in
        IfOk result (λ made. formula_tree made
        ≡ specs.decision_of_children comb.now decisions all decision) }
{
    match comb {
        Comb::First => first_child(alloc, set, levels, decisions, children, decision),
        Comb::Over(order) => {
            let some = any_of(deciding(alloc, set, levels, children, decision)?);
            let earlier = decisions_before(alloc, order.as_slice(), decisions, decision)?;
            let before = any_of(deciding_any(alloc, set, levels, children, earlier.as_slice())?);
            both(alloc, some, not(alloc, before)?)
        }
        Comb::All => Ok(any_of(deciding(alloc, set, levels, children, decision)?)),
    }
}

/// When each child makes a decision.
#[cycle(decision)]
fn deciding(
    alloc: Global,
    set: &PolicySet,
    levels: usize,
    children: &[u32],
    decision: usize,
) -> Result<Items<Formula>, AllocError>
    ensures { IfOk result (λ made. map formula_tree made
        ≡ map (λ child. child decision) (child_formulas set.now levels children.now)) }
{
    let mut parts = Items::new(alloc);
    for child in children {
        parts.push(decision_within(alloc, set, levels, *child, decision)?)?;
    }
    Ok(parts)
}

/// When each child makes each of some decisions.
#[cycle(decision)]
fn deciding_any(
    alloc: Global,
    set: &PolicySet,
    levels: usize,
    children: &[u32],
    decisions: &[usize],
) -> Result<Items<Formula>, AllocError>
    ensures { let all = child_formulas set.now levels children.now in
        IfOk result (λ made. map formula_tree made
        ≡ flat_map (λ child. map child decisions.now) all) }
{
    let mut parts = Items::new(alloc);
    for child in children {
        parts.append(decisions_of(alloc, set, levels, *child, decisions)?)?;
    }
    Ok(parts)
}

/// When one policy makes each of some decisions.
#[cycle(decision)]
fn decisions_of(
    alloc: Global,
    set: &PolicySet,
    levels: usize,
    place: u32,
    decisions: &[usize],
) -> Result<Items<Formula>, AllocError>
    ensures { IfOk result (λ made. map formula_tree made
        ≡ map (λ d. specs.decision_tree (tree_within set.now levels place) d) decisions.now) }
{
    let mut parts = Items::new(alloc);
    for decision in decisions {
        parts.push(decision_within(alloc, set, levels, place, *decision)?)?;
    }
    Ok(parts)
}

/// The decision of the first child that decides anything.
#[cycle(decision)]
#[tactic(auto, using(sorted_logic::proofs::TreeEquations::formula_trees))]
fn first_child(
    alloc: Global,
    set: &PolicySet,
    levels: usize,
    decisions: usize,
    children: &[u32],
    decision: usize,
) -> Result<Formula, AllocError>
    ensures { IfOk result (λ made. formula_tree made
        ≡ specs.first_child decisions decision (child_formulas set.now levels children.now)) }
{
    let all = decisions_below(alloc, decisions)?;
    let mut rest = Formula::False;
    let mut at = children.len();
    while at > 0 {
        at -= 1;
        rest = with_child(
            alloc,
            set,
            levels,
            children[at],
            all.as_slice(),
            decision,
            rest,
        )?;
    }
    Ok(rest)
}

/// The decision of a child and of those behind it.
#[cycle(decision)]
fn with_child(
    alloc: Global,
    set: &PolicySet,
    levels: usize,
    place: u32,
    all: &[usize],
    decision: usize,
    rest: Formula,
) -> Result<Formula, AllocError>
    ensures { let child = λ (d : ℕ). specs.decision_tree (tree_within set.now levels place) d in
        IfOk result (λ made. formula_tree made
        ≡ specs.with_child all.now decision child (formula_tree rest)) }
{
    let decides = decision_within(alloc, set, levels, place, decision)?;
    let any = any_of(decisions_of(alloc, set, levels, place, all)?);
    let others = both(alloc, not(alloc, any)?, rest)?;
    either(alloc, decides, others)
}
