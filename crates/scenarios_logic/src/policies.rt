use combiners::{
    Comb, Parts, Policy, PolicySet, Rule, Variable, applies_formula, decision_formula,
    matches_formula,
};
use sorted_logic::{FiniteUniverse, Formula, NoMemory, Sig, Sort, Term, Test, Text};
use sqlite_items::Items;
use std::alloc::Global;
use std::test::Fail;
use test_tables::{answered, parted, push_answer};

fn rule(alloc: Global, decision: u32, body: Formula) -> Result<Rule, NoMemory> {
    Ok(Rule {
        name: Text::of(alloc, "r")?,
        decision,
        locals: Items::new(alloc),
        body,
    })
}

/// A policy of one address, with the decisions permit and deny.
fn policy(alloc: Global, parts: Parts, comb: Comb) -> Result<Policy, NoMemory> {
    let mut vars = Items::new(alloc);
    vars.push(Variable {
        name: Text::of(alloc, "a")?,
        sort: Sort(0),
    })?;
    let mut decisions = Items::new(alloc);
    decisions.push(Text::of(alloc, "permit")?)?;
    decisions.push(Text::of(alloc, "deny")?)?;
    Ok(Policy {
        name: Text::of(alloc, "P")?,
        vocab: Text::of(alloc, "net")?,
        vars,
        decisions,
        parts,
        comb,
    })
}

fn one_rule(alloc: Global, decision: u32, body: Formula) -> Result<Policy, NoMemory> {
    let mut rules = Items::new(alloc);
    rules.push(rule(alloc, decision, body)?)?;
    policy(alloc, Parts::Rules(rules), Comb::First)
}

/// The universe of one address.
fn one_address(alloc: Global, number: u128) -> Result<FiniteUniverse, Fail> {
    let sig = Sig::base(alloc)?;
    let mut universe = FiniteUniverse::new(alloc, &sig, 1)?;
    universe.put_sort(Sort(0), 0);
    universe.put_number(0, number);
    Ok(universe)
}

fn push_decisions(
    alloc: Global,
    set: &PolicySet,
    place: u32,
    universe: &FiniteUniverse,
    text: &mut String,
) -> Result<(), Fail> {
    let permit = decision_formula(alloc, set, place, 0)?;
    push_answer(text, universe.holds(&permit, &[0]))?;
    text.push(' ')?;
    let deny = decision_formula(alloc, set, place, 1)?;
    push_answer(text, universe.holds(&deny, &[0]))?;
    Ok(())
}

/// Permits 10.0.0.1, denies 10.0.0.0 0.0.0.255, and deny overrides.
fn deny_overrides(alloc: Global) -> Result<PolicySet, NoMemory> {
    let host = Test::Range {
        low: 167772161,
        high: 167772161,
    };
    let network = Test::Masked {
        value: 167772160,
        wildcard: 255,
    };
    let mut rules = Items::new(alloc);
    rules.push(rule(alloc, 0, Formula::NumberTest(Term::Var(0), host))?)?;
    rules.push(rule(alloc, 1, Formula::NumberTest(Term::Var(0), network))?)?;
    let mut order = Items::new(alloc);
    order.push(1)?;
    order.push(0)?;
    let mut policies = Items::new(alloc);
    policies.push(policy(alloc, Parts::Rules(rules), Comb::Over(order))?)?;
    Ok(PolicySet { policies })
}

/// Of an address: whether it is permitted and denied, and whether the first rule matches and applies.
fn push_overridden(alloc: Global, row: &str, text: &mut String) -> Result<(), Fail> {
    let number: u128 = row.parse()?;
    let set = deny_overrides(alloc)?;
    let universe = one_address(alloc, number)?;
    push_decisions(alloc, &set, 0, &universe, text)?;
    text.push(' ')?;
    let matches = matches_formula(alloc, &set, 0, 0)?;
    push_answer(text, universe.holds(&matches, &[0]))?;
    text.push(' ')?;
    let applies = applies_formula(alloc, &set, 0, 0)?;
    push_answer(text, universe.holds(&applies, &[0]))?;
    Ok(())
}

/// 10.0.0.1, which both rules match; 10.0.0.2, which the second alone does; 11.0.0.1, which none does.
const OVERRIDDEN: &str = "167772161 => no yes yes no
167772162 => no yes no no
184549377 => no no no no
";

#[test]
fn denials_override(rt: HostRuntime) -> Result<(), Fail> {
    let text = answered(rt.alloc(), OVERRIDDEN, "\n", push_overridden)?;
    assert_eq!(rt; text.as_str(), OVERRIDDEN);
    Ok(())
}

fn truth_of(word: &str) -> Formula {
    if word == "yes" {
        Formula::True
    } else {
        Formula::False
    }
}

/// Of two policies under First, one that permits where the first word is yes, and one that denies where the second is.
fn push_first(alloc: Global, row: &str, text: &mut String) -> Result<(), Fail> {
    let (first, second) = parted(row)?;
    let mut children = Items::new(alloc);
    children.push(0)?;
    children.push(1)?;
    let mut policies = Items::new(alloc);
    policies.push(one_rule(alloc, 0, truth_of(first))?)?;
    policies.push(one_rule(alloc, 1, truth_of(second))?)?;
    policies.push(policy(alloc, Parts::Children(children), Comb::First)?)?;
    let universe = one_address(alloc, 0)?;
    push_decisions(alloc, &PolicySet { policies }, 2, &universe, text)
}

/// The first child that decides anything gives its decisions; where none does, nothing is decided.
const FIRST: &str = "yes yes => yes no
yes no => yes no
no yes => no yes
no no => no no
";

#[test]
fn the_first_child_that_decides_gives_its_decisions(rt: HostRuntime) -> Result<(), Fail> {
    let text = answered(rt.alloc(), FIRST, "\n", push_first)?;
    assert_eq!(rt; text.as_str(), FIRST);
    Ok(())
}
