use combiners::{Comb, Parts, Policy, PolicySet, Rule, decision_formula};
use sorted_logic::{FiniteUniverse, Formula, NoMemory, Sig, Text, check_sorts};
use sqlite_items::Items;
use std::alloc::Global;
use std::test::Fail;

/// A set of one policy under First, whose rules alternate and never match.
fn alternating(alloc: Global, rules: u32) -> Result<PolicySet, NoMemory> {
    let mut made = Items::new(alloc);
    for place in 0..rules {
        made.push(Rule {
            name: Text::of(alloc, "r")?,
            decision: place % 2,
            locals: Items::new(alloc),
            body: Formula::False,
        })?;
    }
    let mut policies = Items::new(alloc);
    policies.push(Policy {
        name: Text::of(alloc, "P")?,
        vocab: Text::of(alloc, "net")?,
        vars: Items::new(alloc),
        decisions: Items::new(alloc),
        parts: Parts::Rules(made),
        comb: Comb::First,
    })?;
    Ok(PolicySet { policies })
}

/// As many rules as a policy file may have: the formula nests as deep.
#[test]
fn formulas_of_many_rules_are_copied(rt: HostRuntime) -> Result<(), Fail> {
    let alloc = rt.alloc();
    let formula = decision_formula(alloc, &alternating(alloc, 5000)?, 0, 0)?;
    let copy = formula.copy(alloc)?;
    let sig = Sig::base(alloc)?;
    assert!(rt; check_sorts(&sig, &[], &copy).is_ok());
    Ok(())
}

/// Truth is told as deep as it is asked for.
#[test]
fn formulas_of_many_rules_are_judged(rt: HostRuntime) -> Result<(), Fail> {
    let alloc = rt.alloc();
    let formula = decision_formula(alloc, &alternating(alloc, 4000)?, 0, 0)?;
    let sig = Sig::base(alloc)?;
    let universe = FiniteUniverse::new(alloc, &sig, 0)?;
    assert!(rt; !universe.holds(&formula, &[]));
    Ok(())
}

/// As many equivalents as a script can hold.
#[test]
fn long_equivalences_are_copied(rt: HostRuntime) -> Result<(), Fail> {
    let alloc = rt.alloc();
    let mut parts = Items::new(alloc);
    for _part in 0..400000u32 {
        parts.push(Formula::False)?;
    }
    let formula = Formula::Iff(parts).copy(alloc)?;
    let sig = Sig::base(alloc)?;
    assert!(rt; check_sorts(&sig, &[], &formula).is_ok());
    Ok(())
}
