//! Copies of policies and their parts.

ghost use Rattle.std.specs.Prelude.{◌≡◌, IfOk};

use crate::policy::{Comb, Parts, Policy, PolicySet, Rule, Variable};
use sorted_logic::Text;
use sqlite_items::Items;
use std::alloc::{AllocError, Global};

impl Variable {
    /// The same variable once more.
    pub fn copy(&self, alloc: Global) -> Result<Variable, AllocError>
        ensures { IfOk result (λ variable. variable ≡ self.now) }
    {
        Ok(Variable {
            name: self.name.copy(alloc)?,
            sort: self.sort,
        })
    }
}

fn copy_variables(alloc: Global, variables: &[Variable]) -> Result<Items<Variable>, AllocError>
    ensures { IfOk result (λ copies. copies ≡ variables.now) }
{
    let mut copies = Items::new(alloc);
    for variable in variables {
        copies.push(variable.copy(alloc)?)?;
    }
    Ok(copies)
}

impl Rule {
    /// The same rule once more.
    pub fn copy(&self, alloc: Global) -> Result<Rule, AllocError>
        ensures { IfOk result (λ rule. rule ≡ self.now) }
    {
        Ok(Rule {
            name: self.name.copy(alloc)?,
            decision: self.decision,
            locals: copy_variables(alloc, self.locals.as_slice())?,
            body: self.body.copy(alloc)?,
        })
    }
}

fn copy_rules(alloc: Global, rules: &[Rule]) -> Result<Items<Rule>, AllocError>
    ensures { IfOk result (λ copies. copies ≡ rules.now) }
{
    let mut copies = Items::new(alloc);
    for rule in rules {
        copies.push(rule.copy(alloc)?)?;
    }
    Ok(copies)
}

impl Comb {
    /// The same combiner once more.
    pub fn copy(&self, alloc: Global) -> Result<Comb, AllocError>
        ensures { IfOk result (λ comb. comb ≡ self.now) }
    {
        Ok(match self {
            Comb::First => Comb::First,
            Comb::Over(order) => Comb::Over(Items::from_slice(alloc, order.as_slice())?),
            Comb::All => Comb::All,
        })
    }
}

impl Parts {
    /// The same parts once more.
    pub fn copy(&self, alloc: Global) -> Result<Parts, AllocError>
        ensures { IfOk result (λ parts. parts ≡ self.now) }
    {
        Ok(match self {
            Parts::Rules(rules) => Parts::Rules(copy_rules(alloc, rules.as_slice())?),
            Parts::Children(children) => {
                Parts::Children(Items::from_slice(alloc, children.as_slice())?)
            }
        })
    }
}

fn copy_texts(alloc: Global, texts: &[Text]) -> Result<Items<Text>, AllocError>
    ensures { IfOk result (λ copies. copies ≡ texts.now) }
{
    let mut copies = Items::new(alloc);
    for text in texts {
        copies.push(text.copy(alloc)?)?;
    }
    Ok(copies)
}

impl Policy {
    /// The same policy once more.
    pub fn copy(&self, alloc: Global) -> Result<Policy, AllocError>
        ensures { IfOk result (λ policy. policy ≡ self.now) }
    {
        Ok(Policy {
            name: self.name.copy(alloc)?,
            vocab: self.vocab.copy(alloc)?,
            vars: copy_variables(alloc, self.vars.as_slice())?,
            decisions: copy_texts(alloc, self.decisions.as_slice())?,
            parts: self.parts.copy(alloc)?,
            comb: self.comb.copy(alloc)?,
        })
    }
}

fn copy_policies(alloc: Global, policies: &[Policy]) -> Result<Items<Policy>, AllocError>
    ensures { IfOk result (λ copies. copies ≡ policies.now) }
{
    let mut copies = Items::new(alloc);
    for policy in policies {
        copies.push(policy.copy(alloc)?)?;
    }
    Ok(copies)
}

impl PolicySet {
    /// The same set once more.
    pub fn copy(&self, alloc: Global) -> Result<PolicySet, AllocError>
        ensures { IfOk result (λ set. set ≡ self.now) }
    {
        Ok(PolicySet {
            policies: copy_policies(alloc, self.policies.as_slice())?,
        })
    }
}
