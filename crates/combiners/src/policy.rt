//! Policies and sets of them.

use sorted_logic::{Formula, Sort, Text};
use sqlite_items::Items;

/// A variable of a policy or of a rule.
#[derive(Drop)]
pub struct Variable {
    pub name: Text,
    pub sort: Sort,
}

/// A rule. In its body the policy's variables have the numbers from 0, and its own follow them.
#[derive(Drop)]
pub struct Rule {
    pub name: Text,
    /// The decision's place in the policy's list.
    pub decision: u32,
    pub locals: Items<Variable>,
    pub body: Formula,
}

/// How the decisions of rules or of children are combined.
#[derive(Drop)]
pub enum Comb {
    /// The first rule that matches decides, as first-applicable has it.
    First,
    /// An earlier decision of the list overrides the later ones. Those that it does not name come
    /// behind it, in the policy's order.
    Over(Items<u32>),
    /// Each rule that matches gives its decision.
    All,
}

/// What a policy is made of.
#[derive(Drop)]
pub enum Parts {
    Rules(Items<Rule>),
    /// The places of other policies of the set.
    Children(Items<u32>),
}

/// A policy, or a set of policies where it has children.
#[derive(Drop)]
pub struct Policy {
    pub name: Text,
    pub vocab: Text,
    pub vars: Items<Variable>,
    pub decisions: Items<Text>,
    pub parts: Parts,
    pub comb: Comb,
}

/// Policies, each named by its place.
#[derive(Drop)]
pub struct PolicySet {
    pub policies: Items<Policy>,
}
