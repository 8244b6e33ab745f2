ghost use Rattle.std.specs.Prelude.{◌≡◌, IfOk};
ghost use Rattle.std.specs.Option.{option_map};
ghost use Rattle.list_questions.specs.Mentions.{mentions};
ghost use Rattle.session.specs.Policies as specs;
ghost use Rattle.session.specs.Policies.{names_of};

use crate::ended::Reason;
use crate::library::Loaded;
use crate::policy::{Policy, policy_at};
use list_questions::{Mention, push_mentions};
use query_lang::{Explore, Named};
use sorted_logic::Text;
use std::alloc::{AllocError, Global};

/// Why the names of policies in an EXPLORE are refused: the first unknown one in its formula, else behind UNDER, else
/// behind INCLUDE.
pub fn explore_fault(
    alloc: Global,
    library: &[Loaded],
    explore: &Explore,
) -> Result<Option<Reason>, AllocError>
    ensures { IfOk result (λ fault. fault ≡ specs.explore_fault library.now explore.now) }
{
    if let Some(reason) = formula_fault(alloc, library, &explore.formula)? {
        return Ok(Some(reason));
    }
    if let Some(reason) = under_fault(explore.under.as_slice()) {
        return Ok(Some(reason));
    }
    included_fault(alloc, library, explore.include.as_slice())
}

fn formula_fault(
    alloc: Global,
    library: &[Loaded],
    formula: &Named,
) -> Result<Option<Reason>, AllocError>
    ensures { IfOk result (λ fault. fault ≡ specs.first_fault library.now (mentions formula.now)) }
{
    let mut mentions = Vec::new(alloc);
    push_mentions(formula, &mut mentions)?;
    first_fault(alloc, library, mentions.as_slice())
}

fn included_fault(
    alloc: Global,
    library: &[Loaded],
    atoms: &[Named],
) -> Result<Option<Reason>, AllocError>
    ensures { IfOk result (λ fault. fault ≡ specs.included_fault library.now atoms.now) }
{
    for atom in atoms {
        if let Some(reason) = formula_fault(alloc, library, atom)? {
            return Ok(Some(reason));
        }
    }
    Ok(None)
}

fn under_fault(names: &[Text]) -> Option<Reason>
    ensures { result ≡ specs.under_fault names.now }
{
    for name in names {
        if name.as_str() != "net" {
            return Some(Reason::UnknownPolicy);
        }
    }
    None
}

fn first_fault(
    alloc: Global,
    library: &[Loaded],
    mentions: &[Mention<'_>],
) -> Result<Option<Reason>, AllocError>
    ensures { IfOk result (λ fault. fault ≡ specs.first_fault library.now mentions.now) }
{
    for mention in mentions {
        if let Some(reason) = mention_fault(alloc, library, mention)? {
            return Ok(Some(reason));
        }
    }
    Ok(None)
}

/// Why a policy atom is refused.
fn mention_fault(
    alloc: Global,
    library: &[Loaded],
    mention: &Mention<'_>,
) -> Result<Option<Reason>, AllocError>
    ensures { IfOk result (λ fault. fault ≡ specs.atom_fault library.now mention.now) }
{
    let path = mention.path.parts.as_slice();
    if names_rule(mention.word) {
        path_rule_fault(alloc, library, path)
    } else {
        Ok(decision_fault(policy_at(library, path), mention.word))
    }
}

/// Why a path that names a rule is refused: its last component is the rule, and the rest the policy.
fn path_rule_fault(
    alloc: Global,
    library: &[Loaded],
    path: &[Text],
) -> Result<Option<Reason>, AllocError>
    ensures { IfOk result (λ fault. fault ≡ specs.path_rule_fault library.now path.now) }
{
    match path {
        [policy @ .., rule] => rule_fault(alloc, policy_at(library, policy), rule),
        [] => Ok(Some(Reason::UnknownPolicy)),
    }
}

/// Why a decision is refused.
fn decision_fault(policy: Option<Policy<'_>>, word: &Text) -> Option<Reason>
    ensures { result ≡ specs.decision_fault (option_map names_of policy.entry) word.now }
{
    match policy {
        Some(policy) if policy.decides(word) => None,
        Some(_) => Some(Reason::UnknownName),
        None => Some(Reason::UnknownPolicy),
    }
}

/// Why a rule is refused.
fn rule_fault(
    alloc: Global,
    policy: Option<Policy<'_>>,
    rule: &Text,
) -> Result<Option<Reason>, AllocError>
    ensures { IfOk result (λ fault.
        fault ≡ specs.rule_fault (option_map names_of policy.entry) rule.now) }
{
    let Some(policy) = policy else {
        return Ok(Some(Reason::UnknownPolicy));
    };
    if policy.has_rule(alloc, rule)? {
        Ok(None)
    } else {
        Ok(Some(Reason::UnknownName))
    }
}

/// Whether a path before this word names a rule.
fn names_rule(word: &Text) -> bool
    ensures { result ≡ specs.names_rule word.now }
{
    word.as_str() == "matches" || word.as_str() == "applies"
}
