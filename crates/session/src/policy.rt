ghost use Rattle.std.specs.Prelude.{◌≡◌, IfOk, false};
ghost use Rattle.std.specs.Option.{option_map};
ghost use Rattle.session.specs.Policies as specs;
ghost use Rattle.session.specs.Policies.{is_among, names_of};

use crate::library::{Loaded, is_router};
use crate::locate::list_at_path;
use ios_acl::{Acl, Entry};
use sorted_logic::Text;
use std::alloc::{AllocError, Global};

/// A policy of a router that is loaded, as far as a query can name something of it.
#[derive(Drop)]
pub enum Policy<'a> {
    /// An access list: it permits and denies, and its entries are rules.
    List(&'a Acl),
    /// What permits and denies at an interface, without rules that a query can name.
    Filter,
    Translation,
    Switching,
    Forwarding,
}

/// The policy under a path.
pub fn policy_at<'a>(library: &'a [Loaded], parts: &[Text]) -> Option<Policy<'a>>
    ensures { option_map names_of result ≡ specs.policy_at library.now parts.now }
{
    match list_at_path(library, parts) {
        Some(list) => Some(Policy::List(list)),
        None => other_policy(library, parts),
    }
}

/// The policy under the path of a router that is loaded and of the name of another policy than a list.
fn other_policy(library: &[Loaded], parts: &[Text]) -> Option<Policy<'static>>
    ensures { option_map names_of result ≡ specs.other_policy library.now parts.now }
{
    match parts {
        [router, name] => {
            if is_router(library, router.as_str()) {
                router_policy(name)
            } else {
                None
            }
        }
        _ => None,
    }
}

/// The policy of each router that has this name, beside its lists.
fn router_policy(name: &Text) -> Option<Policy<'static>>
    ensures { option_map names_of result ≡ specs.router_policy name.now }
{
    let name = name.as_str();
    if name == "InboundACL" || name == "OutboundACL" {
        Some(Policy::Filter)
    } else if name == "NAT" {
        Some(Policy::Translation)
    } else if name == "Switching" {
        Some(Policy::Switching)
    } else if name == "Passes" {
        Some(Policy::Forwarding)
    } else {
        None
    }
}

impl Policy<'_> {
    /// Whether it has this decision.
    pub fn decides(&self, word: &Text) -> bool
        ensures { result ≡ is_among (names_of self.now).decisions word.now }
    {
        let word = word.as_str();
        match self {
            Policy::List(_) | Policy::Filter => word == "permit" || word == "deny",
            Policy::Translation => word == "translated",
            Policy::Switching => word == "forward",
            Policy::Forwarding => word == "pass",
        }
    }

    /// Whether it has a rule of this name.
    pub fn has_rule(&self, alloc: Global, rule: &Text) -> Result<bool, AllocError>
        ensures { IfOk result (λ has. has ≡ is_among (names_of self.now).rules rule.now) }
    {
        match self {
            Policy::List(list) => is_rule(alloc, list, rule),
            _ => Ok(false),
        }
    }
}

/// Whether the name is that of an entry, or of what holds where none matches.
fn is_rule(alloc: Global, list: &Acl, rule: &Text) -> Result<bool, AllocError>
    ensures { IfOk result (λ has. has ≡ is_among (specs.list_names list.now).rules rule.now) }
{
    if is_numbered(alloc, list.entries(), rule)? {
        return Ok(true);
    }
    Ok(rule.as_str() == "default")
}

/// Whether the name is the number of one of the entries.
fn is_numbered(alloc: Global, entries: &[Entry], rule: &Text) -> Result<bool, AllocError>
    ensures { IfOk result (λ has. has ≡ is_among (specs.entry_names entries.now) rule.now) }
{
    for entry in entries {
        let number = entry.number;
        let name = format!(in alloc; "{number}")?;
        if rule.as_str() == name.as_str() {
            return Ok(true);
        }
    }
    Ok(false)
}
