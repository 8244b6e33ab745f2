use crate::loaded::Loaded;
use ios_acl::Acl;
use notes::Printed;
use sorted_logic::Text;
use std::alloc::{AllocError, Global};

/// The most names that are listed.
const MOST_NAMES: usize = 20;

/// Whether a policy of this path is loaded.
pub(crate) fn is_known(loaded: &[Loaded<'_>], parts: &[Text]) -> bool {
    match parts {
        [router, kind, list] if kind.as_str() == "acl" => match router_of(loaded, router) {
            Some(router) => router.router.lists.iter().any(|found| is_list(found, list)),
            None => false,
        },
        [router, policy] => is_policy(policy.as_str()) && router_of(loaded, router).is_some(),
        _ => false,
    }
}

/// Whether each router has a policy of this name.
fn is_policy(name: &str) -> bool {
    matches!(
        name,
        "InboundACL" | "OutboundACL" | "NAT" | "Switching" | "Passes"
    )
}

/// Whether the list has an entry, and this name.
fn is_list(list: &Acl, name: &Text) -> bool {
    list.is_defined() && list.name().bytes() == name.bytes()
}

fn router_of<'a, 'b>(loaded: &'b [Loaded<'a>], name: &Text) -> Option<&'b Loaded<'a>> {
    loaded.iter().find(|router| router.name == name.as_str())
}

/// The names that could be meant in the place of a path: the lists of its router, or the routers that are loaded.
pub(crate) fn known_names(
    alloc: Global,
    loaded: &[Loaded<'_>],
    parts: &[Text],
) -> Result<String, AllocError> {
    let Some(name) = parts.first() else {
        return String::from_str(alloc, "name a policy");
    };
    let router = name.as_str();
    match router_of(loaded, name) {
        Some(found) => {
            let names = list_names(alloc, found.router.lists.as_slice())?;
            format!(in alloc; "{router} has {names}; a list is written {router}.acl.NAME")
        }
        None => {
            let names = router_names(alloc, loaded)?;
            format!(in alloc; "no router is loaded as {router} here; loaded are {names}")
        }
    }
}

/// The names of the lists that have an entry.
fn list_names(alloc: Global, lists: &[Acl]) -> Result<String, AllocError> {
    let mut text = String::new(alloc);
    let mut count: usize = 0;
    for list in lists {
        if list.is_defined() && count < MOST_NAMES {
            let name = Printed(list.name().bytes());
            let before = if count == 0 { "the lists " } else { ", " };
            write!(text, "{before}{name}")?;
            count += 1;
        }
    }
    if count == 0 {
        text.push_str("no list with an entry")?;
    } else if lists.len() > MOST_NAMES {
        text.push_str(" and others")?;
    }
    Ok(text)
}

/// The names of the routers that are loaded.
fn router_names(alloc: Global, loaded: &[Loaded<'_>]) -> Result<String, AllocError> {
    let mut text = String::new(alloc);
    for router in loaded {
        let name = router.name;
        let before = if text.is_empty() { "" } else { ", " };
        write!(text, "{before}{name}")?;
    }
    if text.is_empty() {
        text.push_str("none")?;
    }
    Ok(text)
}
