//! The order of decisions, and lists of them.

ghost use Rattle.std.specs.Prelude.{◌≡◌, ◌==◌, IfOk, position};
ghost use Rattle.combiners.specs.Combining as specs;
ghost use Rattle.combiners.specs.Making as making;

use std::alloc::{AllocError, Global};

/// Where the order names the decision.
fn named_at(order: &[u32], decision: usize) -> Option<usize>
    ensures { result ≡ position (λ named. named == decision) order.now }
{
    order.iter().position(|named| *named as usize == decision)
}

/// The decision's place among all: those that the order names come first.
fn rank(order: &[u32], decision: usize) -> u128
    ensures { result ≡ specs.rank order.now decision }
{
    match named_at(order, decision) {
        Some(place) => place as u128,
        None => order.len() as u128 + decision as u128,
    }
}

/// The first decision overrides the second.
pub(crate) fn is_before(order: &[u32], first: usize, second: usize) -> bool
    ensures { result ≡ specs.is_before order.now first second }
{
    rank(order, first) < rank(order, second)
}

/// The decisions below a number.
pub(crate) fn decisions_below(alloc: Global, decisions: usize) -> Result<Vec<usize>, AllocError>
    ensures { IfOk result (λ made. made.items ≡ making.decisions_below decisions) }
{
    let mut below = Vec::new(alloc);
    for decision in 0..decisions {
        below.push(decision)?;
    }
    Ok(below)
}

/// Those that override one.
pub(crate) fn decisions_before(
    alloc: Global,
    order: &[u32],
    decisions: usize,
    overridden: usize,
) -> Result<Vec<usize>, AllocError>
    ensures { IfOk result (λ made. made.items
        ≡ making.decisions_before order.now decisions overridden) }
{
    let mut before = Vec::new(alloc);
    for decision in 0..decisions {
        if is_before(order, decision, overridden) {
            before.push(decision)?;
        }
    }
    Ok(before)
}
