//! Small formulas.

ghost use Rattle.std.specs.Prelude.{◌≡◌, IfOk, map};
ghost use Rattle.sorted_logic.specs.Trees.{formula_tree};
ghost use Rattle.sorted_logic.specs.Syntax.{negation};
ghost use Rattle.combiners.specs.Making as specs;

use sorted_logic::Formula;
use sqlite_items::{Boxed, Items};
use std::alloc::{AllocError, Global};

/// An OR of nothing is FALSE.
#[tactic(auto, using(sorted_logic::proofs::TreeEquations::formula_trees))]
pub(crate) fn any_of(parts: Items<Formula>) -> Formula
    ensures { formula_tree result ≡ specs.any_of (map formula_tree parts) }
{
    if parts.is_empty() {
        Formula::False
    } else {
        Formula::Or(parts)
    }
}

#[tactic(auto, using(sorted_logic::proofs::TreeEquations::formula_trees))]
pub(crate) fn not(alloc: Global, formula: Formula) -> Result<Formula, AllocError>
    ensures { IfOk result (λ made. formula_tree made ≡ negation (formula_tree formula)) }
{
    Ok(Formula::Not(Boxed::new(alloc, formula)?))
}

#[tactic(auto, using(sorted_logic::proofs::TreeEquations::formula_trees))]
pub(crate) fn both(alloc: Global, left: Formula, right: Formula) -> Result<Formula, AllocError>
    ensures { IfOk result (λ made. formula_tree made
        ≡ specs.both (formula_tree left) (formula_tree right)) }
{
    let mut parts = Items::new(alloc);
    parts.push(left)?;
    parts.push(right)?;
    Ok(Formula::And(parts))
}

#[tactic(auto, using(sorted_logic::proofs::TreeEquations::formula_trees))]
pub(crate) fn either(alloc: Global, left: Formula, right: Formula) -> Result<Formula, AllocError>
    ensures { IfOk result (λ made. formula_tree made
        ≡ specs.either (formula_tree left) (formula_tree right)) }
{
    let mut parts = Items::new(alloc);
    parts.push(left)?;
    parts.push(right)?;
    Ok(Formula::Or(parts))
}
