ghost use Rattle.std.specs.Prelude.{◌≡◌, ◌<◌, ◌≤◌, IfOk, IfSome, Some, None, is_none, false, length, map, true};
ghost use Rattle.std.specs.Bool.{OnTrue};
ghost use Rattle.cnf.specs.Order.{IsLeast};
ghost use Rattle.sat_core.specs.Inside.Walk.{IsForced, MayFollow};

use crate::engine::Engine;
use crate::source::Source;
use crate::store::Store;
use cnf::{Lit, NoMemory};
use proof_check::{Outcome, Table};
use std::alloc::Global;

/// A literal of the trail, and the clause that left it alone; none for a decision.
#[derive(Clone, Copy, Debug)]
pub(crate) struct Fixed {
    pub(crate) lit: Lit,
    pub(crate) source: Option<Source>,
}

/// Whether the clause of a source leaves this literal alone.
fn is_left_alone(store: &Store, table: &Table, lit: Lit, source: Source) -> bool
    requires { length table.now ≡ store.now.vars }
    ensures { OnTrue result (IsForced store.now table.now lit) }
{
    let Some(clause) = store.clause(source) else {
        return false;
    };
    let Outcome::Unit(left) = table.outcome(clause) else {
        return false;
    };
    if left != lit {
        return false;
    }
    true
}

/// Whether the literal may be true next: its variable has no value, and it is decided for false, or the clause of its
/// source leaves it alone and, if it makes its variable true, each decided one is before that.
fn may_follow(store: &Store, table: &Table, floor: usize, fixed: Fixed) -> bool
    requires { length table.now ≡ store.now.vars }
    ensures { OnTrue result (MayFollow store.now table.now floor fixed.lit fixed.source) }
{
    let lit = fixed.lit;
    if lit.var >= table.len() || table.get(lit.var).is_some() {
        return false;
    }
    let Some(source) = fixed.source else {
        return lit.negative;
    };
    is_left_alone(store, table, lit, source) && (lit.negative || floor <= lit.var)
}

/// The least bound above each decided variable, once this literal is true.
fn floor_after(vars: usize, floor: usize, fixed: Fixed) -> usize
    requires { fixed.lit.var < vars }
    ensures decided { fixed.source ≡ None → (floor ≤ result) × (fixed.lit.var < result) }
    ensures forced { (source : Source) → fixed.source ≡ Some source → result ≡ floor }
{
    if fixed.source.is_some() {
        return floor;
    }
    floor.max(fixed.lit.var + 1)
}

/// The values of the table, where each variable has one.
fn values_of(alloc: Global, table: &Table) -> Result<Option<Vec<bool>>, NoMemory>
    ensures { IfOk result (λ found. IfSome found (λ values. table.now ≡ map Some values.items)) }
{
    let mut values = Vec::with_capacity(alloc, table.len())?;
    for var in 0..table.len() {
        let Some(value) = table.get(var) else {
            return Ok(None);
        };
        values.push(value)?;
    }
    Ok(Some(values))
}

/// The values of the trail, if it shows that they are the least model.
pub(crate) fn least_of(
    alloc: Global,
    store: &Store,
    engine: &Engine,
) -> Result<Option<Vec<bool>>, NoMemory>
    ensures { IfOk result (λ found. IfSome found (λ values.
        IsLeast store.now.vars store.now.clauses values.items)) }
{
    let mut table = Table::new(alloc, store.cnf().vars())?;
    let mut floor = 0;
    for place in 0..engine.trail().len() {
        let fixed = engine.fixed_at(place);
        if !may_follow(store, &table, floor, fixed) {
            return Ok(None);
        }
        table.set_true(fixed.lit);
        floor = floor_after(table.len(), floor, fixed);
    }
    let Some(values) = values_of(alloc, &table)? else {
        return Ok(None);
    };
    if store.cnf().holds(values.as_slice()) {
        return Ok(Some(values));
    }
    Ok(None)
}
