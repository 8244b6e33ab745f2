//! One signature of two.

ghost use Rattle.std.specs.Prelude.{◌≡◌, ◌<◌, length, map, false, Ok, IfOk, IfErr, OnOk};
ghost use Rattle.std.specs.List.{AllByRecursion};
ghost use Rattle.sorted_logic.specs.Inside.Joins.{places, moved_by, sort_by, function_by, relation_by, pair_by, new_sorts, new_functions, new_relations, with_functions, with_relations, with_pairs};
ghost use Rattle.sorted_logic.specs.Joining.{clash, joined, IsJoinReason};
ghost use Rattle.sorted_logic.specs.Signature.{AreSorts};

use crate::clash::clashes;
use crate::declarations::{SortDecl, Symbol};
use crate::fault::{JoinFault, SigFault};
use crate::signature::Sig;
use crate::term::Sort;
use sqlite_items::Items;
use std::alloc::{AllocError, Global};

/// The declarations of the first, then those of the second that the first lacks, and the disjoint pairs of both. A name that
/// both declare must be declared alike: as of one kind, a sort with a supersort of the same name and with the same bits, a
/// function or a relation with sorts of the same names.
pub fn join(a: &Sig, b: &Sig) -> Result<Sig, JoinFault>
    ensures joined { IfOk result (λ sig. sig ≡ joined a.now b.now) }
    ensures alike { IfOk result (λ _. clash a.now b.now ≡ false) }
    ensures reason { IfErr result (IsJoinReason (clash a.now b.now)) }
{
    if clashes(a, b) {
        return Err(JoinFault::Clash);
    }
    a.signature_is_kept();
    b.signature_is_kept();
    let places = joined_places(a, b)?;
    let sorts = moved_sorts(a, b, places.as_slice())?;
    let mut joined = a.copy()?;
    memory(joined.add_sorts(sorts.as_slice()))?;
    add_functions(&mut joined, a, b, places.as_slice())?;
    add_relations(&mut joined, a, b, places.as_slice())?;
    add_pairs(&mut joined, b, places.as_slice())?;
    Ok(joined)
}

/// What is added to a join has a name that neither signature gives to anything else, so that only memory can be wanting.
fn memory<T>(added: Result<T, SigFault>) -> Result<T, AllocError>
    ensures { IfOk result (λ value. added ≡ Ok value) }
{
    added.map_err(|_| AllocError)
}

/// Where each sort of the second signature stands in the join.
fn joined_places(a: &Sig, b: &Sig) -> Result<Items<Sort>, AllocError>
    ensures { IfOk result (λ made. made ≡ places a.now (length a.now.sorts) b.now.sorts) }
{
    let mut places = Items::new(a.alloc);
    let mut next = a.sorts().len() as u64;
    for decl in b.sorts() {
        match a.find(decl.name.as_str()) {
            Some(Symbol::Sort(sort)) => places.push(sort)?,
            Some(_) => places.push(Sort(next))?,
            None => {
                places.push(Sort(next))?;
                next += 1;
            }
        }
    }
    Ok(places)
}

fn moved(places: &[Sort], sort: Sort) -> Sort
    ensures { result ≡ moved_by places.now sort }
{
    match places.get(sort.0 as usize) {
        Some(place) => *place,
        None => sort,
    }
}

fn all_moved(alloc: Global, places: &[Sort], sorts: &[Sort]) -> Result<Items<Sort>, AllocError>
    ensures { IfOk result (λ made. made ≡ map (moved_by places.now) sorts.now) }
{
    let mut made = Items::new(alloc);
    for sort in sorts {
        made.push(moved(places, *sort))?;
    }
    Ok(made)
}

/// The second signature's sorts that the first lacks, under their supersorts' places in the join.
fn moved_sorts(a: &Sig, b: &Sig, places: &[Sort]) -> Result<Items<SortDecl>, AllocError>
    ensures { IfOk result (λ made. made ≡ map (sort_by places.now) (new_sorts a.now b.now.sorts)) }
{
    let mut made = Items::new(a.alloc);
    for decl in b.sorts() {
        if a.find(decl.name.as_str()).is_none() {
            made.push(moved_sort(a.alloc, places, decl)?)?;
        }
    }
    Ok(made)
}

fn moved_sort(alloc: Global, places: &[Sort], decl: &SortDecl) -> Result<SortDecl, AllocError>
    ensures { IfOk result (λ made. made ≡ sort_by places.now decl.now) }
{
    Ok(SortDecl {
        name: decl.name.copy(alloc)?,
        under: match decl.under {
            Some(above) => Some(moved(places, above)),
            None => None,
        },
        bits: decl.bits,
    })
}

/// Adds the second signature's functions that the first lacks.
fn add_functions(joined: &mut Sig, a: &Sig, b: &Sig, places: &[Sort]) -> Result<(), AllocError>
    requires { AllByRecursion (λ d. AreSorts joined.old.sorts (map (moved_by places.now) d.args)
        × ((moved_by places.now d.result).0 < length joined.old.sorts)) b.now.functions }
    ensures { OnOk result (joined.new ≡ with_functions joined.old
        (map (function_by places.now) (new_functions a.now b.now.functions))) }
{
    for decl in b.functions() {
        if a.find(decl.name.as_str()).is_none() {
            let args = all_moved(a.alloc, places, decl.args.as_slice())?;
            let result = moved(places, decl.result);
            memory(joined.add_function(decl.name.as_str(), args.as_slice(), result))?;
        }
    }
    Ok(())
}

/// Adds the second signature's relations that the first lacks.
fn add_relations(joined: &mut Sig, a: &Sig, b: &Sig, places: &[Sort]) -> Result<(), AllocError>
    requires { AllByRecursion (λ d. AreSorts joined.old.sorts (map (moved_by places.now) d.args))
        b.now.relations }
    ensures { OnOk result (joined.new ≡ with_relations joined.old
        (map (relation_by places.now) (new_relations a.now b.now.relations))) }
{
    for decl in b.relations() {
        if a.find(decl.name.as_str()).is_none() {
            let args = all_moved(a.alloc, places, decl.args.as_slice())?;
            memory(joined.add_relation(decl.name.as_str(), args.as_slice()))?;
        }
    }
    Ok(())
}

/// Adds the second signature's disjoint pairs.
fn add_pairs(joined: &mut Sig, b: &Sig, places: &[Sort]) -> Result<(), AllocError>
    requires { AllByRecursion (λ pair. ((moved_by places.now pair.0).0 < length joined.old.sorts)
        × ((moved_by places.now pair.1).0 < length joined.old.sorts)) b.now.disjoint }
    ensures { OnOk result (joined.new ≡ with_pairs joined.old (map (pair_by places.now) b.now.disjoint)) }
{
    for pair in b.disjoint() {
        joined.push_disjoint(moved(places, pair.0), moved(places, pair.1))?;
    }
    Ok(())
}
