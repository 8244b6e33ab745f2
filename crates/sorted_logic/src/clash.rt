//! Names that two signatures declare in different ways.

ghost use Rattle.std.specs.Prelude.{◌≡◌};
ghost use Rattle.std.specs.List.{list_any};
ghost use Rattle.sorted_logic.specs.Adding.{symbol_of};
ghost use Rattle.sorted_logic.specs.Joining.{alike_sorts, alike_functions, alike_relations, sort_clashes, function_clashes, relation_clashes, clash, same_names, sort_name, sort_names};

use crate::declarations::{FuncDecl, RelDecl, SortDecl, Symbol};
use crate::signature::Sig;
use crate::term::Sort;

/// Whether some name is declared in both, and not alike.
pub(crate) fn clashes(a: &Sig, b: &Sig) -> bool
    ensures { result ≡ clash a.now b.now }
{
    sorts_clash(a, b) || functions_clash(a, b) || relations_clash(a, b)
}

fn sorts_clash(a: &Sig, b: &Sig) -> bool
    ensures { result ≡ list_any (λ d. sort_clashes a.now b.now d (symbol_of a.now d.name)) b.now.sorts }
{
    for decl in b.sorts() {
        if sort_clashes(a, b, decl) {
            return true;
        }
    }
    false
}

fn functions_clash(a: &Sig, b: &Sig) -> bool
    ensures { result
        ≡ list_any (λ d. function_clashes a.now b.now d (symbol_of a.now d.name)) b.now.functions }
{
    for decl in b.functions() {
        if function_clashes(a, b, decl) {
            return true;
        }
    }
    false
}

fn relations_clash(a: &Sig, b: &Sig) -> bool
    ensures { result
        ≡ list_any (λ d. relation_clashes a.now b.now d (symbol_of a.now d.name)) b.now.relations }
{
    for decl in b.relations() {
        if relation_clashes(a, b, decl) {
            return true;
        }
    }
    false
}

fn sort_clashes(a: &Sig, b: &Sig, decl: &SortDecl) -> bool
    ensures { result ≡ sort_clashes a.now b.now decl.now (symbol_of a.now decl.now.name) }
{
    match a.find(decl.name.as_str()) {
        Some(Symbol::Sort(sort)) => match a.sorts().get(sort.0 as usize) {
            Some(left) => !alike_sorts(a, b, left, decl),
            None => true,
        },
        Some(_) => true,
        None => false,
    }
}

fn function_clashes(a: &Sig, b: &Sig, decl: &FuncDecl) -> bool
    ensures { result ≡ function_clashes a.now b.now decl.now (symbol_of a.now decl.now.name) }
{
    match a.find(decl.name.as_str()) {
        Some(Symbol::Func(function)) => match a.functions().get(function.0 as usize) {
            Some(left) => !alike_functions(a, b, left, decl),
            None => true,
        },
        Some(_) => true,
        None => false,
    }
}

fn relation_clashes(a: &Sig, b: &Sig, decl: &RelDecl) -> bool
    ensures { result ≡ relation_clashes a.now b.now decl.now (symbol_of a.now decl.now.name) }
{
    match a.find(decl.name.as_str()) {
        Some(Symbol::Rel(relation)) => match a.relations().get(relation.0 as usize) {
            Some(left) => !alike_relations(a, b, left, decl),
            None => true,
        },
        Some(_) => true,
        None => false,
    }
}

fn alike_sorts(a: &Sig, b: &Sig, left: &SortDecl, right: &SortDecl) -> bool
    ensures { result ≡ alike_sorts a.now b.now left.now right.now }
{
    let same_supersort = match (left.under, right.under) {
        (Some(above), Some(other)) => sort_name(a, above) == sort_name(b, other),
        (None, None) => true,
        _ => false,
    };
    let same_bits = match (left.bits, right.bits) {
        (Some(bits), Some(other)) => bits == other,
        (None, None) => true,
        _ => false,
    };
    same_supersort && same_bits
}

fn alike_functions(a: &Sig, b: &Sig, left: &FuncDecl, right: &FuncDecl) -> bool
    ensures { result ≡ alike_functions a.now b.now left.now right.now }
{
    same_sort_names(a, left.args.as_slice(), b, right.args.as_slice())
        && sort_name(a, left.result) == sort_name(b, right.result)
}

fn alike_relations(a: &Sig, b: &Sig, left: &RelDecl, right: &RelDecl) -> bool
    ensures { result ≡ alike_relations a.now b.now left.now right.now }
{
    same_sort_names(a, left.args.as_slice(), b, right.args.as_slice())
}

/// Whether the sorts of one signature have the names of those of another, one by one.
fn same_sort_names(a: &Sig, left: &[Sort], b: &Sig, right: &[Sort]) -> bool
    ensures { result ≡ same_names (sort_names a.now left.now) (sort_names b.now right.now) }
{
    if left.len() != right.len() {
        return false;
    }
    for place in 0..left.len() {
        if sort_name(a, left[place]) != sort_name(b, right[place]) {
            return false;
        }
    }
    true
}

fn sort_name<'a>(sig: &'a Sig, sort: Sort) -> &'a [u8]
    ensures { result.now ≡ sort_name sig.now sort.0 }
{
    match sig.sorts().get(sort.0 as usize) {
        Some(decl) => decl.name.bytes(),
        None => &[],
    }
}
