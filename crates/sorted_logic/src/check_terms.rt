//! The first fault of a term, and that of a list of arguments.

ghost use Rattle.std.specs.Prelude.{◌≡◌, ◌==◌, length, option_map};
ghost use Rattle.std.specs.Option.{option_or};
ghost use Rattle.std.specs.Result.{result_err};
ghost use Rattle.sorted_logic.specs.declared.fault.SortFault.TheVariants as sort_fault;
ghost use Rattle.sorted_logic.specs.Inside.Fitting.{fits_by};
ghost use Rattle.sorted_logic.specs.Sorting.{sort_of, one_root, unless, chain_length, misfit, term_fault, arguments_fault};
ghost use Rattle.sorted_logic.specs.Trees.{term_tree, terms_chain};

use crate::fault::SortFault;
use crate::signature::Sig;
use crate::sort_scope::SortScope;
use crate::term::{Sort, Term};
use sqlite_items::at;

/// How the sort of an argument has to stand to the required one.
#[derive(Clone, Copy, Drop)]
pub(crate) enum Fit {
    /// It is the required one, or lies below it.
    Below,
    /// It lies under the same root.
    OneRoot,
}

/// Whether two sorts lie under one root.
pub(crate) fn have_one_root(sig: &Sig, s: Sort, t: Sort) -> bool
    ensures { result ≡ one_root sig.now s.0 t.0 }
{
    sig.root(s) == sig.root(t)
}

fn fits(sig: &Sig, fit: Fit, s: Sort, required: Sort) -> bool
    ensures { result ≡ fits_by sig.now fit s.0 required.0 }
{
    match fit {
        Fit::Below => sig.below(s, required),
        Fit::OneRoot => have_one_root(sig, s, required),
    }
}

/// The declared sort of a term.
#[tactic(auto, using(crate::proofs::TreeEquations::term_trees))]
pub(crate) fn declared_sort(sig: &Sig, scope: &SortScope, t: &Term) -> Option<Sort>
    ensures { option_map (λ s. s.0) result
        ≡ sort_of sig.now scope.now (term_tree t.now) }
{
    match t {
        Term::Var(x) => scope.get(*x as u64),
        Term::Call(f, _) => match at(sig.functions(), f.0 as usize) {
            Some(decl) => Some(decl.result),
            None => None,
        },
    }
}

/// A term that has a sort has one that fits.
pub(crate) fn check_fit(
    sig: &Sig,
    scope: &SortScope,
    fit: Fit,
    t: &Term,
    required: Sort,
) -> Result<(), SortFault>
    ensures { result_err result ≡ misfit (fits_by sig.now fit)
        (sort_of sig.now scope.now (term_tree t.now)) required.0 }
{
    match declared_sort(sig, scope, t) {
        Some(s) => {
            if fits(sig, fit, s, required) {
                Ok(())
            } else {
                Err(SortFault::IllSorted)
            }
        }
        None => Ok(()),
    }
}

#[cycle(terms)]
#[tactic(auto, using(crate::proofs::TreeEquations::term_trees))]
pub(crate) fn check_term(sig: &Sig, scope: &SortScope, t: &Term) -> Result<(), SortFault>
    ensures { result_err result ≡ term_fault sig.now scope.now (term_tree t.now) }
{
    match t {
        Term::Var(x) => match scope.get(*x as u64) {
            Some(_) => Ok(()),
            None => Err(SortFault::Unknown),
        },
        Term::Call(f, args) => match at(sig.functions(), f.0 as usize) {
            Some(decl) => check_arguments(
                sig,
                scope,
                Fit::Below,
                decl.args.as_slice(),
                args.as_slice(),
            ),
            None => Err(SortFault::Unknown),
        },
    }
}

/// As many arguments as required, each of them without a fault.
#[cycle(terms)]
pub(crate) fn check_arguments(
    sig: &Sig,
    scope: &SortScope,
    fit: Fit,
    required: &[Sort],
    args: &[Term],
) -> Result<(), SortFault>
    ensures { result_err result ≡ option_or
        (unless (chain_length (terms_chain args.now) == length required.now) sort_fault.Arity)
        (arguments_fault sig.now scope.now (fits_by sig.now fit)
        required.now (terms_chain args.now)) }
{
    if args.len() != required.len() {
        return Err(SortFault::Arity);
    }
    for (i, t) in args.iter().enumerate() {
        check_fit(sig, scope, fit, t, required[i])?;
        check_term(sig, scope, t)?;
    }
    Ok(())
}
