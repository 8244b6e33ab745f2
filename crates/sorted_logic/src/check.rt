//! The first fault of a formula's sorts.

ghost use Rattle.std.specs.Prelude.{◌≡◌, ◌^◌, IfOk, nat_lt, map};
ghost use Rattle.std.specs.Result.{result_err};
ghost use Rattle.sorted_logic.specs.Sorting.{IsWellSorted, is_in_range, sort_fault_of, first_fault};
ghost use Rattle.sorted_logic.specs.Syntax.{same, in_sort, related, number_test, for_all};
ghost use Rattle.sorted_logic.specs.Trees.{term_tree, terms_chain, conjunction, formula_tree};

use crate::check_terms::{
    Fit, check_arguments, check_fit, check_term, declared_sort, have_one_root,
};
use crate::fault::SortFault;
use crate::formula::{Formula, Test};
use crate::signature::Sig;
use crate::sort_scope::{SortBlock, SortRow, SortScope};
use crate::term::{Rel, Sort, Term};
use sqlite_items::at;

/// Tells the first fault of a formula, from the left, and of two at one place the outer. The free variables have these sorts.
pub fn check_sorts(sig: &Sig, vars: &[Sort], f: &Formula) -> Result<(), SortFault>
    ensures fault { result_err result ≡ first_fault sig.now vars.now (formula_tree f.now) }
    ensures sorted { IfOk result (λ _. IsWellSorted sig.now vars.now (formula_tree f.now)) }
{
    let row = SortRow::Given(vars);
    check_formula(sig, &SortScope { row: &row }, f)
}

#[cycle(formulas)]
#[tactic(auto, using(crate::proofs::TreeEquations::formula_trees))]
fn check_formula(sig: &Sig, scope: &SortScope, f: &Formula) -> Result<(), SortFault>
    ensures { result_err result ≡ first_fault sig.now scope.now (formula_tree f.now) }
{
    match f {
        Formula::True | Formula::False => Ok(()),
        Formula::Not(body) => check_formula(sig, scope, body.get()),
        Formula::And(parts) | Formula::Or(parts) | Formula::Iff(parts) => {
            check_parts(sig, scope, parts.as_slice())
        }
        Formula::Implies(left, right) => {
            check_formula(sig, scope, left.get())?;
            check_formula(sig, scope, right.get())
        }
        Formula::Forall(s, body) | Formula::Exists(s, body) => {
            check_bound(sig, scope, *s, body.get())
        }
        Formula::Equal(left, right) => check_equality(sig, scope, left, right),
        Formula::InSort(s, of) => check_membership(sig, scope, *s, of),
        Formula::Holds(r, args) => check_relation(sig, scope, *r, args.as_slice()),
        Formula::NumberTest(of, test) => check_number_test(sig, scope, of, *test),
        Formula::Decides { .. } | Formula::RuleIs { .. } => Err(SortFault::Unknown),
    }
}

#[cycle(formulas)]
fn check_parts(sig: &Sig, scope: &SortScope, parts: &[Formula]) -> Result<(), SortFault>
    ensures { result_err result
        ≡ first_fault sig.now scope.now (conjunction (map formula_tree parts.now)) }
{
    for f in parts {
        check_formula(sig, scope, f)?;
    }
    Ok(())
}

/// A quantifier's sort, and then its body, where the next variable has this sort.
#[cycle(formulas)]
fn check_bound(sig: &Sig, scope: &SortScope, s: Sort, body: &Formula) -> Result<(), SortFault>
    ensures { result_err result
        ≡ first_fault sig.now scope.now (for_all s.0 (formula_tree body.now)) }
{
    check_sort(sig, s)?;
    match scope.last_two() {
        Some(two) => {
            let block = SortBlock::Two(two.earlier, two.later, s);
            let row = SortRow::More(two.before, &block, two.size * 2 + 1);
            check_formula(sig, &SortScope { row: &row }, body)
        }
        None => {
            let block = SortBlock::One(s);
            let row = SortRow::More(scope.row, &block, 1);
            check_formula(sig, &SortScope { row: &row }, body)
        }
    }
}

fn check_sort(sig: &Sig, s: Sort) -> Result<(), SortFault>
    ensures { result_err result ≡ sort_fault_of sig.now s.0 }
{
    if s.0 < sig.sorts().len() as u64 {
        Ok(())
    } else {
        Err(SortFault::Unknown)
    }
}

fn check_equality(sig: &Sig, scope: &SortScope, left: &Term, right: &Term) -> Result<(), SortFault>
    ensures { result_err result
        ≡ first_fault sig.now scope.now (same (term_tree left.now) (term_tree right.now)) }
{
    if let (Some(s), Some(t)) = (
        declared_sort(sig, scope, left),
        declared_sort(sig, scope, right),
    ) {
        if !have_one_root(sig, s, t) {
            return Err(SortFault::Incomparable);
        }
    }
    check_term(sig, scope, left)?;
    check_term(sig, scope, right)
}

fn check_membership(sig: &Sig, scope: &SortScope, s: Sort, of: &Term) -> Result<(), SortFault>
    ensures { result_err result
        ≡ first_fault sig.now scope.now (in_sort s.0 (term_tree of.now)) }
{
    check_sort(sig, s)?;
    check_fit(sig, scope, Fit::OneRoot, of, s)?;
    check_term(sig, scope, of)
}

fn check_relation(sig: &Sig, scope: &SortScope, r: Rel, args: &[Term]) -> Result<(), SortFault>
    ensures { result_err result
        ≡ first_fault sig.now scope.now (related r.0 (terms_chain args.now)) }
{
    match at(sig.relations(), r.0 as usize) {
        Some(decl) => check_arguments(sig, scope, Fit::OneRoot, decl.args.as_slice(), args),
        None => Err(SortFault::Unknown),
    }
}

/// A number test stands on a term whose sort has numbers, and within their bits.
fn check_number_test(sig: &Sig, scope: &SortScope, of: &Term, test: Test) -> Result<(), SortFault>
    ensures { result_err result
        ≡ first_fault sig.now scope.now (number_test (term_tree of.now) test) }
{
    match declared_sort(sig, scope, of) {
        Some(s) => match sig.bits(s) {
            Some(bits) => {
                check_term(sig, scope, of)?;
                if is_in_range(test, bits) {
                    Ok(())
                } else {
                    Err(SortFault::OutOfRange)
                }
            }
            None => Err(SortFault::IllSorted),
        },
        None => check_term(sig, scope, of),
    }
}

/// Whether the numbers of a test have so many bits, and a range does not end before it begins.
fn is_in_range(test: Test, bits: u8) -> bool
    ensures { result ≡ is_in_range test bits }
{
    match test {
        Test::Masked { value, wildcard } => has_bits(value, bits) && has_bits(wildcard, bits),
        Test::Range { low, high } => has_bits(high, bits) && low <= high,
    }
}

fn has_bits(number: u128, bits: u8) -> bool
    ensures { result ≡ nat_lt number (2 ^ bits) }
{
    bits >= 128 || number < 1u128 << bits
}
