//! Copies of terms, formulas and declarations.

ghost use Rattle.std.specs.Prelude.{◌≡◌, IfOk};

use crate::declarations::{FuncDecl, RelDecl, SortDecl};
use crate::formula::Formula;
use crate::term::{Sort, Term};
use sqlite_items::{Boxed, Items};
use std::alloc::{AllocError, Global};

impl Term {
    /// The same term once more.
    #[cycle(copy_term)]
    pub fn copy(&self, alloc: Global) -> Result<Term, AllocError>
        ensures { IfOk result (λ term. term ≡ self.now) }
    {
        match self {
            Term::Var(number) => Ok(Term::Var(*number)),
            Term::Call(function, args) => {
                Ok(Term::Call(*function, copy_terms(alloc, args.as_slice())?))
            }
        }
    }
}

#[cycle(copy_term)]
fn copy_terms(alloc: Global, terms: &[Term]) -> Result<Items<Term>, AllocError>
    ensures { IfOk result (λ copies. copies ≡ terms.now) }
{
    let mut copies = Items::new(alloc);
    for term in terms {
        copies.push(term.copy(alloc)?)?;
    }
    Ok(copies)
}

impl Formula {
    /// The same formula once more.
    #[cycle(copy_formula)]
    pub fn copy(&self, alloc: Global) -> Result<Formula, AllocError>
        ensures { IfOk result (λ formula. formula ≡ self.now) }
    {
        Ok(match self {
            Formula::True => Formula::True,
            Formula::False => Formula::False,
            Formula::Not(body) => Formula::Not(copy_boxed(alloc, body.get())?),
            Formula::And(parts) => Formula::And(copy_formulas(alloc, parts.as_slice())?),
            Formula::Or(parts) => Formula::Or(copy_formulas(alloc, parts.as_slice())?),
            Formula::Implies(left, right) => Formula::Implies(
                copy_boxed(alloc, left.get())?,
                copy_boxed(alloc, right.get())?,
            ),
            Formula::Iff(parts) => Formula::Iff(copy_formulas(alloc, parts.as_slice())?),
            Formula::Forall(sort, body) => Formula::Forall(*sort, copy_boxed(alloc, body.get())?),
            Formula::Exists(sort, body) => Formula::Exists(*sort, copy_boxed(alloc, body.get())?),
            Formula::Equal(left, right) => Formula::Equal(left.copy(alloc)?, right.copy(alloc)?),
            Formula::InSort(sort, term) => Formula::InSort(*sort, term.copy(alloc)?),
            Formula::Holds(relation, args) => {
                Formula::Holds(*relation, copy_terms(alloc, args.as_slice())?)
            }
            Formula::NumberTest(term, asked) => Formula::NumberTest(term.copy(alloc)?, *asked),
            Formula::Decides {
                policy,
                decision,
                args,
            } => Formula::Decides {
                policy: *policy,
                decision: *decision,
                args: copy_terms(alloc, args.as_slice())?,
            },
            Formula::RuleIs {
                policy,
                rule,
                applies,
                args,
            } => Formula::RuleIs {
                policy: *policy,
                rule: *rule,
                applies: *applies,
                args: copy_terms(alloc, args.as_slice())?,
            },
        })
    }
}

#[cycle(copy_formula)]
fn copy_boxed(alloc: Global, formula: &Formula) -> Result<Boxed<Formula>, AllocError>
    ensures { IfOk result (λ copy. copy ≡ formula.now) }
{
    Boxed::new(alloc, formula.copy(alloc)?)
}

#[cycle(copy_formula)]
fn copy_formulas(alloc: Global, formulas: &[Formula]) -> Result<Items<Formula>, AllocError>
    ensures { IfOk result (λ copies. copies ≡ formulas.now) }
{
    let mut copies = Items::new(alloc);
    for formula in formulas {
        copies.push(formula.copy(alloc)?)?;
    }
    Ok(copies)
}

impl SortDecl {
    /// The same declaration once more.
    pub fn copy(&self, alloc: Global) -> Result<SortDecl, AllocError>
        ensures { IfOk result (λ decl. decl ≡ self.now) }
    {
        Ok(SortDecl {
            name: self.name.copy(alloc)?,
            under: self.under,
            bits: self.bits,
        })
    }
}

impl FuncDecl {
    /// The same declaration once more.
    pub fn copy(&self, alloc: Global) -> Result<FuncDecl, AllocError>
        ensures { IfOk result (λ decl. decl ≡ self.now) }
    {
        Ok(FuncDecl {
            name: self.name.copy(alloc)?,
            args: copy_sorts(alloc, self.args.as_slice())?,
            result: self.result,
        })
    }
}

impl RelDecl {
    /// The same declaration once more.
    pub fn copy(&self, alloc: Global) -> Result<RelDecl, AllocError>
        ensures { IfOk result (λ decl. decl ≡ self.now) }
    {
        Ok(RelDecl {
            name: self.name.copy(alloc)?,
            args: copy_sorts(alloc, self.args.as_slice())?,
        })
    }
}

pub(crate) fn copy_sorts(alloc: Global, sorts: &[Sort]) -> Result<Items<Sort>, AllocError>
    ensures { IfOk result (λ copies. copies ≡ sorts.now) }
{
    Items::from_slice(alloc, sorts)
}
