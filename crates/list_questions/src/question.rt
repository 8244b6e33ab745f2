ghost use Rattle.std.specs.Prelude.{◌≡◌, IfOk, IfSome, IfNone};
ghost use Rattle.query_lang.specs.declared.formula.Named.TheVariants as named;
ghost use Rattle.list_questions.specs.Questions.{Asks, AsksNone, IsAsked};
ghost use Rattle.list_questions.specs.Shapes.{IsNoAtom, IsNoQuestion};

use crate::NoMemory;
use crate::atom::{ListAtom, list_atom};
use crate::field_test::{FieldTest, tests_of};
use ios_acl::Verdict;
use query_lang::{Explore, Named};
use sorted_logic::Text;
use sqlite_items::Items;
use std::alloc::Global;

/// Which requests a list of a router decides so, of those whose packet comes in as the tests say.
#[derive(Debug, Drop)]
pub struct ListQuestion {
    pub router: Text,
    pub list: Text,
    pub verdict: Verdict,
    pub tests: Items<FieldTest>,
}

/// The question about a list that the EXPLORE asks, where it asks one.
pub fn question_of(alloc: Global, explore: &Explore) -> Result<Option<ListQuestion>, NoMemory>
    ensures found { IfOk result (λ found. IfSome found (IsAsked explore.now)) }
    ensures none { IfOk result (λ found. IfNone found (AsksNone explore.now)) }
{
    if !explore.vars.is_empty() || !explore.under.is_empty() || !explore.include.is_empty() {
        return Ok(None);
    }
    asked(alloc, &explore.formula)
}

/// The question that the formula asks.
#[tactic(auto, using(crate::proofs::QuestionShapes::asks_no_shape))]
fn asked(alloc: Global, formula: &Named) -> Result<Option<ListQuestion>, NoMemory>
    ensures found { IfOk result (λ found. IfSome found (Asks formula.now)) }
    ensures none { IfOk result (λ found. IfNone found (IsNoQuestion formula.now)) }
{
    match formula {
        Named::And(parts) => asked_with_tests(alloc, parts.as_slice()),
        _ => asked_alone(alloc, formula),
    }
}

/// The question that the formula asks where it has no tests.
#[tactic(auto, using(crate::proofs::QuestionShapes::asks_alone))]
fn asked_alone(alloc: Global, formula: &Named) -> Result<Option<ListQuestion>, NoMemory>
    ensures found { IfOk result (λ found. IfSome found (Asks formula.now)) }
    ensures none { IfOk result (λ found. IfNone found (IsNoAtom formula.now)) }
{
    let Some(atom) = list_atom(formula) else {
        return Ok(None);
    };
    Ok(Some(question(alloc, atom, Items::new(alloc))?))
}

/// The question that a conjunction of these parts asks.
fn asked_with_tests(alloc: Global, parts: &[Named]) -> Result<Option<ListQuestion>, NoMemory>
    ensures found { IfOk result (λ found. IfSome found (Asks (named.And parts.now))) }
    ensures none { IfOk result (λ found. IfNone found (IsNoQuestion (named.And parts.now))) }
{
    let Some((first, others)) = parts.split_first() else {
        return Ok(None);
    };
    let Some(atom) = list_atom(first) else {
        return Ok(None);
    };
    let Some(tests) = tests_of(alloc, others)? else {
        return Ok(None);
    };
    if tests.is_empty() {
        return Ok(None);
    }
    Ok(Some(question(alloc, atom, tests)?))
}

fn question(
    alloc: Global,
    atom: ListAtom,
    tests: Items<FieldTest>,
) -> Result<ListQuestion, NoMemory>
    ensures { IfOk result (λ made. made ≡ record {
      router = atom.entry.router.now;
      list = atom.entry.list.now;
      verdict = atom.entry.verdict;
      tests = tests;
    }) }
{
    Ok(ListQuestion {
        router: atom.router.copy(alloc)?,
        list: atom.list.copy(alloc)?,
        verdict: atom.verdict,
        tests,
    })
}
