ghost use Rattle.std.specs.Prelude.{◌≡◌, ◌<◌, ℕ, List, Option, None, IsSome, IfOk, IfSome, IfNone, OnOk, IfErr};
ghost use Rattle.std.specs.List.{AllByRecursion, list_all};
ghost use Rattle.frame.specs.Question.{IsOfPacket as IsAskable, asked};
ghost use Rattle.frame.specs.Scenario.{IsFirst, request_of};
ghost use Rattle.frame.specs.Solution.{HasNoSolution};
ghost use Rattle.list_questions.specs.Ranges.{test_fits};
ghost use Rattle.mg_outside.specs.Effects.{Performs};
ghost use Rattle.mg_outside.specs.Logs.{FileLog};
ghost use Rattle.query_lang.specs.declared.script.Kind.TheVariants as kind;
ghost use Rattle.session.specs.Endings.{IsCarriedOut};
ghost use Rattle.session.specs.Kept.{posed};
ghost use Rattle.session.specs.Policies.{explore_fault};
ghost use Rattle.session.specs.Run.{EndsAt, IsCutShort};
ghost use Rattle.session.specs.Steps.{IsShown};

use crate::ended::{Cause, Reason};
use crate::endings::{Line, refuse_line, write};
use crate::state::{Question, State};
use crate::text::{no_scenario_text, scenario_text};
use ios_acl::Packet;
use list_questions::{FieldTest, first_packet, fits, question_of, tests_of};
use mg_outside::Sink;
use query_lang::Explore;
use sat_core::Steps;
use std::alloc::{AllocError, Global};
use std::marker::Brand;
use std::sync::ledger::{Blank, Ledger};

/// EXPLORE: keeps the question, where its policies are known, it is about a list, and its numbers fit.
pub fn explore<S: Sink>(
    alloc: Global,
    at: &Line<'_>,
    explore: &Explore,
    state: &mut State,
    out: &mut S,
) -> Result<(), Cause>
    ensures carried { (told : List ℕ → Option (List ℕ)) (files : FileLog) → OnOk result
        (IsCarriedOut told state.old (kind.Explore explore.now) state.new
        files files (S.log out.old) (S.log out.new)) }
    ensures stopped { (told : List ℕ → Option (List ℕ)) (files : FileLog) → IfErr result
        (Performs (EndsAt IsCutShort at.now.script.now told at.now.number
        state.old (kind.Explore explore.now)) files files (S.log out.old) (S.log out.new)) }
{
    match state.fault_of(alloc, explore) {
        Ok(None) => explore_known(alloc, at, explore, state, out),
        Ok(Some(reason)) => Err(refuse_line(alloc, at, reason, out)),
        Err(_) => Err(Cause::NoMemory),
    }
}

/// EXPLORE, where each policy that it names is known.
fn explore_known<S: Sink>(
    alloc: Global,
    at: &Line<'_>,
    explore: &Explore,
    state: &mut State,
    out: &mut S,
) -> Result<(), Cause>
    requires { explore_fault state.old.library explore.now ≡ None }
    ensures carried { (told : List ℕ → Option (List ℕ)) (files : FileLog) → OnOk result
        (IsCarriedOut told state.old (kind.Explore explore.now) state.new
        files files (S.log out.old) (S.log out.new)) }
    ensures stopped { (told : List ℕ → Option (List ℕ)) (files : FileLog) → IfErr result
        (Performs (EndsAt IsCutShort at.now.script.now told at.now.number
        state.old (kind.Explore explore.now)) files files (S.log out.old) (S.log out.new)) }
{
    let question = match question_of(alloc, explore) {
        Ok(Some(question)) => question,
        Ok(None) => return Err(refuse_line(alloc, at, Reason::NotBuilt, out)),
        Err(_) => return Err(Cause::NoMemory),
    };
    if !all_fit(question.tests.as_slice()) {
        return Err(refuse_line(alloc, at, Reason::OutOfRange, out));
    }
    let Ok(tests) = tests_of(alloc, question.tests.as_slice()) else {
        return Err(Cause::NoMemory);
    };
    let Some(place) = state.place_of(question.router.as_str(), question.list.as_str()) else {
        unreachable!();
    };
    state.ask(place, question.verdict, tests);
    Ok(())
}

/// Whether the numbers of all tests fit their fields.
fn all_fit(tests: &[FieldTest]) -> bool
    ensures { result ≡ list_all test_fits tests.now }
{
    for test in tests {
        if !fits(test) {
            return false;
        }
    }
    true
}

/// SHOW ONE: the first scenario of the question of the last EXPLORE.
pub fn show<S: Sink>(alloc: Global, state: &State, out: &mut S) -> Result<(), Cause>
    requires { IsSome state.now.question }
    ensures carried { (told : List ℕ → Option (List ℕ)) (files : FileLog) → OnOk result
        (IsCarriedOut told state.now kind.ShowOne state.now
        files files (S.log out.old) (S.log out.new)) }
    ensures stopped { (script : List ℕ) (told : List ℕ → Option (List ℕ)) (line : ℕ)
        (files : FileLog) → IfErr result (Performs
        (EndsAt IsCutShort script told line state.now kind.ShowOne)
        files files (S.log out.old) (S.log out.new)) }
{
    let Some(question) = state.question() else {
        unreachable!();
    };
    let Ok(text) = shown_text(alloc, &question) else {
        return Err(Cause::NoMemory);
    };
    write(out, text.as_slice())
}

/// The text of the first scenario, or that there is none.
fn shown_text(alloc: Global, question: &Question<'_>) -> Result<Vec<u8>, AllocError>
    requires { AllByRecursion IsAskable question.now.tests.now }
    ensures { IfOk result (λ text. IsShown
        (posed question.now.entries.now question.now.verdict question.now.tests.now
        question.now.names) text.items) }
{
    let first = first_of::<Brand>(alloc, question, Blank::new(1))?;
    match first {
        Some(packet) => scenario_text(alloc, &question.names, &packet, question.tests),
        None => Vec::from_slice(alloc, no_scenario_text().as_bytes()),
    }
}

/// The packet of the first scenario, by one search, which is counted by a counter of its own.
fn first_of<L: Ledger>(
    alloc: Global,
    question: &Question<'_>,
    blank: Blank,
) -> Result<Option<Packet>, AllocError>
    requires name { blank.name ≡ L.name }
    requires parts { blank.parts ≡ L.parts }
    requires some { 0 < blank.parts }
    requires tests { AllByRecursion IsAskable question.now.tests.now }
    ensures found { IfOk result (λ answer. IfSome answer (λ packet. IsFirst
        (asked question.now.entries.now question.now.verdict question.now.tests.now)
        (request_of packet))) }
    ensures none { IfOk result (λ answer. IfNone answer (HasNoSolution
        (asked question.now.entries.now question.now.verdict question.now.tests.now))) }
{
    let mut steps = Steps::<L>::begin(blank);
    first_packet(
        alloc,
        question.entries,
        question.verdict,
        question.tests,
        &mut steps,
    )
}
