ghost use Rattle.std.specs.Prelude.{◌≡◌, ℕ, List, ◌+◌, ◌<◌, ◌≤◌, ◌*◌, IfOk, IfErr, length, drop, [], ◌∷◌};
ghost use Rattle.query_lang.specs.Machine.Due.{Due, State};
ghost use Rattle.query_lang.specs.Machine.Going.{Found, Stopped, IsLater, IsNoEarlier};
ghost use Rattle.query_lang.specs.Machine.Steps as steps;

use crate::formula::Named;
use crate::read::ahead::{name, past_sign, past_word, sign};
use crate::read::atoms::atom;
use crate::read::formulas::equivalence;
use crate::read::stop::Stop;
use crate::read::variables::variable;
use crate::script::Explore;
use query_tokens::{Keyword, Placed, Sign};
use sorted_logic::Text;
use sqlite_items::Items;
use std::alloc::Global;

/// The variables behind the first, and the closing bracket.
#[tactic(auto, using(crate::proofs::Explores::vars_begin, crate::proofs::Explores::vars_more, crate::proofs::Explores::vars_stop0, crate::proofs::Explores::vars_end, crate::proofs::Explores::vars_unended))]
fn more_variables(
    alloc: Global,
    tokens: &[Placed],
    at: usize,
    first: (Text, Text),
) -> Result<(Items<(Text, Text)>, usize), Stop>
    requires { at ≤ length tokens.now }
    ensures read { IfOk result
        (Found (List (List ℕ × List ℕ)) (State.want (Due.more_vars (first ∷ []))) tokens.now at) }
    ensures next { IfOk result (IsLater tokens.now at) }
    ensures refused { IfErr result
        (Stopped (List (List ℕ × List ℕ)) (State.want (Due.more_vars (first ∷ []))) tokens.now at) }
{
    let mut parts = Items::new(alloc);
    parts.push(first)?;
    let mut place = at;
    while let Some(behind) = past_sign(tokens, place, Sign::Comma) {
        let (part, next) = variable(alloc, tokens, behind)?;
        parts.push(part)?;
        place = next;
    }
    let end = sign(tokens, place, Sign::CloseBracket)?;
    Ok((parts, end))
}

/// Declared variables in brackets, if a bracket is opened.
#[tactic(auto, using(crate::proofs::Explores::declared_read, crate::proofs::Explores::declared_stops0, crate::proofs::Explores::declared_stops1, crate::proofs::Explores::declared_none))]
fn variables(
    alloc: Global,
    tokens: &[Placed],
    at: usize,
) -> Result<(Items<(Text, Text)>, usize), Stop>
    requires { at ≤ length tokens.now }
    ensures read { IfOk result
        (Found (List (List ℕ × List ℕ)) (State.want Due.vars) tokens.now at) }
    ensures next { IfOk result (IsNoEarlier tokens.now at) }
    ensures refused { IfErr result
        (Stopped (List (List ℕ × List ℕ)) (State.want Due.vars) tokens.now at) }
{
    if let Some(behind) = past_sign(tokens, at, Sign::OpenBracket) {
        let (first, next) = variable(alloc, tokens, behind)?;
        let (all, end) = more_variables(alloc, tokens, next, first)?;
        return Ok((all, end));
    }
    Ok((Items::new(alloc), at))
}

/// The names behind the first.
#[tactic(auto, using(crate::proofs::Explores::names_begin, crate::proofs::Explores::names_more, crate::proofs::Explores::names_stop0, crate::proofs::Explores::names_done))]
fn more_names(
    alloc: Global,
    tokens: &[Placed],
    at: usize,
    first: Text,
) -> Result<(Items<Text>, usize), Stop>
    requires { at ≤ length tokens.now }
    ensures read { IfOk result
        (Found (List (List ℕ)) (State.want (Due.more_names (first ∷ []))) tokens.now at) }
    ensures next { IfOk result (IsNoEarlier tokens.now at) }
    ensures refused { IfErr result
        (Stopped (List (List ℕ)) (State.want (Due.more_names (first ∷ []))) tokens.now at) }
{
    let mut parts = Items::new(alloc);
    parts.push(first)?;
    let mut place = at;
    while let Some(behind) = past_sign(tokens, place, Sign::Comma) {
        let (part, next) = name(alloc, tokens, behind)?;
        parts.push(part)?;
        place = next;
    }
    Ok((parts, place))
}

/// The names behind UNDER, if it stands there.
#[tactic(auto, using(crate::proofs::Explores::under_read, crate::proofs::Explores::under_stops0, crate::proofs::Explores::under_stops1, crate::proofs::Explores::under_none))]
fn under(alloc: Global, tokens: &[Placed], at: usize) -> Result<(Items<Text>, usize), Stop>
    requires { at ≤ length tokens.now }
    ensures read { IfOk result (Found (List (List ℕ)) (State.want Due.under) tokens.now at) }
    ensures next { IfOk result (IsNoEarlier tokens.now at) }
    ensures refused { IfErr result (Stopped (List (List ℕ)) (State.want Due.under) tokens.now at) }
{
    if let Some(behind) = past_word(tokens, at, Keyword::Under) {
        let (first, next) = name(alloc, tokens, behind)?;
        let (all, end) = more_names(alloc, tokens, next, first)?;
        return Ok((all, end));
    }
    Ok((Items::new(alloc), at))
}

/// The atoms behind the first.
#[tactic(auto, using(crate::proofs::Explores::atoms_begin, crate::proofs::Explores::atoms_more, crate::proofs::Explores::atoms_stop0, crate::proofs::Explores::atoms_done))]
fn more_atoms(
    alloc: Global,
    tokens: &[Placed],
    at: usize,
    first: Named,
) -> Result<(Items<Named>, usize), Stop>
    requires { at ≤ length tokens.now }
    ensures read { IfOk result
        (Found (List Named) (State.want (Due.more_atoms (first ∷ []))) tokens.now at) }
    ensures next { IfOk result (IsNoEarlier tokens.now at) }
    ensures refused { IfErr result
        (Stopped (List Named) (State.want (Due.more_atoms (first ∷ []))) tokens.now at) }
{
    let mut parts = Items::new(alloc);
    parts.push(first)?;
    let mut place = at;
    while let Some(behind) = past_sign(tokens, place, Sign::Comma) {
        let (part, next) = atom(alloc, tokens, behind, 0)?;
        parts.push(part)?;
        place = next;
    }
    Ok((parts, place))
}

/// The atoms behind INCLUDE, if it stands there.
#[tactic(auto, using(crate::proofs::Explores::include_read, crate::proofs::Explores::include_stops0, crate::proofs::Explores::include_stops1, crate::proofs::Explores::include_none))]
fn include(alloc: Global, tokens: &[Placed], at: usize) -> Result<(Items<Named>, usize), Stop>
    requires { at ≤ length tokens.now }
    ensures read { IfOk result (Found (List Named) (State.want Due.include) tokens.now at) }
    ensures next { IfOk result (IsNoEarlier tokens.now at) }
    ensures refused { IfErr result (Stopped (List Named) (State.want Due.include) tokens.now at) }
{
    if let Some(behind) = past_word(tokens, at, Keyword::Include) {
        let (first, next) = atom(alloc, tokens, behind, 0)?;
        let (all, end) = more_atoms(alloc, tokens, next, first)?;
        return Ok((all, end));
    }
    Ok((Items::new(alloc), at))
}

/// What a question is asked under, and the atoms that are shown beside.
#[tactic(auto, using(crate::proofs::Explores::shown_read, crate::proofs::Explores::shown_stops0, crate::proofs::Explores::shown_stops1))]
fn shown(
    alloc: Global,
    tokens: &[Placed],
    at: usize,
) -> Result<((Items<Text>, Items<Named>), usize), Stop>
    requires { at ≤ length tokens.now }
    ensures read { IfOk result (Found (List (List ℕ) × List Named) steps.shown tokens.now at) }
    ensures next { IfOk result (IsNoEarlier tokens.now at) }
    ensures refused { IfErr result
        (Stopped (List (List ℕ) × List Named) steps.shown tokens.now at) }
{
    let (names, next) = under(alloc, tokens, at)?;
    let (atoms, end) = include(alloc, tokens, next)?;
    Ok(((names, atoms), end))
}

/// A question behind EXPLORE.
#[tactic(auto, using(crate::proofs::Explores::explore_read, crate::proofs::Explores::explore_stops0, crate::proofs::Explores::explore_stops1, crate::proofs::Explores::explore_stops2))]
pub fn explore(alloc: Global, tokens: &[Placed], at: usize) -> Result<(Explore, usize), Stop>
    requires { at ≤ length tokens.now }
    ensures read { IfOk result (Found Explore steps.explore tokens.now at) }
    ensures next { IfOk result (IsLater tokens.now at) }
    ensures refused { IfErr result (Stopped Explore steps.explore tokens.now at) }
{
    let (vars, next) = variables(alloc, tokens, at)?;
    let (formula, next) = equivalence(alloc, tokens, next, 0)?;
    match shown(alloc, tokens, next) {
        Ok(((under, include), end)) => {
            let explore = Explore {
                vars,
                formula,
                under,
                include,
            };
            Ok((explore, end))
        }
        Err(stop) => {
            // By a call, since a drop in place is proved kind by kind.
            drop(formula);
            Err(stop)
        }
    }
}
