ghost use Rattle.std.specs.Prelude.{◌≡◌, ℕ, List, ◌+◌, ◌<◌, ◌≤◌, ◌*◌, IfOk, IfErr, length, drop, [], ◌∷◌, true};
ghost use Rattle.query_lang.specs.Machine.Due.{Due, State};
ghost use Rattle.query_lang.specs.Machine.Going.{Found, Stopped, IsLater, IsNoEarlier, StartsAt};
ghost use Rattle.query_tokens.specs.declared.token.Token.TheVariants as token;
ghost use Rattle.query_lang.specs.Machine.Steps as steps;
ghost use Rattle.query_lang.specs.Formulas as specs;

use crate::formula::Named;
use crate::read::ahead::{any_word, past_sign, past_word, sign};
use crate::read::atoms::atom;
use crate::read::stop::Stop;
use crate::read::variables::variable;
use crate::script::ScriptReason;
use query_tokens::{Keyword, Placed, Sign};
use sorted_logic::Text;
use sqlite_items::{Boxed, Items};
use std::alloc::Global;

/// Parts joined by AND are one list, and a part alone stands for itself.
fn join_conjunction(parts: Items<Named>) -> Named
    ensures { result ≡ specs.conjunction parts }
{
    let mut parts = parts;
    if parts.len() == 1 {
        match parts.pop() {
            Some(part) => part,
            None => Named::And(parts),
        }
    } else {
        Named::And(parts)
    }
}

/// Parts joined by OR are one list, and a part alone stands for itself.
fn join_disjunction(parts: Items<Named>) -> Named
    ensures { result ≡ specs.disjunction parts }
{
    let mut parts = parts;
    if parts.len() == 1 {
        match parts.pop() {
            Some(part) => part,
            None => Named::Or(parts),
        }
    } else {
        Named::Or(parts)
    }
}

/// Parts joined by IFF are one list, and a part alone stands for itself.
fn join_equivalence(parts: Items<Named>) -> Named
    ensures { result ≡ specs.equivalence parts }
{
    let mut parts = parts;
    if parts.len() == 1 {
        match parts.pop() {
            Some(part) => part,
            None => Named::Iff(parts),
        }
    } else {
        Named::Iff(parts)
    }
}

/// NOT and its body.
#[cycle(formula)]
#[tactic(auto, using(crate::proofs::Formulas::not_deep, crate::proofs::Formulas::not_read, crate::proofs::Formulas::not_stops))]
fn negation(
    alloc: Global,
    tokens: &[Placed],
    at: usize,
    behind: usize,
    level: u64,
) -> Result<(Named, usize), Stop>
    requires not { StartsAt (token.Keyword Keyword.Not) tokens.now at behind }
    requires next { at < behind }
    requires within { behind ≤ length tokens.now }
    ensures read { IfOk result (Found Named (State.want (Due.unary level)) tokens.now at) }
    ensures next { IfOk result (IsLater tokens.now at) }
    ensures refused { IfErr result (Stopped Named (State.want (Due.unary level)) tokens.now at) }
{
    if level >= 64 {
        return Err(Stop::Refused(at, ScriptReason::Depth));
    }
    let (value, end) = unary(alloc, tokens, behind, level + 1)?;
    let body = Boxed::new(alloc, value)?;
    Ok((Named::Not(body), end))
}

/// The formula of a quantifier, by its word.
fn quantify(word: Keyword, name: Text, sort: Text, body: Boxed<Named>) -> Named
    ensures { result ≡ steps.quantify word name sort body }
{
    match word {
        Keyword::Exists => Named::Exists { name, sort, body },
        _ => Named::Forall { name, sort, body },
    }
}

/// FORALL or EXISTS, its variable and sort, and its body.
#[cycle(formula)]
#[tactic(auto, using(crate::proofs::Formulas::quantified_deep, crate::proofs::Formulas::quantified_read, crate::proofs::Formulas::quantified_stops0, crate::proofs::Formulas::quantified_stops1))]
fn quantified(
    alloc: Global,
    tokens: &[Placed],
    at: usize,
    behind: usize,
    level: u64,
    word: Keyword,
) -> Result<(Named, usize), Stop>
    requires quantifier { steps.is_quantifier word ≡ true }
    requires starts { StartsAt (token.Keyword word) tokens.now at behind }
    requires next { at < behind }
    requires within { behind ≤ length tokens.now }
    ensures read { IfOk result (Found Named (State.want (Due.unary level)) tokens.now at) }
    ensures next { IfOk result (IsLater tokens.now at) }
    ensures refused { IfErr result (Stopped Named (State.want (Due.unary level)) tokens.now at) }
{
    if level >= 64 {
        return Err(Stop::Refused(at, ScriptReason::Depth));
    }
    let ((name, sort), next) = variable(alloc, tokens, behind)?;
    let (value, end) = unary(alloc, tokens, next, level + 1)?;
    let body = Boxed::new(alloc, value)?;
    Ok((quantify(word, name, sort, body), end))
}

/// A formula in parentheses.
#[cycle(formula)]
#[tactic(auto, using(crate::proofs::Formulas::group_deep, crate::proofs::Formulas::group_read, crate::proofs::Formulas::group_stops0, crate::proofs::Formulas::group_stops1))]
fn group(
    alloc: Global,
    tokens: &[Placed],
    at: usize,
    behind: usize,
    level: u64,
) -> Result<(Named, usize), Stop>
    requires opens { StartsAt (token.Sign Sign.Open) tokens.now at behind }
    requires next { at < behind }
    requires within { behind ≤ length tokens.now }
    ensures read { IfOk result (Found Named (State.want (Due.unary level)) tokens.now at) }
    ensures next { IfOk result (IsLater tokens.now at) }
    ensures refused { IfErr result (Stopped Named (State.want (Due.unary level)) tokens.now at) }
{
    if level >= 64 {
        return Err(Stop::Refused(at, ScriptReason::Depth));
    }
    let (value, next) = equivalence(alloc, tokens, behind, level + 1)?;
    match sign(tokens, next, Sign::Close) {
        Ok(end) => Ok((value, end)),
        Err(stop) => {
            // By a call, since a drop in place is proved kind by kind.
            drop(value);
            Err(stop)
        }
    }
}

/// What begins with a keyword.
#[cycle(formula)]
#[tactic(auto, using(crate::proofs::Formulas::true_read, crate::proofs::Formulas::false_read, crate::proofs::Formulas::no_unary))]
fn unary_word(
    alloc: Global,
    tokens: &[Placed],
    at: usize,
    behind: usize,
    level: u64,
    word: Keyword,
) -> Result<(Named, usize), Stop>
    requires starts { StartsAt (token.Keyword word) tokens.now at behind }
    requires next { at < behind }
    requires within { behind ≤ length tokens.now }
    ensures read { IfOk result (Found Named (State.want (Due.unary level)) tokens.now at) }
    ensures next { IfOk result (IsLater tokens.now at) }
    ensures refused { IfErr result (Stopped Named (State.want (Due.unary level)) tokens.now at) }
{
    match word {
        Keyword::True => Ok((Named::True, behind)),
        Keyword::False => Ok((Named::False, behind)),
        Keyword::Not => negation(alloc, tokens, at, behind, level),
        Keyword::Forall => quantified(alloc, tokens, at, behind, level, word),
        Keyword::Exists => quantified(alloc, tokens, at, behind, level, word),
        _ => Err(Stop::Refused(at, ScriptReason::Syntax)),
    }
}

/// A part of a conjunction.
#[cycle(formula)]
#[tactic(auto, using(crate::proofs::Formulas::unary_atom, crate::proofs::Formulas::unary_atom_stops))]
fn unary(alloc: Global, tokens: &[Placed], at: usize, level: u64) -> Result<(Named, usize), Stop>
    ensures read { IfOk result (Found Named (State.want (Due.unary level)) tokens.now at) }
    ensures next { IfOk result (IsLater tokens.now at) }
    ensures refused { IfErr result (Stopped Named (State.want (Due.unary level)) tokens.now at) }
{
    if let Some((word, behind)) = any_word(tokens, at) {
        return unary_word(alloc, tokens, at, behind, level, word);
    }
    if let Some(behind) = past_sign(tokens, at, Sign::Open) {
        return group(alloc, tokens, at, behind, level);
    }
    let (value, end) = atom(alloc, tokens, at, level)?;
    Ok((value, end))
}

/// The parts behind the first, each behind AND.
#[cycle(formula)]
#[tactic(auto, using(crate::proofs::Formulas::more_and_begin, crate::proofs::Formulas::more_and_more, crate::proofs::Formulas::more_and_stop0, crate::proofs::Formulas::more_and_done))]
fn more_and(
    alloc: Global,
    tokens: &[Placed],
    at: usize,
    level: u64,
    first: Named,
) -> Result<(Named, usize), Stop>
    requires { at ≤ length tokens.now }
    ensures read { IfOk result
        (Found Named (State.want (Due.more_and level (first ∷ []))) tokens.now at) }
    ensures next { IfOk result (IsNoEarlier tokens.now at) }
    ensures refused { IfErr result
        (Stopped Named (State.want (Due.more_and level (first ∷ []))) tokens.now at) }
{
    let mut parts = Items::new(alloc);
    parts.push(first)?;
    let mut place = at;
    while let Some(behind) = past_word(tokens, place, Keyword::And) {
        let (part, next) = unary(alloc, tokens, behind, level)?;
        parts.push(part)?;
        place = next;
    }
    Ok((join_conjunction(parts), place))
}

/// Parts joined by AND.
#[cycle(formula)]
#[tactic(auto, using(crate::proofs::Formulas::conjunction_read, crate::proofs::Formulas::conjunction_stops0, crate::proofs::Formulas::conjunction_stops1))]
fn conjunction(
    alloc: Global,
    tokens: &[Placed],
    at: usize,
    level: u64,
) -> Result<(Named, usize), Stop>
    ensures read { IfOk result (Found Named (steps.a_conjunction level []) tokens.now at) }
    ensures next { IfOk result (IsLater tokens.now at) }
    ensures refused { IfErr result (Stopped Named (steps.a_conjunction level []) tokens.now at) }
{
    let (first, next) = unary(alloc, tokens, at, level)?;
    let (value, end) = more_and(alloc, tokens, next, level, first)?;
    Ok((value, end))
}

/// The parts behind the first, each behind OR.
#[cycle(formula)]
#[tactic(auto, using(crate::proofs::Formulas::more_or_begin, crate::proofs::Formulas::more_or_more, crate::proofs::Formulas::more_or_stop0, crate::proofs::Formulas::more_or_done))]
fn more_or(
    alloc: Global,
    tokens: &[Placed],
    at: usize,
    level: u64,
    first: Named,
) -> Result<(Named, usize), Stop>
    requires { at ≤ length tokens.now }
    ensures read { IfOk result
        (Found Named (State.want (Due.more_or level (first ∷ []))) tokens.now at) }
    ensures next { IfOk result (IsNoEarlier tokens.now at) }
    ensures refused { IfErr result
        (Stopped Named (State.want (Due.more_or level (first ∷ []))) tokens.now at) }
{
    let mut parts = Items::new(alloc);
    parts.push(first)?;
    let mut place = at;
    while let Some(behind) = past_word(tokens, place, Keyword::Or) {
        let (part, next) = conjunction(alloc, tokens, behind, level)?;
        parts.push(part)?;
        place = next;
    }
    Ok((join_disjunction(parts), place))
}

/// Conjunctions joined by OR.
#[cycle(formula)]
#[tactic(auto, using(crate::proofs::Formulas::disjunction_read, crate::proofs::Formulas::disjunction_stops0, crate::proofs::Formulas::disjunction_stops1))]
fn disjunction(
    alloc: Global,
    tokens: &[Placed],
    at: usize,
    level: u64,
) -> Result<(Named, usize), Stop>
    ensures read { IfOk result (Found Named (steps.a_disjunction level []) tokens.now at) }
    ensures next { IfOk result (IsLater tokens.now at) }
    ensures refused { IfErr result (Stopped Named (steps.a_disjunction level []) tokens.now at) }
{
    let (first, next) = conjunction(alloc, tokens, at, level)?;
    let (value, end) = more_or(alloc, tokens, next, level, first)?;
    Ok((value, end))
}

/// What may be the left side of an implication, and what stands right of it.
#[cycle(formula)]
#[tactic(auto, using(crate::proofs::Formulas::implies_deep, crate::proofs::Formulas::implies_read, crate::proofs::Formulas::implies_stops0, crate::proofs::Formulas::implies_left))]
fn implied(
    alloc: Global,
    tokens: &[Placed],
    at: usize,
    level: u64,
    left: Named,
) -> Result<(Named, usize), Stop>
    requires { at ≤ length tokens.now }
    ensures read { IfOk result (Found Named (State.want (Due.implies level left)) tokens.now at) }
    ensures next { IfOk result (IsNoEarlier tokens.now at) }
    ensures refused { IfErr result
        (Stopped Named (State.want (Due.implies level left)) tokens.now at) }
{
    if let Some(behind) = past_word(tokens, at, Keyword::Implies) {
        if level >= 64 {
            // By a call, since a drop in place is proved kind by kind.
            drop(left);
            return Err(Stop::Refused(at, ScriptReason::Depth));
        }
        let before = Boxed::new(alloc, left)?;
        let (value, end) = implication(alloc, tokens, behind, level + 1)?;
        let right = Boxed::new(alloc, value)?;
        return Ok((Named::Implies(before, right), end));
    }
    Ok((left, at))
}

/// A disjunction, or one that implies the rest.
#[cycle(formula)]
#[tactic(auto, using(crate::proofs::Formulas::implication_read, crate::proofs::Formulas::implication_stops0, crate::proofs::Formulas::implication_stops1))]
fn implication(
    alloc: Global,
    tokens: &[Placed],
    at: usize,
    level: u64,
) -> Result<(Named, usize), Stop>
    ensures read { IfOk result (Found Named (steps.implication level) tokens.now at) }
    ensures next { IfOk result (IsLater tokens.now at) }
    ensures refused { IfErr result (Stopped Named (steps.implication level) tokens.now at) }
{
    let (left, next) = disjunction(alloc, tokens, at, level)?;
    let (value, end) = implied(alloc, tokens, next, level, left)?;
    Ok((value, end))
}

/// The parts behind the first, each behind IFF.
#[cycle(formula)]
#[tactic(auto, using(crate::proofs::Formulas::more_iff_begin, crate::proofs::Formulas::more_iff_more, crate::proofs::Formulas::more_iff_stop0, crate::proofs::Formulas::more_iff_done))]
fn more_iff(
    alloc: Global,
    tokens: &[Placed],
    at: usize,
    level: u64,
    first: Named,
) -> Result<(Named, usize), Stop>
    requires { at ≤ length tokens.now }
    ensures read { IfOk result
        (Found Named (State.want (Due.more_iff level (first ∷ []))) tokens.now at) }
    ensures next { IfOk result (IsNoEarlier tokens.now at) }
    ensures refused { IfErr result
        (Stopped Named (State.want (Due.more_iff level (first ∷ []))) tokens.now at) }
{
    let mut parts = Items::new(alloc);
    parts.push(first)?;
    let mut place = at;
    while let Some(behind) = past_word(tokens, place, Keyword::Iff) {
        let (part, next) = implication(alloc, tokens, behind, level)?;
        parts.push(part)?;
        place = next;
    }
    Ok((join_equivalence(parts), place))
}

/// A formula, where so many levels are open.
#[cycle(formula)]
#[tactic(auto, using(crate::proofs::Formulas::equivalence_read, crate::proofs::Formulas::equivalence_stops0, crate::proofs::Formulas::equivalence_stops1))]
pub fn equivalence(
    alloc: Global,
    tokens: &[Placed],
    at: usize,
    level: u64,
) -> Result<(Named, usize), Stop>
    ensures read { IfOk result (Found Named (steps.an_equivalence level []) tokens.now at) }
    ensures next { IfOk result (IsLater tokens.now at) }
    ensures refused { IfErr result (Stopped Named (steps.an_equivalence level []) tokens.now at) }
{
    let (first, next) = implication(alloc, tokens, at, level)?;
    let (value, end) = more_iff(alloc, tokens, next, level, first)?;
    Ok((value, end))
}
