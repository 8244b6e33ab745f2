ghost use Rattle.std.specs.Prelude.{◌≡◌, ℕ, List, ◌+◌, ◌<◌, ◌≤◌, ◌*◌, IfOk, IfErr, length, drop, [], ◌∷◌};
ghost use Rattle.query_lang.specs.Machine.Due.{Due, State};
ghost use Rattle.query_lang.specs.Machine.Going.{Found, Stopped, IsLater, IsNoEarlier, StartsAt};
ghost use Rattle.query_tokens.specs.declared.token.Token.TheVariants as token;
ghost use Rattle.query_lang.specs.Machine.Steps as steps;
ghost use Rattle.query_lang.specs.Formulas.{tested};
ghost use Rattle.query_lang.specs.Machine.Tests.{asked};

use crate::formula::Named;
use crate::literal::Path;
use crate::read::ahead::{name, past_sign, past_word, sign};
use crate::read::literals::{Asked, number_test};
use crate::read::paths::components;
use crate::read::stop::Stop;
use crate::read::terms::{arguments, term};
use crate::script::ScriptReason;
use crate::term::{Arg, NamedTerm};
use query_tokens::{Keyword, Placed, Sign};
use sorted_logic::Text;
use sqlite_items::Items;
use std::alloc::Global;

/// A term that is asked a number test.
fn tested(term: NamedTerm, test: Asked) -> Named
    ensures { result ≡ tested term (asked test) }
{
    match test {
        Asked::Masked(value, wildcard) => Named::Masked(term, value, wildcard),
        Asked::Range(low, high) => Named::Range(term, low, high),
    }
}

/// Behind the equals sign.
#[tactic(auto, using(crate::proofs::Atoms::equal_read, crate::proofs::Atoms::equal_stops0))]
fn equal_to(
    alloc: Global,
    tokens: &[Placed],
    at: usize,
    level: u64,
    left: NamedTerm,
) -> Result<(Named, usize), Stop>
    ensures read { IfOk result (Found Named (steps.equal_to level left) tokens.now at) }
    ensures next { IfOk result (IsLater tokens.now at) }
    ensures refused { IfErr result (Stopped Named (steps.equal_to level left) tokens.now at) }
{
    let (right, end) = term(alloc, tokens, at, level)?;
    Ok((Named::Equal(left, right), end))
}

/// Behind IN.
#[tactic(auto, using(crate::proofs::Atoms::in_read, crate::proofs::Atoms::in_stops0))]
fn tested_in(
    alloc: Global,
    tokens: &[Placed],
    at: usize,
    left: NamedTerm,
) -> Result<(Named, usize), Stop>
    ensures read { IfOk result (Found Named (steps.tested_in left) tokens.now at) }
    ensures next { IfOk result (IsLater tokens.now at) }
    ensures refused { IfErr result (Stopped Named (steps.tested_in left) tokens.now at) }
{
    let (test, end) = number_test(alloc, tokens, at)?;
    Ok((tested(left, test), end))
}

/// Behind the path and its colon: what is asked of the path, and its arguments.
#[tactic(auto, using(crate::proofs::Atoms::decided_read, crate::proofs::Atoms::decided_stops0, crate::proofs::Atoms::decided_stops1, crate::proofs::Atoms::decided_unopened))]
fn decided(
    alloc: Global,
    tokens: &[Placed],
    at: usize,
    level: u64,
    path: Path,
) -> Result<(Named, usize), Stop>
    ensures read { IfOk result (Found Named (steps.decided level path) tokens.now at) }
    ensures next { IfOk result (IsLater tokens.now at) }
    ensures refused { IfErr result (Stopped Named (steps.decided level path) tokens.now at) }
{
    let (word, next) = name(alloc, tokens, at)?;
    match past_sign(tokens, next, Sign::Open) {
        Some(behind) => {
            let (args, end) = arguments(alloc, tokens, next, behind, level)?;
            Ok((Named::AtPath { path, word, args }, end))
        }
        None => Err(Stop::Refused(next, ScriptReason::Syntax)),
    }
}

/// An atom of which a name with arguments was read.
#[tactic(auto, using(crate::proofs::Atoms::holds_equal, crate::proofs::Atoms::holds_equal_stops, crate::proofs::Atoms::holds_in, crate::proofs::Atoms::holds_in_stops, crate::proofs::Atoms::holds_alone))]
fn called_atom(
    alloc: Global,
    tokens: &[Placed],
    at: usize,
    level: u64,
    text: Text,
    args: Items<Arg>,
) -> Result<(Named, usize), Stop>
    requires { at ≤ length tokens.now }
    ensures read { IfOk result
        (Found Named (State.want (Due.holds_tail level text args)) tokens.now at) }
    ensures next { IfOk result (IsNoEarlier tokens.now at) }
    ensures refused { IfErr result
        (Stopped Named (State.want (Due.holds_tail level text args)) tokens.now at) }
{
    if let Some(behind) = past_sign(tokens, at, Sign::Equals) {
        let left = NamedTerm::Call { name: text, args };
        let (value, end) = equal_to(alloc, tokens, behind, level, left)?;
        return Ok((value, end));
    }
    if let Some(behind) = past_word(tokens, at, Keyword::In) {
        let left = NamedTerm::Call { name: text, args };
        let (value, end) = tested_in(alloc, tokens, behind, left)?;
        return Ok((value, end));
    }
    Ok((Named::Holds { name: text, args }, at))
}

/// An atom whose first name begins a path.
#[tactic(auto, using(crate::proofs::Atoms::pathed_read, crate::proofs::Atoms::pathed_stops0, crate::proofs::Atoms::pathed_stops1, crate::proofs::Atoms::pathed_stops2))]
fn pathed(
    alloc: Global,
    tokens: &[Placed],
    at: usize,
    level: u64,
    text: Text,
) -> Result<(Named, usize), Stop>
    requires { at ≤ length tokens.now }
    ensures read { IfOk result (Found Named (steps.pathed level text) tokens.now at) }
    ensures next { IfOk result (IsLater tokens.now at) }
    ensures refused { IfErr result (Stopped Named (steps.pathed level text) tokens.now at) }
{
    let mut parts = Items::new(alloc);
    parts.push(text)?;
    let (path, next) = components(alloc, tokens, at, parts)?;
    let behind = sign(tokens, next, Sign::Colon)?;
    let (value, end) = decided(alloc, tokens, behind, level, path)?;
    Ok((value, end))
}

/// An atom whose first name is called with arguments.
#[tactic(auto, using(crate::proofs::Atoms::calling_read, crate::proofs::Atoms::calling_stops0, crate::proofs::Atoms::calling_stops1))]
fn calling(
    alloc: Global,
    tokens: &[Placed],
    at: usize,
    behind: usize,
    level: u64,
    text: Text,
) -> Result<(Named, usize), Stop>
    requires opens { StartsAt (token.Sign Sign.Open) tokens.now at behind }
    requires next { at < behind }
    requires within { behind ≤ length tokens.now }
    ensures read { IfOk result (Found Named (steps.calling level text) tokens.now at) }
    ensures next { IfOk result (IsLater tokens.now at) }
    ensures refused { IfErr result (Stopped Named (steps.calling level text) tokens.now at) }
{
    let (args, next) = arguments(alloc, tokens, at, behind, level)?;
    let (value, end) = called_atom(alloc, tokens, next, level, text, args)?;
    Ok((value, end))
}

/// An atom behind its first name.
#[tactic(auto, using(crate::proofs::Atoms::tail_path, crate::proofs::Atoms::tail_path_stops, crate::proofs::Atoms::tail_colon, crate::proofs::Atoms::tail_colon_stops, crate::proofs::Atoms::tail_call, crate::proofs::Atoms::tail_call_stops, crate::proofs::Atoms::tail_equal, crate::proofs::Atoms::tail_equal_stops, crate::proofs::Atoms::tail_in, crate::proofs::Atoms::tail_in_stops, crate::proofs::Atoms::tail_none))]
pub fn atom_tail(
    alloc: Global,
    tokens: &[Placed],
    at: usize,
    level: u64,
    text: Text,
) -> Result<(Named, usize), Stop>
    requires { at ≤ length tokens.now }
    ensures read { IfOk result (Found Named (State.want (Due.atom_tail level text)) tokens.now at) }
    ensures next { IfOk result (IsLater tokens.now at) }
    ensures refused { IfErr result
        (Stopped Named (State.want (Due.atom_tail level text)) tokens.now at) }
{
    if let Some(_) = past_sign(tokens, at, Sign::Dot) {
        let (value, end) = pathed(alloc, tokens, at, level, text)?;
        return Ok((value, end));
    }
    if let Some(_) = past_sign(tokens, at, Sign::Colon) {
        let (value, end) = pathed(alloc, tokens, at, level, text)?;
        return Ok((value, end));
    }
    if let Some(behind) = past_sign(tokens, at, Sign::Open) {
        let (value, end) = calling(alloc, tokens, at, behind, level, text)?;
        return Ok((value, end));
    }
    if let Some(behind) = past_sign(tokens, at, Sign::Equals) {
        let (value, end) = equal_to(alloc, tokens, behind, level, NamedTerm::Name(text))?;
        return Ok((value, end));
    }
    if let Some(behind) = past_word(tokens, at, Keyword::In) {
        let (value, end) = tested_in(alloc, tokens, behind, NamedTerm::Name(text))?;
        return Ok((value, end));
    }
    Err(Stop::Refused(at, ScriptReason::Syntax))
}

/// An atom, where so many levels are open.
#[tactic(auto, using(crate::proofs::Atoms::atom_read, crate::proofs::Atoms::atom_stops0, crate::proofs::Atoms::atom_stops1))]
pub fn atom(alloc: Global, tokens: &[Placed], at: usize, level: u64) -> Result<(Named, usize), Stop>
    ensures read { IfOk result (Found Named (steps.atom level) tokens.now at) }
    ensures next { IfOk result (IsLater tokens.now at) }
    ensures refused { IfErr result (Stopped Named (steps.atom level) tokens.now at) }
{
    let (text, next) = name(alloc, tokens, at)?;
    let (value, end) = atom_tail(alloc, tokens, next, level, text)?;
    Ok((value, end))
}
