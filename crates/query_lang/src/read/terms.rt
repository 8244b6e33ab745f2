ghost use Rattle.std.specs.Prelude.{◌≡◌, ℕ, List, ◌+◌, ◌<◌, ◌≤◌, ◌*◌, IfOk, IfErr, length, drop, [], ◌∷◌};
ghost use Rattle.query_lang.specs.Machine.Due.{Due, State};
ghost use Rattle.query_lang.specs.Machine.Going.{Found, Stopped, IsLater, IsNoEarlier, StartsAt};
ghost use Rattle.query_tokens.specs.declared.token.Token.TheVariants as token;
ghost use Rattle.query_lang.specs.Machine.Steps as steps;

use crate::read::ahead::{name, past_sign, sign};
use crate::read::stop::Stop;
use crate::script::ScriptReason;
use crate::term::{Arg, NamedTerm};
use query_tokens::{Placed, Sign};
use sorted_logic::Text;
use sqlite_items::Items;
use std::alloc::Global;

/// A term, of which the name was read.
#[cycle(term)]
#[tactic(auto, using(crate::proofs::Terms::called_read, crate::proofs::Terms::called_stops0, crate::proofs::Terms::called_left))]
fn called(
    alloc: Global,
    tokens: &[Placed],
    at: usize,
    level: u64,
    text: Text,
) -> Result<(NamedTerm, usize), Stop>
    requires { at ≤ length tokens.now }
    ensures read { IfOk result
        (Found NamedTerm (State.want (Due.called level text)) tokens.now at) }
    ensures next { IfOk result (IsNoEarlier tokens.now at) }
    ensures refused { IfErr result
        (Stopped NamedTerm (State.want (Due.called level text)) tokens.now at) }
{
    if let Some(behind) = past_sign(tokens, at, Sign::Open) {
        let (args, end) = arguments(alloc, tokens, at, behind, level)?;
        return Ok((NamedTerm::Call { name: text, args }, end));
    }
    Ok((NamedTerm::Name(text), at))
}

/// A term, where so many levels are open.
#[cycle(term)]
#[tactic(auto, using(crate::proofs::Terms::term_read, crate::proofs::Terms::term_stops0, crate::proofs::Terms::term_stops1))]
pub fn term(
    alloc: Global,
    tokens: &[Placed],
    at: usize,
    level: u64,
) -> Result<(NamedTerm, usize), Stop>
    ensures read { IfOk result (Found NamedTerm (steps.a_term level) tokens.now at) }
    ensures next { IfOk result (IsLater tokens.now at) }
    ensures refused { IfErr result (Stopped NamedTerm (steps.a_term level) tokens.now at) }
{
    let (text, next) = name(alloc, tokens, at)?;
    let (value, end) = called(alloc, tokens, next, level, text)?;
    Ok((value, end))
}

/// Arguments from their opening parenthesis on, behind which `behind` stands.
#[cycle(term)]
#[tactic(auto, using(crate::proofs::Terms::args_deep, crate::proofs::Terms::args_empty, crate::proofs::Terms::args_read, crate::proofs::Terms::args_stops0, crate::proofs::Terms::args_stops1))]
pub fn arguments(
    alloc: Global,
    tokens: &[Placed],
    at: usize,
    behind: usize,
    level: u64,
) -> Result<(Items<Arg>, usize), Stop>
    requires opens { StartsAt (token.Sign Sign.Open) tokens.now at behind }
    requires next { at < behind }
    requires within { behind ≤ length tokens.now }
    ensures read { IfOk result (Found (List Arg) (State.want (Due.args level)) tokens.now at) }
    ensures next { IfOk result (IsLater tokens.now at) }
    ensures refused { IfErr result
        (Stopped (List Arg) (State.want (Due.args level)) tokens.now at) }
{
    if level >= 64 {
        return Err(Stop::Refused(at, ScriptReason::Depth));
    }
    if let Some(end) = past_sign(tokens, behind, Sign::Close) {
        return Ok((Items::new(alloc), end));
    }
    let (first, next) = argument(alloc, tokens, behind, level + 1)?;
    let (args, end) = more_arguments(alloc, tokens, next, level + 1, first)?;
    Ok((args, end))
}

/// `<req>`, or a term.
#[cycle(term)]
#[tactic(auto, using(crate::proofs::Terms::arg_request, crate::proofs::Terms::arg_term, crate::proofs::Terms::arg_stops))]
fn argument(alloc: Global, tokens: &[Placed], at: usize, level: u64) -> Result<(Arg, usize), Stop>
    ensures read { IfOk result (Found Arg (State.want (Due.arg level)) tokens.now at) }
    ensures next { IfOk result (IsLater tokens.now at) }
    ensures refused { IfErr result (Stopped Arg (State.want (Due.arg level)) tokens.now at) }
{
    if let Some(end) = past_sign(tokens, at, Sign::Request) {
        return Ok((Arg::Req, end));
    }
    let (value, end) = term(alloc, tokens, at, level)?;
    Ok((Arg::Term(value), end))
}

/// The arguments behind the first, and the closing parenthesis.
#[cycle(term)]
#[tactic(auto, using(crate::proofs::Terms::args_chain_begin, crate::proofs::Terms::args_chain_more, crate::proofs::Terms::args_chain_stop0, crate::proofs::Terms::args_chain_end, crate::proofs::Terms::args_chain_unended))]
fn more_arguments(
    alloc: Global,
    tokens: &[Placed],
    at: usize,
    level: u64,
    first: Arg,
) -> Result<(Items<Arg>, usize), Stop>
    requires { at ≤ length tokens.now }
    ensures read { IfOk result
        (Found (List Arg) (State.want (Due.more_args level (first ∷ []))) tokens.now at) }
    ensures next { IfOk result (IsLater tokens.now at) }
    ensures refused { IfErr result
        (Stopped (List Arg) (State.want (Due.more_args level (first ∷ []))) tokens.now at) }
{
    let mut parts = Items::new(alloc);
    parts.push(first)?;
    let mut place = at;
    while let Some(behind) = past_sign(tokens, place, Sign::Comma) {
        let (part, next) = argument(alloc, tokens, behind, level)?;
        parts.push(part)?;
        place = next;
    }
    let end = sign(tokens, place, Sign::Close)?;
    Ok((parts, end))
}
