ghost use Rattle.std.specs.Prelude.{◌≡◌, ℕ, List, ◌+◌, ◌<◌, ◌≤◌, IfOk, IfErr, length, drop, [], ◌∷◌};
ghost use Rattle.query_tokens.specs.declared.token.Token.TheVariants as token;
ghost use Rattle.query_lang.specs.Machine.Going.{StartsOnAt, FoundKind, FoundStatement, StoppedStatement, HaltsScript, IsFresh, IsRead};

use crate::read::ahead::{placed_at, sign};
use crate::read::commands::{
    audit, compare, core, decide, generate, link, load, paths, possible, show,
};
use crate::read::explore::explore;
use crate::read::stop::Stop;
use crate::script::{Kind, ScriptReason, Statement};
use query_tokens::{Keyword, Placed, Sign, Token};
use sqlite_items::Items;
use std::alloc::Global;

/// No EXPLORE before began on the line of this one.
#[tactic(auto, using(crate::proofs::Stating::none_fresh, crate::proofs::Stating::other_fresh, crate::proofs::Stating::same_line))]
fn fresh_line(
    tokens: &[Placed],
    at: usize,
    behind: usize,
    line: u64,
    explored: Option<u64>,
) -> Result<(), Stop>
    requires { StartsOnAt line (token.Keyword Keyword.Explore) tokens.now at behind }
    ensures fresh { IfOk result (λ _. IsFresh explored line) }
    ensures refused { IfErr result (StoppedStatement explored tokens.now at) }
{
    match explored {
        Some(old) => {
            if old == line {
                Err(Stop::Refused(at, ScriptReason::Syntax))
            } else {
                Ok(())
            }
        }
        None => Ok(()),
    }
}

/// A question.
#[tactic(auto, using(crate::proofs::Stating::explore_begun, crate::proofs::Stating::explore_halts))]
fn question(
    alloc: Global,
    tokens: &[Placed],
    at: usize,
    behind: usize,
    line: u64,
    explored: Option<u64>,
) -> Result<(Kind, Option<u64>, usize), Stop>
    requires starts { StartsOnAt line (token.Keyword Keyword.Explore) tokens.now at behind }
    requires next { at < behind }
    requires within { behind ≤ length tokens.now }
    ensures read { IfOk result (FoundKind explored line tokens.now at) }
    ensures next { IfOk result (λ found. (at < found.2) × (found.2 ≤ length tokens.now)) }
    ensures refused { IfErr result (StoppedStatement explored tokens.now at) }
{
    fresh_line(tokens, at, behind, line, explored)?;
    let (what, end) = explore(alloc, tokens, behind)?;
    Ok((Kind::Explore(what), Some(line), end))
}

/// SHOW, which asks of the EXPLORE before it.
#[tactic(auto, using(crate::proofs::Stating::show_begun, crate::proofs::Stating::show_halts, crate::proofs::Stating::show_unasked))]
fn asks_show(
    tokens: &[Placed],
    at: usize,
    behind: usize,
    line: u64,
    explored: Option<u64>,
) -> Result<(Kind, Option<u64>, usize), Stop>
    requires starts { StartsOnAt line (token.Keyword Keyword.Show) tokens.now at behind }
    requires next { at < behind }
    requires within { behind ≤ length tokens.now }
    ensures read { IfOk result (FoundKind explored line tokens.now at) }
    ensures next { IfOk result (λ found. (at < found.2) × (found.2 ≤ length tokens.now)) }
    ensures refused { IfErr result (StoppedStatement explored tokens.now at) }
{
    match explored {
        Some(old) => {
            let (kind, end) = show(tokens, behind)?;
            Ok((kind, Some(old), end))
        }
        None => Err(Stop::Refused(at, ScriptReason::NoExplore)),
    }
}

/// IS, which asks of the EXPLORE before it.
#[tactic(auto, using(crate::proofs::Stating::possible_begun, crate::proofs::Stating::possible_halts, crate::proofs::Stating::possible_unasked))]
fn asks_possible(
    tokens: &[Placed],
    at: usize,
    behind: usize,
    line: u64,
    explored: Option<u64>,
) -> Result<(Kind, Option<u64>, usize), Stop>
    requires starts { StartsOnAt line (token.Keyword Keyword.Is) tokens.now at behind }
    requires next { at < behind }
    requires within { behind ≤ length tokens.now }
    ensures read { IfOk result (FoundKind explored line tokens.now at) }
    ensures next { IfOk result (λ found. (at < found.2) × (found.2 ≤ length tokens.now)) }
    ensures refused { IfErr result (StoppedStatement explored tokens.now at) }
{
    match explored {
        Some(old) => {
            let (kind, end) = possible(tokens, behind)?;
            Ok((kind, Some(old), end))
        }
        None => Err(Stop::Refused(at, ScriptReason::NoExplore)),
    }
}

/// A statement but its semicolon, by its first word, with the line of the last EXPLORE behind it.
#[tactic(auto, using(crate::proofs::Stating::load_begun, crate::proofs::Stating::compare_begun, crate::proofs::Stating::decide_begun, crate::proofs::Stating::generate_begun, crate::proofs::Stating::link_begun, crate::proofs::Stating::paths_begun, crate::proofs::Stating::audit_begun, crate::proofs::Stating::core_begun, crate::proofs::Stating::load_halts, crate::proofs::Stating::compare_halts, crate::proofs::Stating::decide_halts, crate::proofs::Stating::generate_halts, crate::proofs::Stating::link_halts, crate::proofs::Stating::paths_halts, crate::proofs::Stating::audit_halts, crate::proofs::Stating::core_halts, crate::proofs::Stating::no_statement))]
fn kind(
    alloc: Global,
    tokens: &[Placed],
    at: usize,
    behind: usize,
    line: u64,
    word: Keyword,
    explored: Option<u64>,
) -> Result<(Kind, Option<u64>, usize), Stop>
    requires starts { StartsOnAt line (token.Keyword word) tokens.now at behind }
    requires next { at < behind }
    requires within { behind ≤ length tokens.now }
    ensures read { IfOk result (FoundKind explored line tokens.now at) }
    ensures next { IfOk result (λ found. (at < found.2) × (found.2 ≤ length tokens.now)) }
    ensures refused { IfErr result (StoppedStatement explored tokens.now at) }
{
    match word {
        Keyword::Explore => question(alloc, tokens, at, behind, line, explored),
        Keyword::Show => asks_show(tokens, at, behind, line, explored),
        Keyword::Is => asks_possible(tokens, at, behind, line, explored),
        Keyword::Load => {
            let (kind, end) = load(alloc, tokens, behind)?;
            Ok((kind, explored, end))
        }
        Keyword::Compare => {
            let (kind, end) = compare(alloc, tokens, behind)?;
            Ok((kind, explored, end))
        }
        Keyword::Decide => {
            let (kind, end) = decide(alloc, tokens, behind)?;
            Ok((kind, explored, end))
        }
        Keyword::Generate => {
            let (kind, end) = generate(alloc, tokens, behind)?;
            Ok((kind, explored, end))
        }
        Keyword::Link => {
            let (kind, end) = link(alloc, tokens, behind)?;
            Ok((kind, explored, end))
        }
        Keyword::Path => {
            let (kind, end) = paths(alloc, tokens, behind)?;
            Ok((kind, explored, end))
        }
        Keyword::Audit => {
            let (kind, end) = audit(alloc, tokens, behind)?;
            Ok((kind, explored, end))
        }
        Keyword::Core => {
            let (kind, end) = core(alloc, tokens, behind)?;
            Ok((kind, explored, end))
        }
        _ => Err(Stop::Refused(at, ScriptReason::Syntax)),
    }
}

/// A statement, with the line of the last EXPLORE behind it.
#[tactic(auto, using(crate::proofs::Stating::word_on, crate::proofs::Stating::stated_read, crate::proofs::Stating::stated_stops1, crate::proofs::Stating::other_stated, crate::proofs::Stating::end_stated))]
fn statement(
    alloc: Global,
    tokens: &[Placed],
    at: usize,
    explored: Option<u64>,
) -> Result<(Statement, Option<u64>, usize), Stop>
    requires { at < length tokens.now }
    ensures read { IfOk result (FoundStatement explored tokens.now at) }
    ensures next { IfOk result (λ found. (at < found.2) × (found.2 ≤ length tokens.now)) }
    ensures refused { IfErr result (StoppedStatement explored tokens.now at) }
{
    match placed_at(tokens, at) {
        Some(placed) => match &placed.token {
            Token::Keyword(word) => {
                let line = placed.line;
                let (what, latest, next) = kind(alloc, tokens, at, at + 1, line, *word, explored)?;
                match sign(tokens, next, Sign::Semicolon) {
                    Ok(end) => Ok((Statement { line, kind: what }, latest, end)),
                    Err(stop) => {
                        // By a call, since a drop in place is proved kind by kind.
                        drop(what);
                        Err(stop)
                    }
                }
            }
            _ => Err(Stop::Refused(at, ScriptReason::Syntax)),
        },
        None => Err(Stop::Refused(at, ScriptReason::Syntax)),
    }
}

/// All statements.
#[tactic(auto, using(crate::proofs::Stating::script_begins, crate::proofs::Stating::script_more, crate::proofs::Stating::script_ends, crate::proofs::Stating::script_stops))]
pub fn statements(alloc: Global, tokens: &[Placed]) -> Result<Items<Statement>, Stop>
    ensures read { IfOk result (λ all. IsRead tokens.now all) }
    ensures refused { IfErr result (λ stop. HaltsScript tokens.now stop) }
{
    let mut all = Items::new(alloc);
    let mut explored = None;
    let mut place = 0;
    while place < tokens.len() {
        let (next_statement, latest, next) = statement(alloc, tokens, place, explored)?;
        all.push(next_statement)?;
        explored = latest;
        place = next;
    }
    Ok(all)
}
