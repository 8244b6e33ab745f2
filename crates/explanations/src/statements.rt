ghost use Rattle.std.specs.Prelude.{IfOk};
ghost use Rattle.std.specs.String.{string_bytes};
ghost use Rattle.notes.specs.Reports.{EndsLine};

use crate::known::{is_known, known_names};
use crate::loaded::{Loaded, load_all};
use crate::outside::Names;
use crate::refused::{Refusal, plain_error};
use crate::script_notes::script_notes;
use crate::unfit::unfit_place;
use list_questions::{Mention, push_mentions};
use mg_outside::Files;
use notes::{Place, Report, found, line_place};
use query_lang::{Kind, Script, Statement, read_script};
use session::Reason;
use sorted_logic::Text;
use std::alloc::{AllocError, Global};

/// Why a statement is refused when its turn comes, with notes on what is loaded before it.
pub(crate) fn statement_error<F: Files, N: Names>(
    alloc: Global,
    refused: &Refusal<'_>,
    bytes: &[u8],
    files: &mut F,
    names: &N,
    mut report: Report,
) -> Result<String, AllocError>
    ensures { IfOk result (λ text. EndsLine (string_bytes text)) }
{
    let line = line_place(refused.file, bytes, refused.line);
    match read_script(alloc, bytes) {
        Ok(script) => {
            let last = refused.line;
            script_notes(alloc, refused.file, bytes, &script, last, &mut report)?;
            let loaded = load_all(alloc, &script, last, files, names, &mut report)?;
            read_error(
                alloc,
                refused,
                &script,
                bytes,
                loaded.as_slice(),
                &line,
                report,
            )
        }
        Err(_) => plain_error(refused, &line, report),
    }
}

/// Why a statement of this line is refused.
fn read_error(
    alloc: Global,
    refused: &Refusal<'_>,
    script: &Script,
    bytes: &[u8],
    loaded: &[Loaded<'_>],
    line: &Place<'_>,
    report: Report,
) -> Result<String, AllocError>
    ensures { IfOk result (λ text. EndsLine (string_bytes text)) }
{
    match refused.reason {
        Reason::UnknownPolicy => {
            match unknown_path(alloc, script, refused.line, loaded)? {
                Some(parts) => policy_error(alloc, parts, bytes, loaded, line, report),
                None => plain_error(refused, line, report),
            }
        }
        Reason::OutOfRange => {
            let place = unfit_place(alloc, script, bytes, line)?;
            plain_error(refused, &place, report)
        }
        Reason::UnknownName => name_error(line, report),
        _ => plain_error(refused, line, report),
    }
}

/// A decision or a rule that a policy lacks, or an interface that no router has.
fn name_error(line: &Place<'_>, report: Report) -> Result<String, AllocError>
    ensures { IfOk result (λ text. EndsLine (string_bytes text)) }
{
    report.error(
        "the policy has no decision or rule of this name, or no router has the interface",
        line,
        "lists have `permit` and `deny`, and rules named by the numbers of their entries; interfaces are named as in their files",
    )
}

/// A policy that is not loaded, with the names of those that are.
fn policy_error(
    alloc: Global,
    parts: &[Text],
    bytes: &[u8],
    loaded: &[Loaded<'_>],
    line: &Place<'_>,
    report: Report,
) -> Result<String, AllocError>
    ensures { IfOk result (λ text. EndsLine (string_bytes text)) }
{
    let path = path_text(alloc, parts)?;
    let place = found(line.file, bytes, line.line, path.as_bytes()).unwrap_or(*line);
    let help = known_names(alloc, loaded, parts)?;
    report.error("no policy of this name is loaded", &place, help.as_str())
}

/// A path as it is written, without quotes.
fn path_text(alloc: Global, parts: &[Text]) -> Result<String, AllocError> {
    let mut text = String::new(alloc);
    for part in parts {
        if !text.is_empty() {
            text.push_str(".")?;
        }
        text.push_str(part.as_str())?;
    }
    Ok(text)
}

/// The first path of the statements of a line of which no policy is loaded.
fn unknown_path<'a>(
    alloc: Global,
    script: &'a Script,
    line: u64,
    loaded: &[Loaded<'_>],
) -> Result<Option<&'a [Text]>, AllocError> {
    for statement in script.statements.as_slice() {
        if statement.line == line {
            if let Some(parts) = unknown_in(alloc, statement, loaded)? {
                return Ok(Some(parts));
            }
        }
    }
    Ok(None)
}

/// The first path of the statement of which no policy is loaded.
fn unknown_in<'a>(
    alloc: Global,
    statement: &'a Statement,
    loaded: &[Loaded<'_>],
) -> Result<Option<&'a [Text]>, AllocError> {
    match &statement.kind {
        Kind::Decide { list, .. } if !is_known(loaded, list.parts.as_slice()) => {
            Ok(Some(list.parts.as_slice()))
        }
        Kind::Explore(explore) => {
            let mut mentions = Vec::new(alloc);
            push_mentions(&explore.formula, &mut mentions)?;
            for atom in explore.include.as_slice() {
                push_mentions(atom, &mut mentions)?;
            }
            Ok(first_unknown(mentions.as_slice(), loaded))
        }
        _ => Ok(None),
    }
}

/// The first of these of which no policy is loaded.
fn first_unknown<'a>(mentions: &[Mention<'a>], loaded: &[Loaded<'_>]) -> Option<&'a [Text]> {
    for mention in mentions {
        let parts = policy_parts(mention);
        if !is_known(loaded, parts) {
            return Some(parts);
        }
    }
    None
}

/// The policy's part of a path: its last component may name a rule.
fn policy_parts<'a>(mention: &Mention<'a>) -> &'a [Text] {
    let parts = mention.path.parts.as_slice();
    let names_rule = mention.word.as_str() == "matches" || mention.word.as_str() == "applies";
    match parts {
        [policy @ .., _] if names_rule => policy,
        _ => parts,
    }
}
