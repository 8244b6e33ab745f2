//! Scripts are written a statement a line: first its tokens, each function adding those of one part, then their line.

mod explore;
mod formulas;
mod literals;
mod paths;
mod pieces;
mod statements;
mod terms;

ghost use Rattle.std.specs.Prelude.{◌≡◌, ℕ, List, IfOk};
ghost use Rattle.query_lang.specs.declared.script.Script.{Script as AnyScript};
ghost use Rattle.query_lang.specs.Readings.{Reads};
ghost use Rattle.query_lang.specs.Writing.{kinds, line_of, renumbered, script_text};

use crate::NoMemory;
use crate::script::{Kind, Script};
use crate::write::pieces::push_sign;
use crate::write::statements::push_statement;
use query_tokens::{Sign, Token, push_line};
use std::alloc::Global;

/// The tokens of the statement's line.
fn line_of(alloc: Global, kind: &Kind) -> Result<Vec<Token>, NoMemory>
    ensures { IfOk result (λ line. line.items ≡ line_of kind.now) }
{
    let mut line = Vec::new(alloc);
    push_statement(alloc, &mut line, kind)?;
    push_sign(&mut line, Sign::Semicolon)?;
    Ok(line)
}

/// Writes the script, each statement on a line of its own. Lines count no more than that: of two scripts of the same
/// kinds the same is written. If some text is read as such a script, so is what is written, with the first statement on
/// line 1, the second on line 2, and so on.
pub fn write_script(alloc: Global, script: &Script) -> Result<Vec<u8>, NoMemory>
    ensures text { IfOk result (λ text. text.items ≡ script_text (kinds script.now)) }
    ensures read_back { (bytes : List ℕ) (other : AnyScript)
        → Reads bytes other → kinds other ≡ kinds script.now
        → IfOk result (λ text. Reads text.items (renumbered script.now)) }
{
    let mut text = Vec::new(alloc);
    for statement in script.statements.as_slice() {
        let line = line_of(alloc, &statement.kind)?;
        push_line(alloc, &mut text, line.as_slice())?;
    }
    Ok(text)
}
