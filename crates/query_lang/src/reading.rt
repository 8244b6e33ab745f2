ghost use Rattle.std.specs.Prelude.{◌≡◌, IfOk, IfErr, drop};
ghost use Rattle.query_lang.specs.Readings as specs;
ghost use Rattle.query_lang.specs.Readings.{IsFault, Reads, Refuses};

use crate::read::ahead::placed_at;
use crate::read::statements::statements;
use crate::read::stop::Stop;
use crate::script::{Script, ScriptFault};
use query_tokens::{Placed, last_line, tokens};
use std::alloc::Global;

/// The line of the token at a place, or of the last byte where no token is there.
#[tactic(auto, using(crate::proofs::Fronts::line_there, crate::proofs::Fronts::line_at_end))]
fn line_at(bytes: &[u8], tokens: &[Placed], at: usize) -> u64
    ensures { result ≡ specs.line_at bytes.now (drop at tokens.now) }
{
    match placed_at(tokens, at) {
        Some(placed) => placed.line,
        None => last_line(bytes),
    }
}

/// Reads a script, or finds the first token with which no script goes on.
#[tactic(auto, using(crate::proofs::Fronts::reads_as, crate::proofs::Fronts::refuses_as))]
pub fn read_script(alloc: Global, bytes: &[u8]) -> Result<Script, ScriptFault>
    ensures read { IfOk result (Reads bytes.now) }
    ensures refused { IfErr result (IsFault (Refuses bytes.now)) }
{
    let placed = tokens(alloc, bytes)?;
    match statements(alloc, &placed) {
        Ok(all) => Ok(Script { statements: all }),
        Err(Stop::Refused(at, reason)) => {
            let line = line_at(bytes, &placed, at);
            Err(ScriptFault::At { line, reason })
        }
        Err(Stop::NoMemory) => Err(ScriptFault::NoMemory),
    }
}
