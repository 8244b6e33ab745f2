ghost use Rattle.std.specs.Prelude.{◌≡◌, ℕ, List, ◌+◌, ◌<◌, ◌≤◌, ◌*◌, IfOk, IfErr, length, drop};
ghost use Rattle.query_lang.specs.Machine.Going.{Found, Stopped, IsLater};
ghost use Rattle.query_lang.specs.Machine.Steps as steps;

use crate::read::ahead::{name, sign};
use crate::read::stop::Stop;
use query_tokens::{Placed, Sign};
use sorted_logic::Text;
use std::alloc::Global;

/// A declared variable and its sort.
#[tactic(auto, using(crate::proofs::Variables::variable_read, crate::proofs::Variables::variable_stops0, crate::proofs::Variables::variable_stops1, crate::proofs::Variables::variable_stops2))]
pub fn variable(alloc: Global, tokens: &[Placed], at: usize) -> Result<((Text, Text), usize), Stop>
    ensures read { IfOk result (Found (List ℕ × List ℕ) steps.variable tokens.now at) }
    ensures next { IfOk result (IsLater tokens.now at) }
    ensures refused { IfErr result (Stopped (List ℕ × List ℕ) steps.variable tokens.now at) }
{
    let (variable, next) = name(alloc, tokens, at)?;
    let next = sign(tokens, next, Sign::Colon)?;
    let (sort, end) = name(alloc, tokens, next)?;
    Ok(((variable, sort), end))
}
