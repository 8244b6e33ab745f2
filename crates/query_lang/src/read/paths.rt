ghost use Rattle.std.specs.Prelude.{◌≡◌, ℕ, List, ◌+◌, ◌<◌, ◌≤◌, ◌*◌, IfOk, IfErr, length, drop, [], ◌∷◌};
ghost use Rattle.query_lang.specs.Machine.Due.{Due, State};
ghost use Rattle.query_lang.specs.Machine.Going.{Found, Stopped, IsLater, IsNoEarlier};
ghost use Rattle.query_lang.specs.Machine.Steps as steps;

use crate::literal::Path;
use crate::read::ahead::{component, name, past_sign};
use crate::read::stop::Stop;
use query_tokens::{Placed, Sign};
use sorted_logic::Text;
use sqlite_items::Items;
use std::alloc::Global;

/// The path that goes on from these parts.
#[tactic(auto, using(crate::proofs::Paths::components_begin, crate::proofs::Paths::components_more, crate::proofs::Paths::components_done, crate::proofs::Paths::components_stop))]
pub fn components(
    alloc: Global,
    tokens: &[Placed],
    at: usize,
    parts: Items<Text>,
) -> Result<(Path, usize), Stop>
    requires { at ≤ length tokens.now }
    ensures read { IfOk result (Found Path (State.want (Due.components parts)) tokens.now at) }
    ensures next { IfOk result (IsNoEarlier tokens.now at) }
    ensures refused { IfErr result
        (Stopped Path (State.want (Due.components parts)) tokens.now at) }
{
    let mut parts = parts;
    let mut place = at;
    while let Some(next) = past_sign(tokens, place, Sign::Dot) {
        let (part, next) = component(alloc, tokens, next)?;
        parts.push(part)?;
        place = next;
    }
    Ok((Path { parts }, place))
}

/// A path.
#[tactic(auto, using(crate::proofs::Paths::path_read, crate::proofs::Paths::path_stops0, crate::proofs::Paths::path_stops1))]
pub fn path(alloc: Global, tokens: &[Placed], at: usize) -> Result<(Path, usize), Stop>
    ensures read { IfOk result (Found Path steps.path tokens.now at) }
    ensures next { IfOk result (IsLater tokens.now at) }
    ensures refused { IfErr result (Stopped Path steps.path tokens.now at) }
{
    let (first, next) = name(alloc, tokens, at)?;
    let mut parts = Items::new(alloc);
    parts.push(first)?;
    components(alloc, tokens, next, parts)
}
