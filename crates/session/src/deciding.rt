ghost use Rattle.std.specs.Prelude.{◌≡◌, ℕ, List, Option, OnOk, IfErr};
ghost use Rattle.mg_outside.specs.Effects.{Performs};
ghost use Rattle.mg_outside.specs.Logs.{FileLog};
ghost use Rattle.query_lang.specs.declared.script.Kind.TheVariants as kind;
ghost use Rattle.session.specs.Endings.{IsCarriedOut};
ghost use Rattle.session.specs.Run.{EndsAt, IsCutShort};
ghost use Rattle.session.specs.Steps.{literal_reason};

use crate::ended::{Cause, Reason};
use crate::endings::{Line, refuse_line, write};
use crate::state::State;
use crate::text::decision_text;
use list_questions::{LiteralFault, packet_of};
use mg_outside::Sink;
use query_lang::{Literal, Path};
use std::alloc::Global;

/// DECIDE: what the list under the path says of the packet of these numbers.
pub fn decide<S: Sink>(
    alloc: Global,
    at: &Line<'_>,
    path: &Path,
    packet: &[Literal],
    state: &State,
    out: &mut S,
) -> Result<(), Cause>
    ensures carried { (told : List ℕ → Option (List ℕ)) (files : FileLog) → OnOk result
        (IsCarriedOut told state.now (kind.Decide path.now packet.now) state.now
        files files (S.log out.old) (S.log out.new)) }
    ensures stopped { (told : List ℕ → Option (List ℕ)) (files : FileLog) → IfErr result
        (Performs (EndsAt IsCutShort at.now.script.now told at.now.number
        state.now (kind.Decide path.now packet.now)) files files (S.log out.old) (S.log out.new)) }
{
    let Some(list) = state.list_at_path(path.parts.as_slice()) else {
        return Err(refuse_line(alloc, at, Reason::UnknownPolicy, out));
    };
    if packet.len() != 8 {
        return Err(refuse_line(alloc, at, Reason::Arity, out));
    }
    let packet = match packet_of(state.names(), packet) {
        Ok(packet) => packet,
        Err(fault) => return Err(refuse_line(alloc, at, reason(fault), out)),
    };
    let (verdict, number) = list.decide(&packet);
    let Ok(text) = decision_text(alloc, verdict, number) else {
        return Err(Cause::NoMemory);
    };
    write(out, text.as_bytes())
}

fn reason(fault: LiteralFault) -> Reason
    ensures { result ≡ literal_reason fault }
{
    match fault {
        LiteralFault::OutOfRange => Reason::OutOfRange,
        LiteralFault::UnknownName => Reason::UnknownName,
    }
}
