ghost use Rattle.std.specs.Prelude.{◌≡◌, ◌||◌, ℕ, List, not, true, false, OnOk, IfErr, is_some};
ghost use Rattle.mg_outside.specs.Effects.{Performs};
ghost use Rattle.session.specs.Endings.{IsCarriedOut};
ghost use Rattle.session.specs.Order.{is_ordered, is_show};
ghost use Rattle.session.specs.Run.{AreCarriedOut, EndsAt, IsCutShort, no_routers};

use crate::asking::{explore, show};
use crate::deciding::decide;
use crate::ended::{Cause, Reason};
use crate::endings::{Line, refuse_line};
use crate::loading::load;
use crate::state::State;
use mg_outside::{Files, Sink};
use query_lang::{Kind, Statement};
use std::alloc::Global;

/// Carries out the statements of a script of this name, one after the other, up to the first that is refused.
pub fn carry_out_all<F: Files, S: Sink>(
    alloc: Global,
    script: &str,
    statements: &[Statement],
    files: &mut F,
    out: &mut S,
) -> Cause
    requires { is_ordered false statements.now ≡ true }
    ensures { Performs
        (AreCarriedOut IsCutShort script.now (F.holds files.old) no_routers statements.now)
        (F.log files.old) (F.log files.new) (S.log out.old) (S.log out.new) result }
{
    let mut state = State::new(alloc);
    for place in 0..statements.len() {
        let statement = &statements[place];
        let at = Line {
            script,
            number: statement.line,
        };
        match carry_out(alloc, &at, &statement.kind, &mut state, files, out) {
            Ok(()) => {}
            Err(end) => return end,
        }
    }
    Cause::Done
}

/// Carries out the statement of a line.
fn carry_out<F: Files, S: Sink>(
    alloc: Global,
    at: &Line<'_>,
    what: &Kind,
    state: &mut State,
    files: &mut F,
    out: &mut S,
) -> Result<(), Cause>
    requires { (not (is_show what.now) || is_some state.old.question) ≡ true }
    ensures carried { OnOk result (IsCarriedOut (F.holds files.old) state.old what.now state.new
        (F.log files.old) (F.log files.new) (S.log out.old) (S.log out.new)) }
    ensures stopped { IfErr result (Performs
        (EndsAt IsCutShort at.now.script.now (F.holds files.old) at.now.number state.old what.now)
        (F.log files.old) (F.log files.new) (S.log out.old) (S.log out.new)) }
    ensures same { (other : List ℕ) → F.holds files.new other ≡ F.holds files.old other }
{
    match what {
        Kind::LoadIos { file, name } => load(
            alloc,
            at,
            file.as_str(),
            name.as_str(),
            state,
            files,
            out,
        ),
        Kind::Explore(question) => explore(alloc, at, question, state, out),
        Kind::ShowOne => show(alloc, &*state, out),
        Kind::Decide { list, packet } => {
            decide(alloc, at, list, packet.as_slice(), &*state, out)
        }
        _ => Err(refuse_line(alloc, at, Reason::NotBuilt, out)),
    }
}
