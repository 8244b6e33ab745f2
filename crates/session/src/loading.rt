ghost use Rattle.std.specs.Prelude.{◌≡◌, ◌∷◌, [], ℕ, List, false, OnOk, IfErr};
ghost use Rattle.mg_outside.specs.Effects.{HasWritten, Performs};
ghost use Rattle.session.specs.Endings.{CutsOrWants, IsCarriedOut};
ghost use Rattle.session.specs.Kept.{adding};
ghost use Rattle.session.specs.Run.{EndsAt, IsCutShort};
ghost use Rattle.query_lang.specs.declared.script.Kind.TheVariants as kind;
ghost use Rattle.session.specs.Text.{router_line};

use crate::counts::counts_of;
use crate::ended::{Cause, Reason};
use crate::endings::{Line, end_unread, refuse, refuse_line, write};
use crate::state::State;
use crate::text::loaded_text;
use ios_config::{ConfigFault, Router};
use ios_lex::Word;
use mg_outside::{Files, Sink};
use std::alloc::Global;

/// The most bytes of a file that is read; a longer one is refused as a whole.
pub const MAX_BYTES: u64 = 4_194_304;

/// LOAD IOS: reads the file, and adds the router under its name.
pub fn load<F: Files, S: Sink>(
    alloc: Global,
    at: &Line<'_>,
    file: &str,
    name: &str,
    state: &mut State,
    files: &mut F,
    out: &mut S,
) -> Result<(), Cause>
    ensures carried { OnOk result (IsCarriedOut
        (F.holds files.old) state.old (kind.LoadIos file.now name.now) state.new
        (F.log files.old) (F.log files.new) (S.log out.old) (S.log out.new)) }
    ensures stopped { IfErr result (Performs
        (EndsAt IsCutShort at.now.script.now (F.holds files.old) at.now.number
        state.old (kind.LoadIos file.now name.now))
        (F.log files.old) (F.log files.new) (S.log out.old) (S.log out.new)) }
    ensures same { (other : List ℕ) → F.holds files.new other ≡ F.holds files.old other }
{
    if state.is_taken(name) {
        return Err(refuse_line(alloc, at, Reason::Duplicate, out));
    }
    let bytes = match files.read(alloc, file, MAX_BYTES) {
        Ok(bytes) => bytes,
        Err(fault) => return Err(end_unread(alloc, file, fault, out)),
    };
    match state.read_router(alloc, bytes.as_slice()) {
        Ok(router) => add_router(alloc, name, router, state, out),
        Err(ConfigFault::At { line, reason }) => Err(refuse(
            alloc,
            file,
            line,
            Reason::of_ios(reason),
            out,
        )),
        Err(ConfigFault::NoMemory) => Err(Cause::NoMemory),
    }
}

/// Adds a router that was read, whose names are known, and says so.
fn add_router<S: Sink>(
    alloc: Global,
    name: &str,
    router: Router,
    state: &mut State,
    out: &mut S,
) -> Result<(), Cause>
    ensures added { OnOk result (state.new ≡ adding state.old name.now router) }
    ensures written { OnOk result
        (HasWritten (S.log out.old) (S.log out.new) (router_line name.now router ∷ []) false) }
    ensures cut { IfErr result
        (CutsOrWants (S.log out.old) (S.log out.new) (router_line name.now router)) }
{
    let Ok(text) = loaded_text(alloc, name, counts_of(&router)) else {
        return Err(Cause::NoMemory);
    };
    let Ok(word) = Word::of(alloc, name.as_bytes()) else {
        return Err(Cause::NoMemory);
    };
    if state.load(word, router).is_err() {
        return Err(Cause::NoMemory);
    }
    write(out, text.as_bytes())
}
