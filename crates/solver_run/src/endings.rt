ghost use Rattle.std.specs.Prelude.{◌≡◌};
ghost use Rattle.solver_run.specs.Inside.Endings.{EndsUnread, Says};
ghost use Rattle.solver_run.specs.RunLines.{fault_line, refused_line, store_line};
ghost use Rattle.solver_run.specs.declared.cause.Cause.TheVariants as cause;

use crate::cause::Cause;
use crate::reason::Reason;
use crate::run_lines::{fault_text, refused_text, store_text};
use crate::unread::Unread;
use mg_outside::{Sink, SinkFault};
use std::alloc::Global;

/// Writes the text of a run that ends so.
pub fn say<S: Sink>(out: &mut S, text: &[u8], end: Cause) -> Cause
    ensures { Says (S.log out.old) (S.log out.new) end text.now result }
{
    match out.write_all(text) {
        Ok(()) => end,
        Err(SinkFault::Failed) => Cause::WriteFault,
        Err(SinkFault::NoMemory) => Cause::NoMemory,
    }
}

/// Ends the run with a file that gave no value.
pub fn end_unread<S: Sink>(alloc: Global, file: &str, why: Unread, out: &mut S) -> Cause
    ensures { EndsUnread file.now why (S.log out.old) (S.log out.new) result }
{
    match why {
        Unread::Failed => fail(alloc, file, out),
        Unread::Refused { line, reason } => refuse(alloc, file, line, reason, out),
        Unread::NoMemory => Cause::NoMemory,
    }
}

/// Ends the run with the refusal of a line of a file; line 0 is the file as a whole.
pub fn refuse<S: Sink>(alloc: Global, file: &str, line: u64, reason: Reason, out: &mut S) -> Cause
    ensures { Says (S.log out.old) (S.log out.new)
        cause.Refused (refused_line file.now line reason) result }
{
    let Ok(text) = refused_text(alloc, file, line, reason) else {
        return Cause::NoMemory;
    };
    say(out, text.as_bytes(), Cause::Refused)
}

/// Ends the run with a read that failed.
fn fail<S: Sink>(alloc: Global, file: &str, out: &mut S) -> Cause
    ensures { Says (S.log out.old) (S.log out.new) cause.ReadFault (fault_line file.now) result }
{
    let Ok(text) = fault_text(alloc, file) else {
        return Cause::NoMemory;
    };
    say(out, text.as_bytes(), Cause::ReadFault)
}

/// Ends the run with a file that was not stored.
pub fn fail_to_store<S: Sink>(alloc: Global, file: &str, out: &mut S) -> Cause
    ensures { Says (S.log out.old) (S.log out.new) cause.StoreFault (store_line file.now) result }
{
    let Ok(text) = store_text(alloc, file) else {
        return Cause::NoMemory;
    };
    say(out, text.as_bytes(), Cause::StoreFault)
}
