ghost use Rattle.std.specs.Prelude.{◌≡◌, ◌∷◌, [], false, OnOk, IfErr};
ghost use Rattle.mg_outside.specs.Effects.{HasWritten};
ghost use Rattle.session.specs.Endings.{CutsPiece, EndsRefused, EndsUnread, IsTold, Says, cause_of};
ghost use Rattle.session.specs.RunLines.{fault_line};

use crate::ended::{Cause, Reason};
use crate::run_lines::{fault_text, refused_text};
use mg_outside::{FileFault, Sink, SinkFault};
use sorted_logic::Text;
use std::alloc::Global;

/// A line of the script.
#[derive(Drop)]
pub struct Line<'a> {
    pub script: &'a str,
    /// From 1.
    pub number: u64,
}

/// Writes a text of a run that goes on.
pub fn write<S: Sink>(out: &mut S, text: &[u8]) -> Result<(), Cause>
    ensures written { OnOk result
        (HasWritten (S.log out.old) (S.log out.new) (text.now ∷ []) false) }
    ensures cut { IfErr result (CutsPiece (S.log out.old) (S.log out.new) text.now) }
{
    match out.write_all(text) {
        Ok(()) => Ok(()),
        Err(fault) => Err(cause_of(fault)),
    }
}

/// Writes the last text of a run that ends so.
pub fn say<S: Sink>(out: &mut S, text: &[u8], end: Cause) -> Cause
    requires { IsTold end }
    ensures { Says (S.log out.old) (S.log out.new) end text.now result }
{
    match out.write_all(text) {
        Ok(()) => end,
        Err(fault) => cause_of(fault),
    }
}

/// The cause that a refused write is.
pub fn cause_of(fault: SinkFault) -> Cause
    ensures { result ≡ cause_of fault }
{
    match fault {
        SinkFault::Failed => Cause::WriteFault,
        SinkFault::NoMemory => Cause::NoMemory,
    }
}

/// Ends the run with the refusal of a line of a file; line 0 is the file as a whole.
pub fn refuse<S: Sink>(alloc: Global, file: &str, line: u64, reason: Reason, out: &mut S) -> Cause
    ensures { EndsRefused file.now line reason (S.log out.old) (S.log out.new) result }
{
    let Ok(text) = refused_text(alloc, file, line, &reason) else {
        return Cause::NoMemory;
    };
    let Ok(name) = Text::of(alloc, file) else {
        return Cause::NoMemory;
    };
    let end = Cause::Refused {
        file: name,
        line,
        reason,
    };
    say(out, text.as_slice(), end)
}

/// Ends the run with the refusal of a line of the script.
pub fn refuse_line<S: Sink>(alloc: Global, at: &Line<'_>, reason: Reason, out: &mut S) -> Cause
    ensures { EndsRefused at.now.script.now at.now.number reason
        (S.log out.old) (S.log out.new) result }
{
    refuse(alloc, at.script, at.number, reason, out)
}

/// Ends the run with a file that was not read.
pub fn end_unread<S: Sink>(alloc: Global, file: &str, fault: FileFault, out: &mut S) -> Cause
    ensures { EndsUnread file.now fault (S.log out.old) (S.log out.new) result }
{
    match fault {
        FileFault::Failed => fail(alloc, file, out),
        FileFault::TooLong { given } => refuse(alloc, file, 0, Reason::TooLong { given }, out),
        FileFault::NoMemory => Cause::NoMemory,
    }
}

/// Ends the run with a read that failed.
fn fail<S: Sink>(alloc: Global, file: &str, out: &mut S) -> Cause
    ensures { Says (S.log out.old) (S.log out.new)
        (Cause.ReadFault file.now) (fault_line file.now) result }
{
    let Ok(text) = fault_text(alloc, file) else {
        return Cause::NoMemory;
    };
    let Ok(name) = Text::of(alloc, file) else {
        return Cause::NoMemory;
    };
    say(out, text.as_bytes(), Cause::ReadFault { file: name })
}
