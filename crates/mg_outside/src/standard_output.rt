ghost use Rattle.std.specs.Prelude.{◌≡◌, ◌<◌, Ok, IfOk, OnErr};

use crate::failed::{Failed, counted};
use crate::output::Output;
use std::io;
use std::io::Print;
use std::marker::Model;

/// The real standard output. It tells no bytes: that its one call writes them, no contract says.
#[derive(Drop)]
pub struct StandardOutput<'a, P> {
    out: &'a P,
    faults: u64,
}

impl<'a, P> Model for StandardOutput<'a, P> {
    ghost use Rattle.std.specs.Prelude.{ℕ};

    ghost Value = { ℕ };

    ghost view = { λ s. s.faults };
}

impl<'a, P: Print> StandardOutput<'a, P> {
    pub(crate) fn new(out: &'a P) -> StandardOutput<'a, P>
        ensures { result ≡ 0 }
    {
        StandardOutput { out, faults: 0 }
    }
}

/// The system's answer, where to take none of some bytes is to refuse them.
fn unless_none(answer: io::Result<usize>) -> Result<usize, Failed>
    ensures ok { IfOk result (λ count. (answer ≡ Ok count) × (0 < count)) }
    ensures err { OnErr result (IfOk answer (λ count. count ≡ 0)) }
{
    match answer {
        Ok(count) if count > 0 => Ok(count),
        _ => Err(Failed),
    }
}

impl<P: Print> Output for StandardOutput<'_, P> {
    ghost use Rattle.std.specs.Prelude.{None};

    ghost taken = { λ _. None };

    ghost faults = { λ s. s };

    fn write_some(&mut self, bytes: &[u8]) -> Result<usize, Failed> {
        counted(unless_none(self.out.write_some(bytes)), &mut self.faults)
    }
}
