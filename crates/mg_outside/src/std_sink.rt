ghost use Rattle.std.specs.Prelude.{◌≡◌};

use crate::output::Output;
use crate::sink::{Sink, SinkFault};
use crate::standard_output::StandardOutput;
use std::io::Print;
use std::marker::Model;

/// A sink over an output, which in the program is the real standard output. It tells what the output tells, and fails
/// only where the output did, so never where there are no bytes.
#[derive(Drop)]
pub struct StdSink<O> {
    out: O,
    writes: u64,
}

impl<O> Model for StdSink<O> {
    ghost use Rattle.std.specs.Prelude.{ℕ};
    ghost use Rattle.mg_outside.specs.Logs.{Over};

    ghost Value = { Over O };

    ghost view = { λ s. record { output = s.out; writes = s.writes } };
}

impl<'a, P: Print> StdSink<StandardOutput<'a, P>> {
    /// The standard output of this runtime. Only `main` and a test call it.
    pub fn new(out: &'a P) -> StdSink<StandardOutput<'a, P>>
        ensures { result ≡ record { output = 0; writes = 0 } }
    {
        StdSink::over(StandardOutput::new(out))
    }
}

impl<O: Output> StdSink<O> {
    /// A sink over this output.
    pub fn over(out: O) -> StdSink<O>
        ensures { result ≡ record { output = out; writes = 0 } }
    {
        StdSink { out, writes: 0 }
    }
}

impl<O: Output> Sink for StdSink<O> {
    ghost use Rattle.std.specs.Prelude.{◌≡◌, ◌≢◌, ◌+◌, ◌≤◌, Ok, [], OnOk, OnErr};
    ghost use Rattle.mg_outside.specs.Faults.{Rose, one_more};
    ghost use Rattle.mg_outside.specs.Taking.{Takes, TakesFront};

    ghost log = { λ s. record {
      taken = O.taken s.output;
      writes = s.writes;
      faults = O.faults s.output;
    } };

    fn write_all(&mut self, bytes: &[u8]) -> Result<(), SinkFault>
        ensures ok { OnOk result
            (Takes (O.taken self.old.output) (O.taken self.new.output) bytes.now) }
        ensures err { OnErr result
            (TakesFront (O.taken self.old.output) (O.taken self.new.output) bytes.now) }
        ensures counted { self.new.writes ≡ one_more self.old.writes }
        ensures failed { result ≡ Err SinkFault.Failed
            → Rose (O.faults self.old.output) (O.faults self.new.output) }
        ensures no_fault { result ≢ Err SinkFault.Failed
            → O.faults self.new.output ≡ O.faults self.old.output }
        ensures at_most_one { O.faults self.new.output ≤ O.faults self.old.output + 1 }
        ensures later { O.faults self.old.output ≤ O.faults self.new.output }
        ensures takes_no_memory { result ≢ Err SinkFault.NoMemory }
        ensures empty { bytes.now ≡ [] → result ≡ Ok tt }
    {
        self.writes = self.writes.saturating_add(1);
        let mut rest = bytes;
        while !rest.is_empty() {
            let Ok(count) = self.out.write_some(rest) else {
                return Err(SinkFault::Failed);
            };
            rest = &rest[count..];
        }
        Ok(())
    }
}
