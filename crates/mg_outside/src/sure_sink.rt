ghost use Rattle.std.specs.Prelude.{◌≡◌, []};

use crate::sink::{Sink, SinkFault};
use std::alloc::Global;
use std::marker::Model;

/// A sink in memory that never fails.
#[derive(Drop)]
pub struct SureSink {
    bytes: Vec<u8>,
    writes: u64,
}

impl Model for SureSink {
    ghost use Rattle.mg_outside.specs.Memory.{HeldSureSink};

    ghost Value = { HeldSureSink };

    ghost view = { λ s. record { bytes = s.bytes.items; writes = s.writes } };
}

impl SureSink {
    pub fn new(alloc: Global) -> SureSink
        ensures { result ≡ record { bytes = []; writes = 0 } }
    {
        SureSink {
            bytes: Vec::new(alloc),
            writes: 0,
        }
    }

    /// All that was taken.
    pub fn bytes(&self) -> &[u8]
        ensures { result.now ≡ self.now.bytes }
    {
        self.bytes.as_slice()
    }
}

impl Sink for SureSink {
    ghost use Rattle.std.specs.Prelude.{Some};

    ghost log = { λ s. record { taken = Some s.bytes; writes = s.writes; faults = 0 } };

    fn write_all(&mut self, bytes: &[u8]) -> Result<(), SinkFault> {
        self.writes = self.writes.saturating_add(1);
        match self.bytes.extend_from_slice(bytes) {
            Ok(()) => Ok(()),
            Err(_) => Err(SinkFault::NoMemory),
        }
    }
}
