ghost use Rattle.std.specs.Prelude.{◌≡◌, ◌∷◌, ◌++◌, [], OnOk, OnErr, IfErr, take};
ghost use Rattle.mg_outside.specs.Memory.{limit_of};

use crate::sink::{Sink, SinkFault};
use std::alloc::{AllocError, Global};
use std::marker::Model;

/// A sink in memory. A write fails where it is told to, by its number.
#[derive(Drop)]
pub struct MemSink {
    bytes: Vec<u8>,
    failing: Vec<(u64, u64)>,
    writes: u64,
    faults: u64,
}

impl Model for MemSink {
    ghost use Rattle.mg_outside.specs.Memory.{HeldSink};

    ghost Value = { HeldSink };

    ghost view = { λ s. record {
      bytes = s.bytes.items;
      failing = s.failing.items;
      writes = s.writes;
      faults = s.faults;
    } };
}

impl MemSink {
    pub fn new(alloc: Global) -> MemSink
        ensures { result ≡ record { bytes = []; failing = []; writes = 0; faults = 0 } }
    {
        MemSink {
            bytes: Vec::new(alloc),
            failing: Vec::new(alloc),
            writes: 0,
            faults: 0,
        }
    }

    /// Makes the write of this number, counted from 1, take `after` bytes, or all where it has fewer, and fail.
    pub fn fail_at(&mut self, call: u64, after: u64) -> Result<(), AllocError>
        ensures ok { OnOk result
            (self.new ≡ record self.old { failing = self.old.failing ++ (call, after) ∷ [] }) }
        ensures err { OnErr result (self.new ≡ self.old) }
    {
        self.failing.push((call, after))?;
        Ok(())
    }

    /// All that was taken.
    pub fn bytes(&self) -> &[u8]
        ensures { result.now ≡ self.now.bytes }
    {
        self.bytes.as_slice()
    }
}

/// After how many bytes the write of this number is to fail.
fn limit(failing: &[(u64, u64)], number: u64) -> Option<u64>
    ensures { result ≡ limit_of number failing.now }
{
    for (at, after) in failing {
        if *at == number {
            return Some(*after);
        }
    }
    None
}

/// Takes the bytes, all of them.
fn take_all(taken: &mut Vec<u8>, bytes: &[u8]) -> Result<(), SinkFault>
    ensures ok { OnOk result (taken.new.items ≡ taken.old.items ++ bytes.now) }
    ensures err { OnErr result (taken.new.items ≡ taken.old.items) }
    ensures cause { IfErr result (λ fault. fault ≡ SinkFault.NoMemory) }
{
    match taken.extend_from_slice(bytes) {
        Ok(()) => Ok(()),
        Err(_) => Err(SinkFault::NoMemory),
    }
}

/// The first bytes, so many of them or all.
fn front(bytes: &[u8], max: u64) -> &[u8]
    ensures { result.now ≡ take max bytes.now }
{
    if max < bytes.len() as u64 {
        &bytes[..max as usize]
    } else {
        bytes
    }
}

impl Sink for MemSink {
    ghost use Rattle.std.specs.Prelude.{◌≡◌, ◌≤◌, Some, None, take, OnOk, OnErr, IsNone, IsSomeAnd};
    ghost use Rattle.mg_outside.specs.Faults.{Rose, one_more};
    ghost use Rattle.mg_outside.specs.Taking.{Takes, TakesFront};
    ghost use Rattle.mg_outside.specs.Memory.{HeldSink, next_limit, after_write, after_failure};

    ghost log = { λ s. record { taken = Some s.bytes; writes = s.writes; faults = s.faults } };

    fn write_all(&mut self, bytes: &[u8]) -> Result<(), SinkFault>
        ensures ok { OnOk result (Takes (Some self.old.bytes) (Some self.new.bytes) bytes.now) }
        ensures err { OnErr result
            (TakesFront (Some self.old.bytes) (Some self.new.bytes) bytes.now) }
        ensures failed { result ≡ Err SinkFault.Failed → Rose self.old.faults self.new.faults }
        ensures counted { self.new.writes ≡ one_more self.old.writes }
        ensures later { self.old.faults ≤ self.new.faults }
        ensures after_ok { OnOk result
            (IsNone (next_limit self.old) × (self.new ≡ after_write self.old bytes.now)) }
        ensures after_failure { result ≡ Err SinkFault.Failed → IsSomeAnd (next_limit self.old)
            (λ limit. self.new ≡ after_failure self.old (take limit bytes.now)) }
        ensures after_no_memory { result ≡ Err SinkFault.NoMemory
            → self.new ≡ record self.old { writes = one_more self.old.writes } }
    {
        self.writes = self.writes.saturating_add(1);
        match limit(self.failing.as_slice(), self.writes) {
            None => take_all(&mut self.bytes, bytes),
            Some(limit) => {
                take_all(&mut self.bytes, front(bytes, limit))?;
                self.faults = self.faults.saturating_add(1);
                Err(SinkFault::Failed)
            }
        }
    }
}
