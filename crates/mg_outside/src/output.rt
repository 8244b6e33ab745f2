ghost use Rattle.std.specs.Prelude.{◌≡◌, ◌+◌, ◌<◌, ◌≤◌, ℕ, List, Option, IfOk, OnOk, OnErr, length, take};
ghost use Rattle.std.specs.Io.{WritesAtMost};
ghost use Rattle.mg_outside.specs.Faults.{Rose};
ghost use Rattle.mg_outside.specs.Taking.{Takes};

use crate::failed::Failed;

/// What takes a front of the bytes at a time: what `StdSink` stands on.
pub trait Output {
    /// The bytes that it has taken, where they are told.
    ghost taken: { Self → Option (List ℕ) };

    /// How often a call has failed.
    ghost faults: { Self → ℕ };

    /// Takes a front of the bytes, of which there are some, and says how many they are. An output that takes none of
    /// them fails, and counts it.
    fn write_some(&mut self, bytes: &[u8]) -> Result<usize, Failed>
        requires { 0 < length bytes.now }
        ensures within { WritesAtMost result bytes.now }
        ensures some { IfOk result (λ count. 0 < count) }
        ensures front { IfOk result
            (λ count. Takes (taken self.old) (taken self.new) (take count bytes.now)) }
        ensures none { OnErr result (taken self.new ≡ taken self.old) }
        ensures failed { OnErr result (Rose (faults self.old) (faults self.new)) }
        ensures no_fault { OnOk result (faults self.new ≡ faults self.old) }
        ensures at_most_one { faults self.new ≤ faults self.old + 1 }
        ensures later { faults self.old ≤ faults self.new };
}
