ghost use Rattle.std.specs.Prelude.{◌≡◌, ◌≢◌, ◌+◌, ◌≤◌, OnOk, OnErr};
ghost use Rattle.mg_outside.specs.Faults.{Rose, one_more};
ghost use Rattle.mg_outside.specs.Logs.{SinkLog};
ghost use Rattle.mg_outside.specs.Taking.{Takes, TakesFront};

/// Why bytes are not taken.
#[derive(Clone, Copy, Debug, Drop, PartialEq, Eq)]
pub enum SinkFault {
    /// The sink refused them.
    Failed,
    /// There was no memory for them.
    NoMemory,
}

/// What takes the bytes that are written.
pub trait Sink {
    /// The bytes that it has taken, where they are told, how many writes there were, and how many of them failed.
    ghost log: { Self → SinkLog };

    /// Takes the bytes, all of them or, where it fails, a front of them.
    fn write_all(&mut self, bytes: &[u8]) -> Result<(), SinkFault>
        ensures ok { OnOk result (Takes (log self.old).taken (log self.new).taken bytes.now) }
        ensures err { OnErr result
            (TakesFront (log self.old).taken (log self.new).taken bytes.now) }
        ensures no_memory { result ≡ Err SinkFault.NoMemory
            → (log self.new).taken ≡ (log self.old).taken }
        ensures counted { (log self.new).writes ≡ one_more (log self.old).writes }
        ensures failed { result ≡ Err SinkFault.Failed
            → Rose (log self.old).faults (log self.new).faults }
        ensures no_fault { result ≢ Err SinkFault.Failed
            → (log self.new).faults ≡ (log self.old).faults }
        ensures at_most_one { (log self.new).faults ≤ (log self.old).faults + 1 }
        ensures later { (log self.old).faults ≤ (log self.new).faults };
}
