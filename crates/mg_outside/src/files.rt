ghost use Rattle.std.specs.Prelude.{◌≡◌, ◌≢◌, ◌+◌, ◌≤◌, ◌∷◌, ◌++◌, [], ℕ, List, Option, IfOk, IfErr};
ghost use Rattle.mg_outside.specs.Faults.{Rose};
ghost use Rattle.mg_outside.specs.Logs.{FileLog};
ghost use Rattle.mg_outside.specs.Reading.{AddsAtMost, Explains, Gives};

use std::alloc::Global;

/// Why a file is not read.
#[derive(Clone, Copy, Debug, Drop, PartialEq, Eq)]
pub enum FileFault {
    /// The read failed: there is no such file, or the system refused it.
    Failed,
    /// The file has more bytes than were asked for; `given` of them were counted.
    TooLong { given: u64 },
    /// There was no memory for the bytes, or for a note of the name.
    NoMemory,
}

/// Files that are read whole, by name.
pub trait Files {
    /// The bytes that a file holds, where they are told.
    ghost holds: { Self → List ℕ → Option (List ℕ) };

    /// The names that were read, in order, and how often reads of a name have failed.
    ghost log: { Self → FileLog };

    /// The bytes of the file of this name, which are at most `max`.
    fn read(&mut self, alloc: Global, name: &str, max: u64) -> Result<Vec<u8>, FileFault>
        ensures bytes { IfOk result (λ bytes. Gives (holds self.old name.now) max bytes.items) }
        ensures too_long { IfErr result (Explains (holds self.old name.now) max) }

        // Which names were read. Where memory for a note of the name is wanting, nothing was read.
        ensures named { result ≢ Err FileFault.NoMemory
            → (log self.new).names ≡ (log self.old).names ++ name.now ∷ [] }
        ensures named_at_most { AddsAtMost (log self.old).names name.now (log self.new).names }

        // Which reads failed.
        ensures failed { result ≡ Err FileFault.Failed
            → Rose ((log self.old).faults name.now) ((log self.new).faults name.now) }
        ensures no_fault { result ≢ Err FileFault.Failed → (other : List ℕ)
            → (log self.new).faults other ≡ (log self.old).faults other }
        ensures at_most_one { (other : List ℕ)
            → (log self.new).faults other ≤ (log self.old).faults other + 1 }
        ensures later { (other : List ℕ)
            → (log self.old).faults other ≤ (log self.new).faults other }
        ensures same { (other : List ℕ) → holds self.new other ≡ holds self.old other };
}
