ghost use Rattle.std.specs.Prelude.{◌≡◌, ◌≢◌, ◌+◌, ◌≤◌, ◌∷◌, ◌++◌, [], ℕ, List, Option, Some, IfSome, IfOk, OnOk, OnErr};
ghost use Rattle.std.specs.Io.{ReadsAtMost};
ghost use Rattle.std.specs.Io.KnownBytes.{ReadConsumes};
ghost use Rattle.mg_outside.specs.Faults.{Counted, Rose};
ghost use Rattle.mg_outside.specs.Logs.{FolderLog};

use crate::failed::Failed;

/// Why a file is not opened.
#[derive(Clone, Copy, Debug, Drop, PartialEq, Eq)]
pub enum OpenFault {
    /// There is no such file, or the system refused it.
    Failed,
    /// There was no memory for a note of the name, and nothing was opened.
    NoMemory,
}

/// Files that are opened by name and read a piece at a time: what `DiskFiles` stands on.
pub trait Folder {
    /// A file that was opened.
    type Opened: Drop;

    /// The bytes that a file holds, where they are told.
    ghost holds: { Self → List ℕ → Option (List ℕ) };

    /// The bytes that an opened file has left to give, where they are told.
    ghost left: { Self.Opened → Option (List ℕ) };

    /// The names that were to be opened, how many bytes its files have given, and how often a call has failed.
    ghost log: { Self → FolderLog };

    /// Opens the file of this name, of which nothing is read yet.
    fn open(&mut self, name: &str) -> Result<Self::Opened, OpenFault>
        ensures whole { IfOk result
            (λ opened. IfSome (holds self.old name.now) (λ bytes. left opened ≡ Some bytes)) }
        ensures named { result ≢ Err OpenFault.NoMemory
            → (log self.new).names ≡ (log self.old).names ++ name.now ∷ [] }
        ensures not_named { result ≡ Err OpenFault.NoMemory
            → (log self.new).names ≡ (log self.old).names }
        ensures given { (log self.new).given ≡ (log self.old).given }
        ensures failed { result ≡ Err OpenFault.Failed
            → Rose (log self.old).faults (log self.new).faults }
        ensures no_fault { result ≢ Err OpenFault.Failed
            → (log self.new).faults ≡ (log self.old).faults }
        ensures at_most_one { (log self.new).faults ≤ (log self.old).faults + 1 }
        ensures later { (log self.old).faults ≤ (log self.new).faults }
        ensures same { (other : List ℕ) → holds self.new other ≡ holds self.old other };

    /// Puts the next bytes of the file at the front of the piece, and says how many: none only at the file's end, or
    /// where the piece has no room.
    fn read_some(&mut self, opened: &mut Self::Opened, piece: &mut [u8]) -> Result<usize, Failed>
        ensures within { ReadsAtMost result piece.new }
        ensures bytes { ReadConsumes (left opened.old) (left opened.new) result piece.new }
        ensures given { IfOk result
            (λ count. Counted count (log self.old).given (log self.new).given) }
        ensures named { (log self.new).names ≡ (log self.old).names }
        ensures failed { OnErr result (Rose (log self.old).faults (log self.new).faults) }
        ensures no_fault { OnOk result ((log self.new).faults ≡ (log self.old).faults) }
        ensures at_most_one { (log self.new).faults ≤ (log self.old).faults + 1 }
        ensures later { (log self.old).faults ≤ (log self.new).faults }
        ensures same { (other : List ℕ) → holds self.new other ≡ holds self.old other };
}
