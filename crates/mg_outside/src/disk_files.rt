ghost use Rattle.std.specs.Prelude.{◌≡◌, ◌≢◌, ◌+◌, ◌≤◌, ℕ, List, IfOk, IfErr, length};
ghost use Rattle.mg_outside.specs.Faults.{Counted, Rose};
ghost use Rattle.mg_outside.specs.Reading.{Explains, Gives};

use crate::disk::Disk;
use crate::failed::Failed;
use crate::files::{FileFault, Files};
use crate::folder::{Folder, OpenFault};
use std::alloc::Global;
use std::marker::Model;

/// How many bytes are asked for at a time.
const PIECE: usize = 4096;

/// The files of a folder, which in the program is the real file system. They tell what the folder tells. A read opens
/// the file and takes its pieces; it fails only where one of these calls did. The folder has one count of faults, which
/// is that of each name.
#[derive(Drop)]
pub struct DiskFiles<D> {
    folder: D,
}

impl<D> Model for DiskFiles<D> {
    ghost Value = { D };

    ghost view = { λ d. d.folder };
}

impl<'a, R: std::rt::Files> DiskFiles<Disk<'a, R>> {
    ghost use Rattle.std.specs.Prelude.{[]};

    /// The real files of this runtime. Only `main` and a test call it.
    pub fn new(alloc: Global, rt: &'a R) -> DiskFiles<Disk<'a, R>>
        ensures { result ≡ record { names = []; given = 0; faults = 0 } }
    {
        DiskFiles::over(Disk::new(alloc, rt))
    }
}

impl<D: Folder> DiskFiles<D> {
    /// The files of this folder.
    pub fn over(folder: D) -> DiskFiles<D>
        ensures { result ≡ folder }
    {
        DiskFiles { folder }
    }
}

/// Reads what an opened file has left, or stops with the first piece by which more than `max` bytes have come.
fn read_to_end<D: Folder>(
    alloc: Global,
    folder: &mut D,
    opened: &mut D::Opened,
    max: u64,
) -> Result<Vec<u8>, FileFault>
    ensures bytes { IfOk result (λ bytes. Gives (D.left opened.old) max bytes.items) }
    ensures too_long { IfErr result (Explains (D.left opened.old) max) }
    ensures names { (D.log folder.new).names ≡ (D.log folder.old).names }
    ensures given { IfOk result
        (λ bytes. Counted (length bytes.items) (D.log folder.old).given (D.log folder.new).given) }
    ensures given_too_long { (given : ℕ) → result ≡ Err (FileFault.TooLong given)
        → Counted given (D.log folder.old).given (D.log folder.new).given }
    ensures one_piece { (given : ℕ) → result ≡ Err (FileFault.TooLong given) → given ≤ max + 4096 }
    ensures failed { result ≡ Err FileFault.Failed
        → Rose (D.log folder.old).faults (D.log folder.new).faults }
    ensures no_fault { result ≢ Err FileFault.Failed
        → (D.log folder.new).faults ≡ (D.log folder.old).faults }
    ensures at_most_one { (D.log folder.new).faults ≤ (D.log folder.old).faults + 1 }
    ensures later { (D.log folder.old).faults ≤ (D.log folder.new).faults }
    ensures same { (other : List ℕ) → D.holds folder.new other ≡ D.holds folder.old other }
{
    let mut bytes = Vec::new(alloc);
    let mut piece = [0u8; PIECE];
    while bytes.len() as u64 <= max {
        let Ok(count) = folder.read_some(opened, &mut piece) else {
            return Err(FileFault::Failed);
        };
        if count == 0 {
            return Ok(bytes);
        }
        if bytes.extend_from_slice(&piece[..count]).is_err() {
            return Err(FileFault::NoMemory);
        }
    }
    Err(FileFault::TooLong {
        given: bytes.len() as u64,
    })
}

impl<D: Folder> Files for DiskFiles<D> {
    ghost use Rattle.std.specs.Prelude.{◌≡◌, ◌≢◌, ◌+◌, ◌≤◌, ◌∷◌, ◌++◌, [], ℕ, List, IfOk, IfErr, length};
    ghost use Rattle.mg_outside.specs.Faults.{Counted, Rose};
    ghost use Rattle.mg_outside.specs.Reading.{AddsAtMost, Explains, Gives};

    ghost holds = { λ d name. D.holds d name };

    ghost log = { λ d. record { names = (D.log d).names; faults = λ _. (D.log d).faults } };

    fn read(&mut self, alloc: Global, name: &str, max: u64) -> Result<Vec<u8>, FileFault>
        ensures bytes { IfOk result (λ bytes. Gives (D.holds self.old name.now) max bytes.items) }
        ensures too_long { IfErr result (Explains (D.holds self.old name.now) max) }

        // The names that were to be opened: this one once, and nothing where memory for a note of it is wanting.
        ensures named { result ≢ Err FileFault.NoMemory
            → (D.log self.new).names ≡ (D.log self.old).names ++ name.now ∷ [] }
        ensures named_at_most { AddsAtMost (D.log self.old).names name.now (D.log self.new).names }

        // How many bytes were asked of the folder: those that are given, and of a longer file those that are counted, no
        // more than a piece past the limit.
        ensures given { IfOk result
            (λ bytes. Counted (length bytes.items) (D.log self.old).given (D.log self.new).given) }
        ensures given_too_long { (given : ℕ) → result ≡ Err (FileFault.TooLong given)
            → Counted given (D.log self.old).given (D.log self.new).given }
        ensures one_piece { (given : ℕ) → result ≡ Err (FileFault.TooLong given)
            → given ≤ max + 4096 }

        ensures failed { result ≡ Err FileFault.Failed
            → Rose (D.log self.old).faults (D.log self.new).faults }
        ensures no_fault { result ≢ Err FileFault.Failed → (other : List ℕ)
            → (D.log self.new).faults ≡ (D.log self.old).faults }
        ensures at_most_one { (other : List ℕ)
            → (D.log self.new).faults ≤ (D.log self.old).faults + 1 }
        ensures later { (other : List ℕ) → (D.log self.old).faults ≤ (D.log self.new).faults }
        ensures same { (other : List ℕ) → D.holds self.new other ≡ D.holds self.old other }
    {
        match self.folder.open(name) {
            Ok(mut opened) => read_to_end(alloc, &mut self.folder, &mut opened, max),
            Err(OpenFault::Failed) => Err(FileFault::Failed),
            Err(OpenFault::NoMemory) => Err(FileFault::NoMemory),
        }
    }
}
