use mg_outside::{FileFault, Files};
use std::alloc::{AllocError, Global};

/// What stands under a name.
#[derive(Clone, Copy, Debug, PartialEq, Eq)]
pub enum Standing {
    Nothing,
    Folder,
    File,
    /// Something else, as a pipe or a device, or nobody can tell.
    Other,
}

/// Tells what stands under names.
pub trait Names {
    fn standing(&self, name: &str) -> Standing;
}

/// The most bytes of a file that are read.
const MOST_BYTES: u64 = 4_194_304;

/// The bytes of a file, once more. None where they can't be had: what is no plain file is not read again, since a pipe would
/// have nothing left to give.
pub(crate) fn bytes_of<F: Files, N: Names>(
    alloc: Global,
    files: &mut F,
    names: &N,
    file: &str,
) -> Result<Option<Vec<u8>>, AllocError> {
    if names.standing(file) != Standing::File {
        return Ok(None);
    }
    match files.read(alloc, file, MOST_BYTES) {
        Ok(bytes) => Ok(Some(bytes)),
        Err(FileFault::NoMemory) => Err(AllocError),
        Err(FileFault::Failed | FileFault::TooLong { .. }) => Ok(None),
    }
}
