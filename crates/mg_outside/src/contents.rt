ghost use Rattle.std.specs.Prelude.{◌≡◌, ◌<◌, ◌≤◌, ◌≢◌, ◌∷◌, [], length, Some, IfOk, IfErr, OnOk, OnErr, option_map};
ghost use Rattle.mg_outside.specs.Reading.{Explains};
ghost use Rattle.mg_outside.specs.Memory.{bytes_under};

use crate::files::FileFault;
use std::alloc::{AllocError, Global};
use std::marker::Model;

/// A name and the bytes under it.
#[derive(Drop)]
pub(crate) struct Entry {
    name: Vec<u8>,
    bytes: Vec<u8>,
}

impl Model for Entry {
    ghost use Rattle.std.specs.Prelude.{List, ℕ};

    ghost Value = { List ℕ × List ℕ };

    ghost view = { λ e. (e.name.items, e.bytes.items) };
}

impl Entry {
    fn new(alloc: Global, name: &str, bytes: &[u8]) -> Result<Entry, AllocError>
        ensures { IfOk result (λ entry. entry ≡ (name.now, bytes.now)) }
    {
        Ok(Entry {
            name: Vec::from_slice(alloc, name.as_bytes())?,
            bytes: Vec::from_slice(alloc, bytes)?,
        })
    }

    /// A copy of the bytes, unless there are more than `max`.
    pub(crate) fn read(&self, alloc: Global, max: u64) -> Result<Vec<u8>, FileFault>
        ensures bytes { IfOk result (λ bytes. bytes.items ≡ self.now.1) }
        ensures within { IfOk result (λ bytes. length bytes.items ≤ max) }
        ensures too_long { IfErr result (Explains (Some self.now.1) max) }
        ensures long { max < length self.now.1
            → result ≡ Err (FileFault.TooLong (length self.now.1)) }
        ensures never_fails { result ≢ Err FileFault.Failed }
    {
        let given = self.bytes.len() as u64;
        if given > max {
            return Err(FileFault::TooLong { given });
        }
        match Vec::from_slice(alloc, self.bytes.as_slice()) {
            Ok(bytes) => Ok(bytes),
            Err(_) => Err(FileFault::NoMemory),
        }
    }
}

/// Names with their bytes; what was put last counts.
#[derive(Drop)]
pub(crate) struct Contents {
    alloc: Global,
    entries: Vec<Entry>,
}

impl Model for Contents {
    ghost use Rattle.mg_outside.specs.Memory.{Entries};

    ghost Value = { Entries };

    ghost view = { λ c. c.entries.items };
}

impl Contents {
    pub(crate) fn new(alloc: Global) -> Contents
        ensures { result ≡ [] }
    {
        Contents {
            alloc,
            entries: Vec::new(alloc),
        }
    }

    pub(crate) fn put(&mut self, name: &str, bytes: &[u8]) -> Result<(), AllocError>
        ensures ok { OnOk result (self.new ≡ (name.now, bytes.now) ∷ self.old) }
        ensures err { OnErr result (self.new ≡ self.old) }
    {
        let entry = Entry::new(self.alloc, name, bytes)?;
        self.entries.insert(0, entry)?;
        Ok(())
    }

    pub(crate) fn find(&self, name: &str) -> Option<&Entry>
        ensures { option_map (λ entry. entry.now.1) result ≡ bytes_under name.now self.now }
    {
        find(self.entries.as_slice(), name.as_bytes())
    }
}

fn find<'a>(entries: &'a [Entry], name: &[u8]) -> Option<&'a Entry>
    ensures { option_map (λ entry. entry.now.1) result ≡ bytes_under name.now entries.now }
{
    for entry in entries {
        if name == entry.name.as_slice() {
            return Some(entry);
        }
    }
    None
}
