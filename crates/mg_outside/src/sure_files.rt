ghost use Rattle.std.specs.Prelude.{◌≡◌, ◌∷◌, [], OnOk, OnErr};

use crate::contents::Contents;
use crate::files::{FileFault, Files};
use crate::names::Names;
use std::alloc::{AllocError, Global};
use std::marker::Model;

/// Files in memory whose reads never fail. A name that was never put reads as an empty file.
#[derive(Drop)]
pub struct SureFiles {
    contents: Contents,
    names: Names,
}

impl Model for SureFiles {
    ghost use Rattle.mg_outside.specs.Memory.{HeldSureFiles};

    ghost Value = { HeldSureFiles };

    ghost view = { λ s. record { entries = s.contents; names = s.names } };
}

impl SureFiles {
    pub fn new(alloc: Global) -> SureFiles
        ensures { result ≡ record { entries = []; names = [] } }
    {
        SureFiles {
            contents: Contents::new(alloc),
            names: Names::new(alloc),
        }
    }

    /// Gives a name these bytes, in the place of those that it had.
    pub fn put(&mut self, name: &str, bytes: &[u8]) -> Result<(), AllocError>
        ensures ok { OnOk result
            (self.new ≡ record self.old { entries = (name.now, bytes.now) ∷ self.old.entries }) }
        ensures err { OnErr result (self.new ≡ self.old) }
    {
        self.contents.put(name, bytes)
    }
}

impl Files for SureFiles {
    ghost use Rattle.std.specs.Prelude.{◌≡◌, ◌≢◌, ◌<◌, ◌⊎◌, ◌∷◌, ◌++◌, [], length, Some, IfOk, IfErr};
    ghost use Rattle.mg_outside.specs.Memory.{held_by};
    ghost use Rattle.mg_outside.specs.Reading.{AddsAtMost, Explains, Gives};

    ghost holds = { λ s name. Some (held_by s name) };

    ghost log = { λ s. record { names = s.names; faults = λ _. 0 } };

    fn read(&mut self, alloc: Global, name: &str, max: u64) -> Result<Vec<u8>, FileFault>
        ensures bytes { IfOk result
            (λ bytes. Gives (Some (held_by self.old name.now)) max bytes.items) }
        ensures too_long { IfErr result (Explains (Some (held_by self.old name.now)) max) }
        ensures named { result ≢ Err FileFault.NoMemory
            → self.new.names ≡ self.old.names ++ name.now ∷ [] }
        ensures named_at_most { AddsAtMost self.old.names name.now self.new.names }
        ensures long { max < length (held_by self.old name.now)
            → (result ≡ Err (FileFault.TooLong (length (held_by self.old name.now))))
            ⊎ (result ≡ Err FileFault.NoMemory) }
        ensures never_fails { result ≢ Err FileFault.Failed }
        ensures unchanged { self.new ≡ record self.old { names = self.new.names } }
    {
        if self.names.push(name).is_err() {
            return Err(FileFault::NoMemory);
        }
        match self.contents.find(name) {
            Some(entry) => entry.read(alloc, max),
            None => Ok(Vec::new(alloc)),
        }
    }
}
