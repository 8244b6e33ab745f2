ghost use Rattle.std.specs.Prelude.{◌≡◌, ◌≢◌, ◌==◌, ◌∷◌, ◌++◌, [], OnOk, OnErr};
ghost use Rattle.std.specs.List.{list_any};

use crate::contents::Contents;
use crate::files::{FileFault, Files};
use crate::names::Names;
use std::alloc::{AllocError, Global};
use std::marker::Model;

/// Files in memory. A read fails where it is told to, by its number, and where nothing was put under the name.
#[derive(Drop)]
pub struct MemFiles {
    contents: Contents,
    failing: Vec<u64>,
    names: Names,
    failed: Names,
}

impl Model for MemFiles {
    ghost use Rattle.mg_outside.specs.Memory.{HeldFiles};

    ghost Value = { HeldFiles };

    ghost view = { λ m. record {
      entries = m.contents;
      failing = m.failing.items;
      names = m.names;
      failed = m.failed;
    } };
}

impl MemFiles {
    pub fn new(alloc: Global) -> MemFiles
        ensures { result ≡ record { entries = []; failing = []; names = []; failed = [] } }
    {
        MemFiles {
            contents: Contents::new(alloc),
            failing: Vec::new(alloc),
            names: Names::new(alloc),
            failed: Names::new(alloc),
        }
    }

    /// Gives a name these bytes, in the place of those that it had.
    pub fn put(&mut self, name: &str, bytes: &[u8]) -> Result<(), AllocError>
        ensures ok { OnOk result
            (self.new ≡ record self.old { entries = (name.now, bytes.now) ∷ self.old.entries }) }
        ensures err { OnErr result (self.new ≡ self.old) }
    {
        self.contents.put(name, bytes)
    }

    /// Makes the read of this number fail, counted from 1.
    pub fn fail_at(&mut self, call: u64) -> Result<(), AllocError>
        ensures ok { OnOk result
            (self.new ≡ record self.old { failing = self.old.failing ++ call ∷ [] }) }
        ensures err { OnErr result (self.new ≡ self.old) }
    {
        self.failing.push(call)?;
        Ok(())
    }
}

/// Whether the number is among these.
fn is_among(numbers: &[u64], number: u64) -> bool
    ensures { result ≡ list_any (λ n. n == number) numbers.now }
{
    numbers.iter().any(|n| *n == number)
}

/// The answer of a read that fails, once it is noted under its name.
fn note_failure(failed: &mut Names, name: &str) -> FileFault
    ensures noted { result ≡ FileFault.Failed → failed.new ≡ failed.old ++ name.now ∷ [] }
    ensures no_memory { result ≢ FileFault.Failed → result ≡ FileFault.NoMemory }
    ensures unchanged { result ≡ FileFault.NoMemory → failed.new ≡ failed.old }
{
    match failed.push(name) {
        Ok(()) => FileFault::Failed,
        Err(_) => FileFault::NoMemory,
    }
}

impl Files for MemFiles {
    ghost use Rattle.std.specs.Prelude.{◌≡◌, ◌<◌, ◌≤◌, ◌⊎◌, ◌∷◌, ◌++◌, [], ℕ, List, true, false, length, IfSome, IfOk, IfErr};
    ghost use Rattle.mg_outside.specs.Faults.{Rose};
    ghost use Rattle.mg_outside.specs.Memory.{bytes_under, failures, read_is_to_fail, IsAfterRead};
    ghost use Rattle.mg_outside.specs.Reading.{AddsAtMost, Explains, Gives};

    ghost holds = { λ m name. bytes_under name m.entries };

    ghost log = { λ m. record { names = m.names; faults = failures m.failed } };

    fn read(&mut self, alloc: Global, name: &str, max: u64) -> Result<Vec<u8>, FileFault>
        ensures bytes { IfOk result
            (λ bytes. Gives (bytes_under name.now self.old.entries) max bytes.items) }
        ensures too_long { IfErr result (Explains (bytes_under name.now self.old.entries) max) }
        ensures named_at_most { AddsAtMost self.old.names name.now self.new.names }
        ensures failed { result ≡ Err FileFault.Failed
            → Rose (failures self.old.failed name.now) (failures self.new.failed name.now) }
        ensures later { (other : List ℕ)
            → failures self.old.failed other ≤ failures self.new.failed other }
        ensures same { (other : List ℕ)
            → bytes_under other self.new.entries ≡ bytes_under other self.old.entries }
        ensures cause { result ≡ Err FileFault.Failed → read_is_to_fail self.old name.now ≡ true }
        ensures fails { read_is_to_fail self.old name.now ≡ true
            → (result ≡ Err FileFault.Failed) ⊎ (result ≡ Err FileFault.NoMemory) }
        ensures long { read_is_to_fail self.old name.now ≡ false
            → IfSome (bytes_under name.now self.old.entries)
            (λ held. max < length held → (result ≡ Err (FileFault.TooLong (length held)))
            ⊎ (result ≡ Err FileFault.NoMemory)) }
        ensures after { IsAfterRead self.old name.now result self.new }
    {
        let told_to = is_among(self.failing.as_slice(), self.names.len() as u64 + 1);
        if self.names.push(name).is_err() {
            return Err(FileFault::NoMemory);
        }
        match self.contents.find(name) {
            Some(entry) if !told_to => entry.read(alloc, max),
            _ => Err(note_failure(&mut self.failed, name)),
        }
    }
}
