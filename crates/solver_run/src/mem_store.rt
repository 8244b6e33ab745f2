ghost use Rattle.std.specs.Prelude.{◌≡◌, ◌∷◌, ◌++◌, [], length, slice_get, IfOk, OnOk, OnErr};
ghost use Rattle.solver_run.specs.Stores.{bytes_of};

use crate::store::{Store, StoreFault};
use std::alloc::{AllocError, Global};
use std::marker::Model;

/// A name and the bytes under it.
#[derive(Drop)]
struct Entry {
    name: Vec<u8>,
    bytes: Vec<u8>,
}

impl Model for Entry {
    ghost use Rattle.std.specs.Prelude.{List, ℕ};

    ghost Value = { List ℕ × List ℕ };

    ghost view = { λ e. (e.name.items, e.bytes.items) };
}

impl Entry {
    fn new(alloc: Global, name: &str, bytes: &[u8]) -> Result<Entry, AllocError>
        ensures { IfOk result (λ entry. entry ≡ (name.now, bytes.now)) }
    {
        Ok(Entry {
            name: Vec::from_slice(alloc, name.as_bytes())?,
            bytes: Vec::from_slice(alloc, bytes)?,
        })
    }
}

/// A store in memory. It refuses a file where it is told to, by its number, and then keeps nothing of it.
#[derive(Drop)]
pub struct MemStore {
    alloc: Global,
    kept: Vec<Entry>,
    failing: Vec<u64>,
    tries: u64,
    faults: u64,
}

impl Model for MemStore {
    ghost use Rattle.solver_run.specs.Stores.{HeldStore};

    ghost Value = { HeldStore };

    ghost view = { λ s. record {
      kept = s.kept.items;
      failing = s.failing.items;
      tries = s.tries;
      faults = s.faults;
    } };
}

impl MemStore {
    pub fn new(alloc: Global) -> MemStore
        ensures { result ≡ record { kept = []; failing = []; tries = 0; faults = 0 } }
    {
        MemStore {
            alloc,
            kept: Vec::new(alloc),
            failing: Vec::new(alloc),
            tries: 0,
            faults: 0,
        }
    }

    /// Makes the file of this number, counted from 1, be refused.
    pub fn fail_at(&mut self, number: u64) -> Result<(), AllocError>
        ensures ok { OnOk result
            (self.new ≡ record self.old { failing = self.old.failing ++ number ∷ [] }) }
        ensures err { OnErr result (self.new ≡ self.old) }
    {
        self.failing.push(number)?;
        Ok(())
    }

    /// The bytes of the file of this number, counted from 0; nothing where there are not so many.
    pub fn bytes(&self, number: usize) -> &[u8]
        ensures { result.now ≡ bytes_of (slice_get self.now.kept number) }
    {
        match self.kept.get(number) {
            Some(entry) => entry.bytes.as_slice(),
            None => &[],
        }
    }

    /// How many files were stored.
    pub fn count(&self) -> usize
        ensures { result ≡ length self.now.kept }
    {
        self.kept.len()
    }

    fn push(&mut self, name: &str, bytes: &[u8]) -> Result<(), AllocError>
        ensures ok { OnOk result
            (self.new ≡ record self.old { kept = self.old.kept ++ (name.now, bytes.now) ∷ [] }) }
        ensures err { OnErr result (self.new ≡ self.old) }
    {
        let entry = Entry::new(self.alloc, name, bytes)?;
        self.kept.push(entry)?;
        Ok(())
    }
}

impl Store for MemStore {
    ghost use Rattle.std.specs.Prelude.{Some};

    ghost log = { λ s. record { kept = Some s.kept; faults = s.faults } };

    fn store(&mut self, name: &str, bytes: &[u8]) -> Result<(), StoreFault> {
        self.tries = self.tries.saturating_add(1);
        let number = self.tries;
        if self.failing.iter().any(|n| *n == number) {
            self.faults = self.faults.saturating_add(1);
            return Err(StoreFault::Failed);
        }
        match self.push(name, bytes) {
            Ok(()) => Ok(()),
            Err(_) => Err(StoreFault::NoMemory),
        }
    }
}
