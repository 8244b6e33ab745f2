use solver_run::{Store, StoreFault};
use std::fs;
use std::marker::Model;

/// The real file system, as a store. It tells no bytes: that its one call writes the file of the name, and fails only where
/// the system does, no contract says.
#[derive(Drop)]
pub struct DiskStore<'a, R> {
    rt: &'a R,
    faults: u64,
}

impl<'a, R> Model for DiskStore<'a, R> {
    ghost use Rattle.std.specs.Prelude.{ℕ};

    ghost Value = { ℕ };

    ghost view = { λ s. s.faults };
}

impl<'a, R: std::rt::Files> DiskStore<'a, R> {
    ghost use Rattle.std.specs.Prelude.{◌≡◌};

    /// The file system of this runtime, of which no write has failed. Only `main` calls it.
    pub fn new(rt: &'a R) -> DiskStore<'a, R>
        ensures { result ≡ 0 }
    {
        DiskStore { rt, faults: 0 }
    }
}

impl<R: std::rt::Files> Store for DiskStore<'_, R> {
    ghost use Rattle.std.specs.Prelude.{None};

    ghost log = { λ s. record { kept = None; faults = s } };

    fn store(&mut self, name: &str, bytes: &[u8]) -> Result<(), StoreFault> {
        match fs::write(self.rt, name, bytes) {
            Ok(()) => Ok(()),
            Err(_) => {
                self.faults = self.faults.saturating_add(1);
                Err(StoreFault::Failed)
            }
        }
    }
}
