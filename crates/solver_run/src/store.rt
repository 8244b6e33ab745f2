ghost use Rattle.solver_run.specs.Stores.{StoreLog, Stores};

/// Why a file is not stored.
#[derive(Clone, Copy, Debug, Drop, PartialEq, Eq)]
pub enum StoreFault {
    /// The store refused it; any part of it may stand.
    Failed,
    /// There was no memory for it, and nothing was stored.
    NoMemory,
}

/// What keeps bytes under names.
pub trait Store {
    /// What was stored whole, where it is told, and how often that failed.
    ghost log: { Self → StoreLog };

    /// Stores the bytes under the name, in the place of those that it had.
    fn store(&mut self, name: &str, bytes: &[u8]) -> Result<(), StoreFault>
        ensures { Stores name.now bytes.now (log self.old) (log self.new) result };
}
