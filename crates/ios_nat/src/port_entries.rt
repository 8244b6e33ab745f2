ghost use Rattle.std.specs.Prelude.{◌≡◌, ◌++◌, ◌∷◌, [], false, OnOk, OnErr};
ghost use Rattle.ios_nat.specs.Sides.{global_side, local_side, AreOnce, same_side};
ghost use Rattle.ios_nat.specs.Reading.{is_port_taken};
ghost use Rattle.ios_nat.specs.Translation.{port_from, port_to};

use crate::entry::{PortEntry, Side};
use std::alloc::{AllocError, Global};
use std::collections::HashMap;
use std::marker::Model;

/// Static entries for ports, each found by its local side and by its global one.
#[derive(Drop)]
pub(crate) struct PortEntries {
    entries: Vec<PortEntry>,
    globals: HashMap<Side, (u32, u16)>,
    locals: HashMap<Side, (u32, u16)>,
}

impl Model for PortEntries {
    ghost use Rattle.std.specs.Prelude.{List};
    ghost use Rattle.ios_nat.specs.declared.entry.PortEntry.{PortEntry as PortEntryOf};
    ghost use Rattle.ios_nat.specs.Index.{ArePortEntries};

    ghost Value = { List PortEntryOf };

    ghost view = { λ p. p.entries.items };

    ghost invariant = { λ p. ArePortEntries p.entries.items p.globals p.locals };
}

impl PortEntries {
    pub(crate) fn new(alloc: Global) -> PortEntries
        ensures { result ≡ [] }
    {
        PortEntries {
            entries: Vec::new(alloc),
            globals: HashMap::new(alloc),
            locals: HashMap::new(alloc),
        }
    }

    /// The entries, in the order of their lines.
    pub(crate) fn entries(&self) -> &[PortEntry]
        ensures entries { result.now ≡ self.now }
        ensures locals { AreOnce same_side local_side result.now }
        ensures globals { AreOnce same_side global_side result.now }
    {
        self.entries.as_slice()
    }

    /// The global address and port of the first entry with this local side.
    pub(crate) fn from(&self, proto: u8, address: u32, port: u16) -> Option<(u32, u16)>
        ensures { result ≡ port_from self.now proto address port }
    {
        self.globals
            .get(&Side {
                proto,
                address,
                port,
            })
            .copied()
    }

    /// The local address and port of the first entry with this global side.
    pub(crate) fn to(&self, proto: u8, address: u32, port: u16) -> Option<(u32, u16)>
        ensures { result ≡ port_to self.now proto address port }
    {
        self.locals
            .get(&Side {
                proto,
                address,
                port,
            })
            .copied()
    }

    /// Whether an entry has the local side of this one, or its global side.
    pub(crate) fn is_taken(&self, entry: &PortEntry) -> bool
        ensures { result ≡ is_port_taken self.now entry.now }
    {
        self.from(entry.proto, entry.local, entry.local_port)
            .is_some()
            || self
                .to(entry.proto, entry.global, entry.global_port)
                .is_some()
    }

    /// Adds an entry with new sides behind the others.
    pub(crate) fn add(&mut self, entry: PortEntry) -> Result<(), AllocError>
        requires { is_port_taken self.old entry ≡ false }
        ensures added { OnOk result (self.new ≡ self.old ++ entry ∷ []) }
        ensures unchanged { OnErr result (self.new ≡ self.old) }
    {
        self.entries.reserve(1)?;
        self.globals.reserve(1)?;
        self.locals.reserve(1)?;
        self.globals
            .insert(entry.local_side(), (entry.global, entry.global_port))?;
        self.locals
            .insert(entry.global_side(), (entry.local, entry.local_port))?;
        self.entries.push(entry)?;
        Ok(())
    }
}
