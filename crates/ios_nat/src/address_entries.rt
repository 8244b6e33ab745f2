ghost use Rattle.std.specs.Prelude.{◌≡◌, ◌++◌, ◌∷◌, [], false, nat_eq, OnOk, OnErr};
ghost use Rattle.ios_nat.specs.Sides.{AreOnce};
ghost use Rattle.ios_nat.specs.Reading.{is_address_taken};
ghost use Rattle.ios_nat.specs.Translation.{address_from, address_to};

use crate::entry::AddressEntry;
use std::alloc::{AllocError, Global};
use std::collections::HashMap;
use std::marker::Model;

/// Static entries for addresses, each found by its local address and by its global one.
#[derive(Drop)]
pub(crate) struct AddressEntries {
    entries: Vec<AddressEntry>,
    globals: HashMap<u32, u32>,
    locals: HashMap<u32, u32>,
}

impl Model for AddressEntries {
    ghost use Rattle.std.specs.Prelude.{List};
    ghost use Rattle.ios_nat.specs.declared.entry.AddressEntry.{AddressEntry as AddressEntryOf};
    ghost use Rattle.ios_nat.specs.Index.{AreAddressEntries};

    ghost Value = { List AddressEntryOf };

    ghost view = { λ a. a.entries.items };

    ghost invariant = { λ a. AreAddressEntries a.entries.items a.globals a.locals };
}

impl AddressEntries {
    pub(crate) fn new(alloc: Global) -> AddressEntries
        ensures { result ≡ [] }
    {
        AddressEntries {
            entries: Vec::new(alloc),
            globals: HashMap::new(alloc),
            locals: HashMap::new(alloc),
        }
    }

    /// The entries, in the order of their lines.
    pub(crate) fn entries(&self) -> &[AddressEntry]
        ensures entries { result.now ≡ self.now }
        ensures locals { AreOnce nat_eq (λ e. e.local) result.now }
        ensures globals { AreOnce nat_eq (λ e. e.global) result.now }
    {
        self.entries.as_slice()
    }

    /// The global address of the first entry with this local one.
    pub(crate) fn from(&self, address: u32) -> Option<u32>
        ensures { result ≡ address_from self.now address }
    {
        self.globals.get(&address).copied()
    }

    /// The local address of the first entry with this global one.
    pub(crate) fn to(&self, address: u32) -> Option<u32>
        ensures { result ≡ address_to self.now address }
    {
        self.locals.get(&address).copied()
    }

    /// Whether an entry has the local address of this one, or its global address.
    pub(crate) fn is_taken(&self, entry: &AddressEntry) -> bool
        ensures { result ≡ is_address_taken self.now entry.now }
    {
        self.from(entry.local).is_some() || self.to(entry.global).is_some()
    }

    /// Adds an entry with new sides behind the others.
    pub(crate) fn add(&mut self, entry: AddressEntry) -> Result<(), AllocError>
        requires { is_address_taken self.old entry ≡ false }
        ensures added { OnOk result (self.new ≡ self.old ++ entry ∷ []) }
        ensures unchanged { OnErr result (self.new ≡ self.old) }
    {
        self.entries.reserve(1)?;
        self.globals.reserve(1)?;
        self.locals.reserve(1)?;
        self.globals.insert(entry.local, entry.global)?;
        self.locals.insert(entry.global, entry.local)?;
        self.entries.push(entry)?;
        Ok(())
    }
}
