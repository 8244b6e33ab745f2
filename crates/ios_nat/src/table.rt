ghost use Rattle.std.specs.Prelude.{◌≡◌, [], ℕ, nat_eq, OnOk, OnErr, IfErr};
ghost use Rattle.ios_nat.specs.declared.kind.Kind.TheVariants as kinds;
ghost use Rattle.ios_nat.specs.Faults.{IsDuplicate, IsFault, IsRestFault};
ghost use Rattle.ios_nat.specs.Parts.{AddsAddress, AddsPort};
ghost use Rattle.ios_nat.specs.Reading.{Adds, is_address_taken, is_port_taken, Reads};
ghost use Rattle.ios_nat.specs.Sides.{AreOnce, global_side, local_side, same_side};
ghost use Rattle.ios_nat.specs.Table.{pool_named};
ghost use Rattle.ios_nat.specs.Translation as specs;

use crate::address_entries::AddressEntries;
use crate::dynamics::dynamic;
use crate::entry::{AddressEntry, DynamicEntry, PortEntry};
use crate::fault::{NatFault, rest_reason, unopened};
use crate::kind::Kind;
use crate::openings::opening;
use crate::pool_lines::pool;
use crate::pools::Pools;
use crate::port_entries::PortEntries;
use crate::statics::{StaticEntry, static_entry};
use ios_lex::{IosReason, Word};
use std::alloc::Global;
use std::marker::Model;

/// The address translation of a configuration.
#[derive(Drop)]
pub struct NatTable {
    alloc: Global,
    ports: PortEntries,
    addresses: AddressEntries,
    pools: Pools,
    dynamic: Vec<DynamicEntry>,
}

impl Model for NatTable {
    ghost use Rattle.ios_nat.specs.Table.{Table};

    ghost Value = { Table };

    ghost view = { λ t. record {
      ports = t.ports;
      addresses = t.addresses;
      pools = t.pools;
      dynamic = t.dynamic.items;
    } };
}

impl NatTable {
    /// A table without entries. It takes its memory from this allocator.
    pub fn new(alloc: Global) -> NatTable
        ensures { result ≡ record { ports = []; addresses = []; pools = []; dynamic = [] } }
    {
        NatTable {
            alloc,
            ports: PortEntries::new(alloc),
            addresses: AddressEntries::new(alloc),
            pools: Pools::new(alloc),
            dynamic: Vec::new(alloc),
        }
    }

    /// The static entries for ports, in the order of their lines.
    pub fn port_entries(&self) -> &[PortEntry]
        ensures entries { result.now ≡ self.now.ports }
        ensures locals { AreOnce same_side local_side result.now }
        ensures globals { AreOnce same_side global_side result.now }
    {
        self.ports.entries()
    }

    /// The static entries for addresses, in the order of their lines.
    pub fn address_entries(&self) -> &[AddressEntry]
        ensures entries { result.now ≡ self.now.addresses }
        ensures locals { AreOnce nat_eq (λ e. e.local) result.now }
        ensures globals { AreOnce nat_eq (λ e. e.global) result.now }
    {
        self.addresses.entries()
    }

    /// The dynamic entries, in the order of their lines.
    pub fn dynamic(&self) -> &[DynamicEntry]
        ensures { result.now ≡ self.now.dynamic }
    {
        self.dynamic.as_slice()
    }

    /// The first and the last address of the pool of this name.
    pub fn pool(&self, name: &[u8]) -> Option<(u32, u32)>
        ensures { result ≡ pool_named self.now.pools name.now }
    {
        self.pools.get(name)
    }

    /// What the static entries make of a packet's source on its way out. None where none of them is for it.
    pub fn fixed_source(&self, proto: u8, address: u32, port: u16) -> Option<(u32, u16)>
        ensures { result ≡ specs.fixed_source self.now proto address port }
    {
        match self.ports.from(proto, address, port) {
            Some(side) => Some(side),
            None => Some((self.addresses.from(address)?, port)),
        }
    }

    /// What the static entries make of a packet's destination on its way in, which stays where none of them is for it.
    pub fn destination(&self, proto: u8, address: u32, port: u16) -> (u32, u16)
        ensures { result ≡ specs.destination self.now proto address port }
    {
        match self.ports.to(proto, address, port) {
            Some(side) => side,
            None => (self.addresses.to(address).unwrap_or(address), port),
        }
    }

    /// Adds what the words of a line spell, the line of this number.
    pub fn read_line(&mut self, line: u64, words: &[Word]) -> Result<(), NatFault>
        ensures read { OnOk result (Reads self.old line words.now self.new) }
        ensures unchanged { OnErr result (self.new ≡ self.old) }
        ensures refused { IfErr result (IsFault self.old words.now) }
    {
        let Some((kind, rest)) = opening(words) else {
            return Err(NatFault::Refused(unopened(self.alloc, words)?));
        };
        match kind {
            Kind::Static => self.read_static(rest),
            Kind::Dynamic => self.read_dynamic(line, rest),
            Kind::Pool => self.read_pool(rest),
        }
    }

    /// Adds the static entry that the words behind the opening of its line spell.
    fn read_static(&mut self, rest: &[Word]) -> Result<(), NatFault>
        ensures read { OnOk result
            ((line : ℕ) → Adds self.old line rest.now self.new kinds.Static) }
        ensures unchanged { OnErr result (self.new ≡ self.old) }
        ensures refused { IfErr result (IsRestFault self.old kinds.Static rest.now) }
    {
        let entry = match static_entry(rest) {
            Ok(entry) => entry,
            Err(stop) => {
                let why = rest_reason(self.alloc, Kind::Static, rest, stop)?;
                return Err(NatFault::Refused(why));
            }
        };
        match entry {
            StaticEntry::Port(entry) => self.add_port(entry),
            StaticEntry::Address(entry) => self.add_address(entry),
        }
    }

    /// Adds an entry for a port whose sides are new.
    fn add_port(&mut self, entry: PortEntry) -> Result<(), NatFault>
        ensures added { OnOk result (AddsPort self.old entry self.new) }
        ensures unchanged { OnErr result (self.new ≡ self.old) }
        ensures refused { IfErr result (IsDuplicate (is_port_taken self.old.ports entry)) }
    {
        if self.ports.is_taken(&entry) {
            return Err(NatFault::Refused(IosReason::DuplicateStatic));
        }
        self.ports.add(entry)?;
        Ok(())
    }

    /// Adds an entry for an address whose sides are new.
    fn add_address(&mut self, entry: AddressEntry) -> Result<(), NatFault>
        ensures added { OnOk result (AddsAddress self.old entry self.new) }
        ensures unchanged { OnErr result (self.new ≡ self.old) }
        ensures refused { IfErr result (IsDuplicate (is_address_taken self.old.addresses entry)) }
    {
        if self.addresses.is_taken(&entry) {
            return Err(NatFault::Refused(IosReason::DuplicateStatic));
        }
        self.addresses.add(entry)?;
        Ok(())
    }

    /// Adds the dynamic entry that the words behind the opening of its line spell.
    fn read_dynamic(&mut self, line: u64, rest: &[Word]) -> Result<(), NatFault>
        ensures read { OnOk result (Adds self.old line rest.now self.new kinds.Dynamic) }
        ensures unchanged { OnErr result (self.new ≡ self.old) }
        ensures refused { IfErr result (IsRestFault self.old kinds.Dynamic rest.now) }
    {
        let words = match dynamic(rest) {
            Ok(words) => words,
            Err(stop) => {
                let why = rest_reason(self.alloc, Kind::Dynamic, rest, stop)?;
                return Err(NatFault::Refused(why));
            }
        };
        let entry = words.entry(self.alloc, line)?;
        if self.dynamic.push(entry).is_err() {
            return Err(NatFault::NoMemory);
        }
        Ok(())
    }

    /// Adds the pool that the words behind the opening of its line spell.
    fn read_pool(&mut self, rest: &[Word]) -> Result<(), NatFault>
        ensures read { OnOk result ((line : ℕ) → Adds self.old line rest.now self.new kinds.Pool) }
        ensures unchanged { OnErr result (self.new ≡ self.old) }
        ensures refused { IfErr result (IsRestFault self.old kinds.Pool rest.now) }
    {
        if self.pools.is_taken(rest) {
            return Err(NatFault::Refused(IosReason::DuplicatePool));
        }
        let (name, first, last) = match pool(rest) {
            Ok(pool) => pool,
            Err(stop) => {
                let why = rest_reason(self.alloc, Kind::Pool, rest, stop)?;
                return Err(NatFault::Refused(why));
            }
        };
        self.pools.add(self.alloc, name, first, last)?;
        Ok(())
    }
}
