ghost use Rattle.std.specs.Prelude.{◌≡◌};
ghost use Rattle.ios_nat.specs.Sides as specs;

use ios_lex::Word;

/// A static entry for one port of one protocol: an inside address and port, and those that stand for them outside.
#[derive(Clone, Copy, Debug, PartialEq, Eq)]
pub struct PortEntry {
    /// 6 for TCP, 17 for UDP.
    pub proto: u8,
    pub local: u32,
    pub local_port: u16,
    pub global: u32,
    pub global_port: u16,
}

/// A static entry for an inside address, whatever the protocol and the port, and the address that stands for it outside.
#[derive(Clone, Copy, Debug, PartialEq, Eq)]
pub struct AddressEntry {
    pub local: u32,
    pub global: u32,
}

/// Where the addresses of a dynamic entry come from.
#[derive(Debug, Drop)]
pub enum DynamicFrom {
    /// The pool of this name.
    Pool(Word),
    /// The address of the interface of this name.
    Interface(Word),
}

/// A dynamic entry: sources that a list permits are translated.
#[derive(Debug, Drop)]
pub struct DynamicEntry {
    /// The number of its line.
    pub line: u64,
    /// The name of the access list.
    pub list: Word,
    pub from: DynamicFrom,
    /// Whether several sources share an address.
    pub overload: bool,
}

/// One side of a static entry for a port.
#[derive(Clone, Copy, PartialEq, Eq, Hash)]
pub(crate) struct Side {
    pub(crate) proto: u8,
    pub(crate) address: u32,
    pub(crate) port: u16,
}

impl PortEntry {
    pub(crate) fn local_side(&self) -> Side
        ensures { result ≡ specs.local_side self.now }
    {
        Side {
            proto: self.proto,
            address: self.local,
            port: self.local_port,
        }
    }

    pub(crate) fn global_side(&self) -> Side
        ensures { result ≡ specs.global_side self.now }
    {
        Side {
            proto: self.proto,
            address: self.global,
            port: self.global_port,
        }
    }
}
