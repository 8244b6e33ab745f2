ghost use Rattle.std.specs.Prelude.{◌≡◌, ◌↔◌, ℕ, None, option_copied};
ghost use Rattle.ios_config.specs.Choices as choices;
ghost use Rattle.ios_config.specs.Sources as specs;
ghost use Rattle.ios_config.specs.Sources.{IsAmong, IsSource, IsSourceOf};

use crate::router::Router;
use ios_acl::{Acl, Packet, Verdict};
use ios_lex::Word;
use ios_nat::{DynamicEntry, DynamicFrom, NatTable};
use ios_route::{Interface, NatMark};

/// What the source of a packet may become: each address from the first to the last, with each port from the low one to
/// the high one.
#[derive(Clone, Copy, Debug, PartialEq, Eq)]
pub struct SourceChoice {
    pub first: u32,
    pub last: u32,
    pub low: u16,
    pub high: u16,
}

impl Router {
    /// What the source of a packet becomes that comes in by the interface of one number and goes out by that of another.
    /// None where the dynamic entry that counts has no address.
    pub fn sources(&self, entry: u16, exit: u16, packet: &Packet) -> Option<SourceChoice>
        ensures some { (address port : ℕ) → IsAmong result address port
            ↔ IsSourceOf self.now entry exit packet.now address port }
        ensures none { (result ≡ None) ↔ ((address port : ℕ)
            → IsSourceOf self.now entry exit packet.now address port → ⊥) }
    {
        let lists = self.lists.as_slice();
        let interfaces = self.interfaces.as_slice();
        sources(lists, interfaces, &self.nat, entry, exit, packet)
    }
}

/// The same of these lists, interfaces and entries.
fn sources(
    lists: &[Acl],
    interfaces: &[Interface],
    nat: &NatTable,
    entry: u16,
    exit: u16,
    packet: &Packet,
) -> Option<SourceChoice>
    ensures some { (address port : ℕ) → IsAmong result address port
        ↔ IsSource lists.now interfaces.now nat.now entry exit packet.now address port }
    ensures none { (result ≡ None) ↔ ((address port : ℕ)
        → IsSource lists.now interfaces.now nat.now entry exit packet.now address port → ⊥) }
{
    let own = alone(packet.src, packet.sport);
    if !goes_out(interfaces, entry, exit) {
        return Some(own);
    }
    if let Some((address, port)) = nat.fixed_source(packet.proto, packet.src, packet.sport) {
        return Some(alone(address, port));
    }
    match counting(lists, nat.dynamic(), packet) {
        Some(dynamic) => shared(interfaces, nat, dynamic, packet),
        None => Some(own),
    }
}

/// This address with this port, and no other.
fn alone(address: u32, port: u16) -> SourceChoice
    ensures { result ≡ choices.alone (address, port) }
{
    SourceChoice {
        first: address,
        last: address,
        low: port,
        high: port,
    }
}

/// Whether packets from the one interface to the other go from inside to outside.
fn goes_out(interfaces: &[Interface], entry: u16, exit: u16) -> bool
    ensures { result ≡ specs.goes_out interfaces.now entry exit }
{
    is_inside(interfaces, entry) && is_outside(interfaces, exit)
}

/// Whether packets come in from inside by the interface of this number.
fn is_inside(interfaces: &[Interface], number: u16) -> bool
    ensures { result ≡ specs.is_inside interfaces.now number }
{
    match mark(interfaces, number) {
        Some(NatMark::Inside) => true,
        _ => false,
    }
}

/// Whether packets go outside by the interface of this number.
fn is_outside(interfaces: &[Interface], number: u16) -> bool
    ensures { result ≡ specs.is_outside interfaces.now number }
{
    match mark(interfaces, number) {
        Some(NatMark::Outside) => true,
        _ => false,
    }
}

/// The mark of the interface of this number.
fn mark(interfaces: &[Interface], number: u16) -> Option<NatMark>
    ensures { result ≡ specs.mark_of interfaces.now number }
{
    for interface in interfaces {
        if interface.number == number {
            return Some(interface.mark);
        }
    }
    None
}

/// The first dynamic entry whose list permits the packet.
fn counting<'a>(
    lists: &[Acl],
    dynamics: &'a [DynamicEntry],
    packet: &Packet,
) -> Option<&'a DynamicEntry>
    ensures { option_copied result ≡ specs.counting lists.now dynamics.now packet.now }
{
    for dynamic in dynamics {
        if is_permitted(lists, &dynamic.list, packet) {
            return Some(dynamic);
        }
    }
    None
}

/// Whether the first list of this name permits the packet. A list without entries does not.
fn is_permitted(lists: &[Acl], name: &Word, packet: &Packet) -> bool
    ensures { result ≡ specs.is_permitted lists.now packet.now name.now }
{
    for list in lists {
        if name.bytes() == list.name().bytes() {
            let (verdict, _) = list.decide(packet);
            return matches!(verdict, Verdict::Permit);
        }
    }
    false
}

/// What the source becomes by a dynamic entry that counts.
fn shared(
    interfaces: &[Interface],
    nat: &NatTable,
    dynamic: &DynamicEntry,
    packet: &Packet,
) -> Option<SourceChoice>
    ensures { result ≡ choices.shared interfaces.now nat.now packet.now dynamic.now }
{
    let (first, last) = global_range(interfaces, nat, &dynamic.from)?;
    if last < first {
        return None;
    }
    let (low, high) = port_range(dynamic.overload, packet);
    Some(SourceChoice {
        first,
        last,
        low,
        high,
    })
}

/// The first and the last of the addresses that a dynamic entry takes.
fn global_range(interfaces: &[Interface], nat: &NatTable, from: &DynamicFrom) -> Option<(u32, u32)>
    ensures { result ≡ specs.global_range interfaces.now nat.now from.now }
{
    match from {
        DynamicFrom::Pool(name) => nat.pool(name.bytes()),
        DynamicFrom::Interface(name) => {
            let address = address_of(interfaces, name)?;
            Some((address, address))
        }
    }
}

/// The first address of the first interface of this name.
fn address_of(interfaces: &[Interface], name: &Word) -> Option<u32>
    ensures { result ≡ specs.address_of interfaces.now name.now }
{
    for interface in interfaces {
        if name.bytes() == interface.name.bytes() {
            let (address, _) = interface.addresses.first()?;
            return Some(*address);
        }
    }
    None
}

/// The first and the last of the ports that a dynamic entry gives.
fn port_range(overload: bool, packet: &Packet) -> (u16, u16)
    ensures { result ≡ specs.port_range overload packet.now }
{
    if overload && (packet.proto == 6 || packet.proto == 17) {
        (1, 65535)
    } else {
        (packet.sport, packet.sport)
    }
}
