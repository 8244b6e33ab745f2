ghost use Rattle.std.specs.Prelude.{◌≡◌};
ghost use Rattle.bit_patterns.specs.Patterns.{agrees as agrees_lem};
ghost use Rattle.ios_acl.specs.Matching.{matches, matches_code, matches_established, matches_icmp, matches_port, matches_protocol};

use crate::packet::Packet;
use bit_patterns::agrees;

/// What an entry does with the packets that it matches.
#[derive(Clone, Copy, Debug, PartialEq, Eq)]
pub enum Verdict {
    Permit,
    Deny,
}

/// The ports that an entry is for.
#[derive(Clone, Copy, Debug, PartialEq, Eq)]
pub enum Ports {
    Any,
    /// From the first port to the second, both included.
    Within(u16, u16),
    Not(u16),
    Nothing,
}

/// An entry of an access list.
#[derive(Clone, Copy, Debug, PartialEq, Eq)]
pub struct Entry {
    /// Its place in the sequence.
    pub number: u32,
    pub verdict: Verdict,
    /// None for every protocol.
    pub proto: Option<u8>,
    /// An address and its wildcard; a bit that is 1 in the wildcard is ignored.
    pub src: (u32, u32),
    pub dst: (u32, u32),
    pub sport: Ports,
    pub dport: Ports,
    /// A type, and the code where only one is meant.
    pub icmp: Option<(u8, Option<u8>)>,
    /// Only packets with ACK or RST.
    pub established: bool,
}

impl Entry {
    /// Whether the entry matches the packet.
    pub fn matches(&self, packet: &Packet) -> bool
        ensures { result ≡ matches self.now packet.now }
    {
        is_protocol(packet.proto, self.proto)
            && is_under(packet.src, self.src)
            && is_under(packet.dst, self.dst)
            && self.sport.has(packet.sport)
            && self.dport.has(packet.dport)
            && is_icmp(packet.icmp_type, packet.icmp_code, self.icmp)
            && is_established(packet.flags, self.established)
    }
}

impl Ports {
    /// Whether the port is one of these.
    pub fn has(self, port: u16) -> bool
        ensures { result ≡ matches_port port self }
    {
        match self {
            Ports::Any => true,
            Ports::Within(low, high) => low <= port && port <= high,
            Ports::Not(other) => port != other,
            Ports::Nothing => false,
        }
    }
}

/// Whether the address agrees with that of the place on the bits that are 0 in its wildcard.
fn is_under(address: u32, place: (u32, u32)) -> bool
    ensures { result ≡ agrees_lem address place.0 place.1 }
{
    agrees(
        u128::from(address),
        u128::from(place.0),
        u128::from(place.1),
    )
}

fn is_protocol(protocol: u8, wanted: Option<u8>) -> bool
    ensures { result ≡ matches_protocol protocol wanted }
{
    match wanted {
        None => true,
        Some(wanted) => protocol == wanted,
    }
}

fn is_code(code: u8, wanted: Option<u8>) -> bool
    ensures { result ≡ matches_code code wanted }
{
    match wanted {
        None => true,
        Some(wanted) => code == wanted,
    }
}

fn is_icmp(kind: u8, code: u8, wanted: Option<(u8, Option<u8>)>) -> bool
    ensures { result ≡ matches_icmp kind code wanted }
{
    match wanted {
        None => true,
        Some((wanted, codes)) => kind == wanted && is_code(code, codes),
    }
}

fn is_established(flags: u8, wanted: bool) -> bool
    ensures { result ≡ matches_established flags wanted }
{
    !wanted || flags & 20 != 0
}
