ghost use Rattle.std.specs.Prelude.{◌<◌};

/// What an access list looks at. Ports are 0 where the protocol has none, as are the flags and the ICMP fields.
#[derive(Clone, Copy, Debug, PartialEq, Eq)]
pub struct Packet {
    pub src: u32,
    pub dst: u32,
    pub sport: u16,
    pub dport: u16,
    /// The protocol number of the IP header.
    pub proto: u8,
    /// FIN 1, SYN 2, RST 4, PSH 8, ACK 16, URG 32.
    pub flags: u8,
    pub icmp_type: u8,
    pub icmp_code: u8,
    ghost flags_in_range: { flags < 64 },
}
