ghost use Rattle.std.specs.Prelude.{◌≡◌, ℕ, Bool, cond, List, Option, IfSome, IfNone};
ghost use Rattle.std.specs.Map.{lookup};
ghost use Rattle.std.specs.Str.{bytes_eq};
ghost use Rattle.ios_lex.specs.Names.{tcp_ports, udp_ports, IsProtocol, IsPort, IsMessage};

use crate::decimals::number;

const PROTOCOLS: [(&str, u8); 11] = [
    ("icmp", 1),
    ("igmp", 2),
    ("ipinip", 4),
    ("tcp", 6),
    ("udp", 17),
    ("gre", 47),
    ("esp", 50),
    ("ahp", 51),
    ("eigrp", 88),
    ("ospf", 89),
    ("pim", 103),
];

const TCP_PORTS: [(&str, u16); 31] = [
    ("echo", 7),
    ("discard", 9),
    ("daytime", 13),
    ("chargen", 19),
    ("ftp-data", 20),
    ("ftp", 21),
    ("telnet", 23),
    ("smtp", 25),
    ("time", 37),
    ("whois", 43),
    ("tacacs", 49),
    ("domain", 53),
    ("gopher", 70),
    ("finger", 79),
    ("www", 80),
    ("hostname", 101),
    ("pop2", 109),
    ("pop3", 110),
    ("sunrpc", 111),
    ("ident", 113),
    ("nntp", 119),
    ("bgp", 179),
    ("irc", 194),
    ("exec", 512),
    ("login", 513),
    ("cmd", 514),
    ("lpd", 515),
    ("talk", 517),
    ("uucp", 540),
    ("klogin", 543),
    ("kshell", 544),
];

const UDP_PORTS: [(&str, u16); 25] = [
    ("echo", 7),
    ("discard", 9),
    ("time", 37),
    ("nameserver", 42),
    ("tacacs", 49),
    ("domain", 53),
    ("bootps", 67),
    ("bootpc", 68),
    ("tftp", 69),
    ("sunrpc", 111),
    ("ntp", 123),
    ("netbios-ns", 137),
    ("netbios-dgm", 138),
    ("netbios-ss", 139),
    ("snmp", 161),
    ("snmptrap", 162),
    ("xdmcp", 177),
    ("mobile-ip", 434),
    ("isakmp", 500),
    ("biff", 512),
    ("who", 513),
    ("syslog", 514),
    ("talk", 517),
    ("rip", 520),
    ("non500-isakmp", 4500),
];

const ICMP_MESSAGES: [(&str, (u8, Option<u8>)); 24] = [
    ("echo-reply", (0, None)),
    ("unreachable", (3, None)),
    ("net-unreachable", (3, Some(0))),
    ("host-unreachable", (3, Some(1))),
    ("port-unreachable", (3, Some(3))),
    ("packet-too-big", (3, Some(4))),
    ("administratively-prohibited", (3, Some(13))),
    ("source-quench", (4, None)),
    ("redirect", (5, None)),
    ("echo", (8, None)),
    ("time-exceeded", (11, None)),
    ("ttl-exceeded", (11, Some(0))),
    ("parameter-problem", (12, None)),
    ("protocol-unreachable", (3, Some(2))),
    ("net-redirect", (5, Some(0))),
    ("host-redirect", (5, Some(1))),
    ("router-advertisement", (9, None)),
    ("router-solicitation", (10, None)),
    ("reassembly-timeout", (11, Some(1))),
    ("timestamp-request", (13, None)),
    ("timestamp-reply", (14, None)),
    ("mask-request", (17, None)),
    ("mask-reply", (18, None)),
    ("traceroute", (30, None)),
];

/// What the table has at the word.
fn named<V: Copy>(word: &[u8], table: &[(&str, V)]) -> Option<V>
    ensures { result ≡ lookup (λ name. bytes_eq word.now name.now) table.now }
{
    for (name, value) in table {
        if word == name.as_bytes() {
            return Some(*value);
        }
    }
    None
}

/// The protocol that the word names, as the Cisco IOS command references do for access lists, or whose number it
/// spells. `ip` stands for all of them, and is none.
pub fn protocol(word: &[u8]) -> Option<u8>
    ensures found { IfSome result (IsProtocol word.now) }
    ensures none { IfNone result ((n : ℕ) → IsProtocol word.now n → ⊥) }
{
    match named(word, &PROTOCOLS) {
        Some(n) => Some(n),
        None => Some(number(word, 255)? as u8),
    }
}

fn named_port(word: &[u8], tcp: bool) -> Option<u16>
    ensures { result ≡ lookup (bytes_eq word.now) (cond tcp tcp_ports udp_ports) }
{
    if tcp {
        named(word, &TCP_PORTS)
    } else {
        named(word, &UDP_PORTS)
    }
}

/// The port of TCP, or else of UDP, that the word names, as the Cisco IOS command references do, or whose number it
/// spells.
pub fn port(word: &[u8], tcp: bool) -> Option<u16>
    ensures found { IfSome result (IsPort tcp word.now) }
    ensures none { IfNone result ((n : ℕ) → IsPort tcp word.now n → ⊥) }
{
    match named_port(word, tcp) {
        Some(n) => Some(n),
        None => Some(number(word, 65_535)? as u16),
    }
}

/// The type of the ICMP messages that the word names, as the Cisco IOS command references do, and the code where the
/// name says one. A number is a type.
pub fn icmp(word: &[u8]) -> Option<(u8, Option<u8>)>
    ensures found { IfSome result (IsMessage word.now) }
    ensures none { IfNone result ((message : ℕ × Option ℕ) → IsMessage word.now message → ⊥) }
{
    match named(word, &ICMP_MESSAGES) {
        Some(message) => Some(message),
        None => Some((number(word, 255)? as u8, None)),
    }
}

/// A word spells one protocol at most, one port of TCP or of UDP, and one ICMP message.
pub fn one_name()
    ensures protocol { (word : List ℕ) (m n : ℕ) → IsProtocol word m → IsProtocol word n → m ≡ n }
    ensures port { (tcp : Bool) (word : List ℕ) (m n : ℕ)
        → IsPort tcp word m → IsPort tcp word n → m ≡ n }
    ensures message { (word : List ℕ) (m n : ℕ × Option ℕ)
        → IsMessage word m → IsMessage word n → m ≡ n }
{}
