use ios_acl::Packet;
use ios_config::{NameTable, Router, SourceChoice, read_config};
use ios_lex::{Dotted, Word, address, lines, words_in};
use ios_nat::NatTable;
use ios_route::{Interface, NatMark};
use std::alloc::Global;
use std::test::Fail;
use test_tables::{answered, parted};

const LISTS: &str = "access-list 1 permit 10.0.0.0 0.0.0.255
access-list 2 permit 10.0.1.0 0.0.0.255
access-list 3 remark not defined
access-list 4 permit 10.0.2.0 0.0.0.255
access-list 5 permit 10.0.3.0 0.0.0.255
access-list 6 permit 10.0.4.0 0.0.0.255
";

const TRANSLATIONS: &str = "ip nat pool P 198.51.100.10 198.51.100.20 netmask 255.255.255.0
ip nat inside source static 10.0.0.5 203.0.113.5
ip nat inside source static tcp 10.0.0.6 80 203.0.113.6 8080
ip nat inside source list 3 pool P
ip nat inside source list 9 pool P
ip nat inside source list 1 interface e1 overload
ip nat inside source list 2 pool P
ip nat inside source list 4 interface e2
ip nat inside source list 5 pool Q
ip nat inside source list 6 interface e9 overload
";

/// The table of address translation.
fn translations(alloc: Global) -> Result<NatTable, Fail> {
    let mut table = NatTable::new(alloc);
    let lines = lines(alloc, TRANSLATIONS.as_bytes())?;
    for line in &lines {
        table.read_line(line.number, line.words.as_slice())?;
    }
    Ok(table)
}

/// An interface with these addresses, written with blanks between them.
fn interface(
    alloc: Global,
    number: u16,
    addresses: &str,
    mark: NatMark,
) -> Result<Interface, Fail> {
    let mut parts = Vec::new(alloc);
    for word in &words_in(alloc, addresses.as_bytes())? {
        parts.push((address(word.bytes()).ok_or("no address")?, 24))?;
    }
    Ok(Interface {
        name: Word::of(alloc, format!(in alloc; "e{number}")?.as_bytes())?,
        number,
        addresses: parts,
        list_in: None,
        list_out: None,
        mark,
        shut: number == 2,
    })
}

/// An interface inside, two outside, the second without an address and shut down, and one without a mark.
fn interfaces(alloc: Global) -> Result<Vec<Interface>, Fail> {
    let mut all = Vec::new(alloc);
    all.push(interface(alloc, 0, "10.0.0.1", NatMark::Inside)?)?;
    all.push(interface(alloc, 1, "192.0.2.1 192.0.2.129", NatMark::Outside)?)?;
    all.push(interface(alloc, 2, "", NatMark::Outside)?)?;
    all.push(interface(alloc, 3, "172.16.0.1", NatMark::Plain)?)?;
    Ok(all)
}

/// A router whose entries also name a pool and an interface that are not there, as none does that was read.
fn router(alloc: Global) -> Result<Router, Fail> {
    let mut names = NameTable::new(alloc);
    let mut router = read_config(alloc, LISTS.as_bytes(), &mut names)?;
    router.interfaces = interfaces(alloc)?;
    router.nat = translations(alloc)?;
    Ok(router)
}

/// The packet of the words `protocol address port`.
fn packet_of(words: &str) -> Result<Packet, Fail> {
    let (proto, rest) = parted(words)?;
    let (src, sport) = parted(rest)?;
    Ok(Packet {
        src: address(src.as_bytes()).ok_or("no address")?,
        dst: 3405803876,
        sport: sport.parse::<u16>()?,
        dport: 53,
        proto: proto.parse::<u8>()?,
        flags: 0,
        icmp_type: 0,
        icmp_code: 0,
    })
}

/// Writes the addresses and the ports of the choice, or `none`.
fn push_choice(text: &mut String, choice: Option<SourceChoice>) -> Result<(), Fail> {
    match choice {
        Some(choice) => write!(
            text,
            "{} to {}, {} to {}",
            Dotted(choice.first),
            Dotted(choice.last),
            choice.low,
            choice.high
        )?,
        None => text.push_str("none")?,
    }
    Ok(())
}

/// Writes what the source of a packet becomes, by the words `entry exit protocol address port`.
fn push_sources(alloc: Global, given: &str, text: &mut String) -> Result<(), Fail> {
    let (entry, rest) = parted(given)?;
    let (exit, rest) = parted(rest)?;
    let packet = packet_of(rest)?;
    let (entry, exit) = (entry.parse::<u16>()?, exit.parse::<u16>()?);
    push_choice(text, router(alloc)?.sources(entry, exit, &packet))
}

/// Numbers of interfaces, a protocol, a source and its port, and what becomes of the source.
const SOURCES: &str = "0 1 6 10.0.0.5 1024 => 203.0.113.5 to 203.0.113.5, 1024 to 1024
0 1 6 10.0.0.6 80 => 203.0.113.6 to 203.0.113.6, 8080 to 8080
0 1 17 10.0.0.6 80 => 192.0.2.1 to 192.0.2.1, 1 to 65535
0 1 6 10.0.0.7 1024 => 192.0.2.1 to 192.0.2.1, 1 to 65535
0 1 1 10.0.0.7 0 => 192.0.2.1 to 192.0.2.1, 0 to 0
0 1 6 10.0.1.7 1024 => 198.51.100.10 to 198.51.100.20, 1024 to 1024
0 2 6 10.0.1.7 1024 => 198.51.100.10 to 198.51.100.20, 1024 to 1024
0 1 6 10.0.2.7 1024 => none
0 1 6 10.0.3.7 1024 => none
0 1 6 10.0.4.7 1024 => none
0 1 6 10.0.9.7 1024 => 10.0.9.7 to 10.0.9.7, 1024 to 1024
0 3 6 10.0.0.5 1024 => 10.0.0.5 to 10.0.0.5, 1024 to 1024
3 1 6 10.0.0.5 1024 => 10.0.0.5 to 10.0.0.5, 1024 to 1024
1 0 6 10.0.0.5 1024 => 10.0.0.5 to 10.0.0.5, 1024 to 1024
0 7 6 10.0.0.5 1024 => 10.0.0.5 to 10.0.0.5, 1024 to 1024
7 1 6 10.0.0.5 1024 => 10.0.0.5 to 10.0.0.5, 1024 to 1024
";

#[test]
fn sources_are_translated(rt: HostRuntime) -> Result<(), Fail> {
    let text = answered(rt.alloc(), SOURCES, "\n", push_sources)?;
    assert_eq!(rt; text.as_str(), SOURCES);
    Ok(())
}
