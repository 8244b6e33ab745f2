use crate::lines_and_words::push_message;
use ios_acl::{Acl, AclFault, Entry, Packet, Verdict, established_bits, one_reading};
use ios_lex::{Dotted, Word, words_in};
use std::alloc::Global;
use std::test::Fail;
use test_tables::{answered, parted, push_answer, push_bytes, push_reason};

/// Writes what the list says of a line: `read`, or the reason of its refusal.
fn push_reading(text: &mut String, read: Result<(), AclFault>) -> Result<(), Fail> {
    match read {
        Ok(()) => Ok(text.push_str("read")?),
        Err(AclFault::Refused(reason)) => push_reason(text, &reason),
        Err(AclFault::NoMemory) => Ok(text.push_str("no memory")?),
    }
}

/// The table with what the list says of its lines, one after another.
fn readings(alloc: Global, list: &mut Acl, table: &str) -> Result<String, Fail> {
    answered(alloc, table, "\n", |alloc, line, text| {
        let words = words_in(alloc, line.as_bytes())?;
        push_reading(text, list.read_line(words.as_slice()))
    })
}

/// Writes the name of the list, its kind, and the numbers of its entries.
pub(crate) fn push_list(text: &mut String, list: &Acl) -> Result<(), Fail> {
    push_bytes(text, list.name().bytes())?;
    text.push_str(if list.is_extended() {
        " extended"
    } else {
        " standard"
    })?;
    for entry in list.entries() {
        write!(text, " {}", entry.number)?;
    }
    Ok(())
}

/// Writes the verdict, and the number of the entry that decides.
fn push_decision(text: &mut String, decision: (Verdict, Option<u32>)) -> Result<(), Fail> {
    match decision {
        (Verdict::Permit, Some(number)) => write!(text, "permit by {number}")?,
        (Verdict::Deny, Some(number)) => write!(text, "deny by {number}")?,
        (Verdict::Permit, None) => text.push_str("permit by none")?,
        (Verdict::Deny, None) => text.push_str("deny by none")?,
    }
    Ok(())
}

/// Writes the list, and what it says of the packet of TCP from port 1 to port 2.
fn push_outcome(text: &mut String, list: &Acl) -> Result<(), Fail> {
    push_list(text, list)?;
    text.push_str(if list.is_defined() {
        "; "
    } else {
        "; undefined; "
    })?;
    push_decision(text, list.decide(&segment(1, 2, 0)))
}

/// The table with what a list of this name says of its lines, and then the list.
fn outcome(alloc: Global, name: &str, extended: bool, table: &str) -> Result<String, Fail> {
    let mut list = Acl::new(alloc, Word::of(alloc, name.as_bytes())?, extended);
    let mut text = readings(alloc, &mut list, table)?;
    push_outcome(&mut text, &list)?;
    Ok(text)
}

const UNMODELLED: &str = "permit tcp any any established dscp => unmodelled dscp
permit ospf any any fragments => unmodelled fragments
permit ip any time-range => unmodelled time-range
permit object-group x any any => unmodelled object-group
evaluate x => unmodelled evaluate
dynamic x => unmodelled dynamic
reflect x => bad entry
10 evaluate x => unmodelled evaluate
10 reflect x => unmodelled reflect
10 dynamic x => bad entry
100 extended; undefined; deny by none";

#[test]
fn words_that_are_not_modelled_come_first(rt: HostRuntime) -> Result<(), Fail> {
    let text = outcome(rt.alloc(), "100", true, UNMODELLED)?;
    assert_eq!(rt; text.as_str(), UNMODELLED);
    Ok(())
}

const EXTENDED: &str = " => bad entry
0 permit ip any any => bad entry
2147483648 permit ip any any => bad entry
permit ip any => bad entry
permit tcp any host 10.0.0.256 => bad address
permit ip any eq 80 any => bad address
permit 256 any any => bad number
permit foo any any => unknown name
permit tcp any any eq 65536 => bad number
permit udp any any eq www => unknown name
permit tcp any any range 30 20 => bad number
permit tcp any any range www ftp => bad number
permit ip any any eq 80 => bad entry
permit tcp any any log log => bad entry
permit tcp any any log-input => read
permit tcp any any eq www => read
100 extended 10 20; permit by 10";

#[test]
fn a_word_that_nothing_goes_on_with_is_refused(rt: HostRuntime) -> Result<(), Fail> {
    let text = outcome(rt.alloc(), "100", true, EXTENDED)?;
    assert_eq!(rt; text.as_str(), EXTENDED);
    Ok(())
}

const MESSAGES: &str = "permit icmp any any 256 => bad number
permit icmp any any 3 256 => bad number
permit icmp any any echo 3 => bad entry
permit icmp any any 3 echo => bad entry
permit icmp any any established => unknown name
100 extended; undefined; deny by none";

#[test]
fn messages_are_a_name_or_a_type_and_a_code(rt: HostRuntime) -> Result<(), Fail> {
    let text = outcome(rt.alloc(), "100", true, MESSAGES)?;
    assert_eq!(rt; text.as_str(), MESSAGES);
    Ok(())
}

const STANDARD: &str = "permit tcp any any => bad address
permit 10.0.0.1 5 => bad address
permit 10.0.0.1 foo => bad entry
permit any log-input => bad entry
10 standard; undefined; deny by none";

#[test]
fn a_word_that_no_standard_entry_goes_on_with_is_refused(rt: HostRuntime) -> Result<(), Fail> {
    let text = outcome(rt.alloc(), "10", false, STANDARD)?;
    assert_eq!(rt; text.as_str(), STANDARD);
    Ok(())
}

const IN_ORDER: &str = "permit tcp any any => read
15 permit ip any any => read
deny ip any any => read
5 remark anything evaluate => read
5 deny udp any any => read
remark => read
15 permit foo => duplicate sequence
15 foo => bad entry
2147483640 permit ip any any => read
permit ip any any => bad number
100 extended 5 10 15 25 2147483640; permit by 10";

#[test]
fn entries_stand_in_the_order_of_their_numbers(rt: HostRuntime) -> Result<(), Fail> {
    let text = outcome(rt.alloc(), "100", true, IN_ORDER)?;
    assert_eq!(rt; text.as_str(), IN_ORDER);
    Ok(())
}

#[test]
fn a_list_without_entries_denies(rt: HostRuntime) -> Result<(), Fail> {
    let text = outcome(rt.alloc(), "21", false, "")?;
    assert_eq!(rt; text.as_str(), "21 standard; undefined; deny by none");
    Ok(())
}

/// The list in which the lines were read, and a copy of it.
fn with_copy(alloc: Global, table: &str) -> Result<(Acl, Acl), Fail> {
    let mut list = Acl::new(alloc, Word::of(alloc, b"100")?, true);
    readings(alloc, &mut list, table)?;
    let copy = list.copy()?;
    Ok((list, copy))
}

/// What a copy of the list is, in which the lines were read, where it has the same entries.
fn copy_of(alloc: Global, table: &str) -> Result<String, Fail> {
    let (list, copy) = with_copy(alloc, table)?;
    let mut text = String::new(alloc);
    push_list(&mut text, &copy)?;
    text.push_str("; the same entries: ")?;
    push_answer(&mut text, copy.entries() == list.entries())?;
    Ok(text)
}

#[test]
fn a_copy_is_the_same_list(rt: HostRuntime) -> Result<(), Fail> {
    let table = "permit tcp any any eq www => read\n5 deny udp any any => read\n";
    let text = copy_of(rt.alloc(), table)?;
    assert_eq!(rt; text.as_str(), "100 extended 5 10; the same entries: yes");
    Ok(())
}

/// A list of 5000 entries, each read before the entries that were there.
fn full_list(alloc: Global) -> Result<Acl, Fail> {
    let mut list = Acl::new(alloc, Word::of(alloc, b"100")?, true);
    for n in 0..5000u32 {
        let line = format!(in alloc; "{} permit ip any any", 50000 - 10 * n)?;
        let words = words_in(alloc, line.as_bytes())?;
        list.read_line(words.as_slice())?;
    }
    Ok(list)
}

/// What a full list says of the lines, and how many entries it has then.
fn full_readings(alloc: Global, table: &str) -> Result<String, Fail> {
    let mut list = full_list(alloc)?;
    let mut text = readings(alloc, &mut list, table)?;
    write!(text, "{} entries", list.entries().len())?;
    Ok(text)
}

#[test]
fn a_list_has_room_for_five_thousand_entries(rt: HostRuntime) -> Result<(), Fail> {
    let table = "permit ip any any => too many\nremark full => read\n5000 entries";
    let text = full_readings(rt.alloc(), table)?;
    assert_eq!(rt; text.as_str(), table);
    Ok(())
}

/// The entry that a line gives in a list that has no other.
fn entry_of(alloc: Global, extended: bool, line: &str) -> Result<Entry, Fail> {
    let mut list = Acl::new(alloc, Word::of(alloc, b"100")?, extended);
    let words = words_in(alloc, line.as_bytes())?;
    list.read_line(words.as_slice())?;
    Ok(*list.entries().first().ok_or("no entry")?)
}

const MESSAGES_OF_ENTRIES: &str = "permit icmp any any => none
permit icmp any any log => none
permit icmp any any echo => 8
permit icmp any any port-unreachable log => 3 3
permit icmp any any 3 => 3
permit 1 any any 3 1 => 3 1
";

fn push_message_of(alloc: Global, given: &str, text: &mut String) -> Result<(), Fail> {
    push_message(text, entry_of(alloc, true, given)?.icmp)
}

#[test]
fn messages_of_entries(rt: HostRuntime) -> Result<(), Fail> {
    let text = answered(rt.alloc(), MESSAGES_OF_ENTRIES, "\n", push_message_of)?;
    assert_eq!(rt; text.as_str(), MESSAGES_OF_ENTRIES);
    Ok(())
}

/// Standard entries, and the address of their source with its wildcard.
const SOURCES: &str = "permit any => 0.0.0.0 255.255.255.255
permit host 10.0.0.1 => 10.0.0.1 0.0.0.0
permit 10.0.0.1 log => 10.0.0.1 0.0.0.0
permit 10.0.0.1 0.0.0.255 log => 10.0.0.1 0.0.0.255
";

fn push_source(alloc: Global, given: &str, text: &mut String) -> Result<(), Fail> {
    let (source, wildcard) = entry_of(alloc, false, given)?.src;
    let (source, wildcard) = (Dotted(source), Dotted(wildcard));
    write!(text, "{source} {wildcard}")?;
    Ok(())
}

#[test]
fn sources_of_standard_entries(rt: HostRuntime) -> Result<(), Fail> {
    let text = answered(rt.alloc(), SOURCES, "\n", push_source)?;
    assert_eq!(rt; text.as_str(), SOURCES);
    Ok(())
}

/// A packet of TCP with these fields, from 9 to 7; its flags are below 64.
fn segment(sport: u16, dport: u16, flags: u8) -> Packet {
    Packet {
        src: 9,
        dst: 7,
        sport,
        dport,
        proto: 6,
        flags: flags % 64,
        icmp_type: 0,
        icmp_code: 0,
    }
}

/// An echo request of ICMP with this code, from 9 to 7.
fn ping(icmp_code: u8) -> Packet {
    Packet {
        src: 9,
        dst: 7,
        sport: 0,
        dport: 0,
        proto: 1,
        flags: 0,
        icmp_type: 8,
        icmp_code,
    }
}

/// The packet of TCP that two ports and flags tell, or the echo request that a code tells.
fn packet_of(fields: &str) -> Result<Packet, Fail> {
    let Some((sport, others)) = fields.split_once(' ') else {
        return Ok(ping(fields.parse::<u8>()?));
    };
    let (dport, flags) = parted(others)?;
    Ok(segment(
        sport.parse::<u16>()?,
        dport.parse::<u16>()?,
        flags.parse::<u8>()?,
    ))
}

/// Writes the verdict of an entry and its protocol.
fn push_head(text: &mut String, entry: &Entry) -> Result<(), Fail> {
    text.push_str(match entry.verdict {
        Verdict::Permit => "permit ",
        Verdict::Deny => "deny ",
    })?;
    if let Some(protocol) = entry.proto {
        write!(text, "{protocol} ")?;
    }
    Ok(())
}

/// Writes what an entry does with which protocol, and whether it matches a packet.
fn push_match(alloc: Global, given: &str, text: &mut String) -> Result<(), Fail> {
    let (line, fields) = given.split_once(": ").ok_or("no packet")?;
    let entry = entry_of(alloc, true, line)?;
    push_head(text, &entry)?;
    push_answer(text, entry.matches(&packet_of(fields)?))
}

/// Entries, and a packet from port 1 to a port that matches, and one that does not.
const TESTS_OF_PORTS: &str = "permit tcp any any gt 80: 1 81 0 => permit 6 yes
permit tcp any any gt 80: 1 80 0 => permit 6 no
permit tcp any any gt 65535: 1 65535 0 => permit 6 no
permit tcp any any lt 0: 1 0 0 => permit 6 no
permit tcp any any lt 80: 1 79 0 => permit 6 yes
permit tcp any any lt 80: 1 80 0 => permit 6 no
permit tcp any any neq 0: 1 65535 0 => permit 6 yes
permit tcp any any neq 0: 1 0 0 => permit 6 no
permit tcp any any neq www: 1 0 0 => permit 6 yes
permit tcp any any neq www: 1 80 0 => permit 6 no
permit tcp any any range 20 30: 1 30 0 => permit 6 yes
permit tcp any any range 20 30: 1 31 0 => permit 6 no
permit tcp any any range ftp www: 1 21 0 => permit 6 yes
permit tcp any any range ftp www: 1 20 0 => permit 6 no
permit tcp any any eq 80 log: 1 80 0 => permit 6 yes
permit tcp any any eq 80 log: 1 0 0 => permit 6 no
";

#[test]
fn tests_of_ports_match_these_and_no_others(rt: HostRuntime) -> Result<(), Fail> {
    let text = answered(rt.alloc(), TESTS_OF_PORTS, "\n", push_match)?;
    assert_eq!(rt; text.as_str(), TESTS_OF_PORTS);
    Ok(())
}

/// Entries, and a packet of TCP with its ports and flags, or an echo request with its code.
const CONDITIONS: &str =
    "deny tcp any neq 5 host 0.0.0.7 range 80 81 established: 4 81 4 => deny 6 yes
deny tcp any neq 5 host 0.0.0.7 range 80 81 established: 4 80 16 => deny 6 yes
deny tcp any neq 5 host 0.0.0.7 range 80 81 established: 4 81 8 => deny 6 no
deny tcp any neq 5 host 0.0.0.7 range 80 81 established: 5 81 4 => deny 6 no
deny tcp any neq 5 host 0.0.0.7 range 80 81 established: 4 82 4 => deny 6 no
deny tcp any host 0.0.0.6: 4 81 4 => deny 6 no
deny udp any any: 4 81 4 => deny 17 no
permit icmp any any 8 0: 0 => permit 1 yes
permit icmp any any 8 0: 1 => permit 1 no
deny tcp any host 0.0.0.6: 0 => deny 6 no
";

#[test]
fn every_condition_of_an_entry_counts(rt: HostRuntime) -> Result<(), Fail> {
    let text = answered(rt.alloc(), CONDITIONS, "\n", push_match)?;
    assert_eq!(rt; text.as_str(), CONDITIONS);
    Ok(())
}

#[test]
fn laws_of_access_lists() {
    established_bits();
    one_reading();
}
