use ios_interface::{Draft, LineFault, Taken, one_line};
use ios_lex::{Dotted, Word, words_in};
use ios_route::{Interface, NatMark};
use std::alloc::Global;
use std::test::Fail;
use test_tables::{answered, push_bytes, push_reason};

/// Writes nothing of a line that is read, and of another that it is ignored or why it is refused.
fn push_reading(text: &mut String, read: Result<Taken, LineFault>) -> Result<(), Fail> {
    match read {
        Ok(Taken::Modelled) => Ok(()),
        Ok(Taken::Ignored) => Ok(text.push_str("ignored, ")?),
        Err(LineFault::Refused(reason)) => {
            push_reason(text, &reason)?;
            Ok(text.push_str(", ")?)
        }
        Err(LineFault::NoMemory) => Ok(text.push_str("no memory, ")?),
    }
}

/// Writes the word before the name of the list, where there is a list.
fn push_list(text: &mut String, word: &str, list: &Option<Word>) -> Result<(), Fail> {
    if let Some(name) = list {
        text.push_str(word)?;
        push_bytes(text, name.bytes())?;
    }
    Ok(())
}

/// Writes the name and the number of the interface, its addresses, its lists, its mark, and whether it is shut down.
fn push_interface(text: &mut String, interface: &Interface) -> Result<(), Fail> {
    push_bytes(text, interface.name.bytes())?;
    write!(text, " {}", interface.number)?;
    for (address, len) in interface.addresses.as_slice() {
        write!(text, " {}/{len}", Dotted(*address))?;
    }
    push_list(text, " in ", &interface.list_in)?;
    push_list(text, " out ", &interface.list_out)?;
    text.push_str(match interface.mark {
        NatMark::Inside => " inside",
        NatMark::Outside => " outside",
        NatMark::Plain => "",
    })?;
    text.push_str(if interface.shut { " shut" } else { "" })?;
    Ok(())
}

/// Writes what the interface `e0` says of the lines, each with a semicolon behind it, and then the interface.
fn push_block(alloc: Global, lines: &str, text: &mut String) -> Result<(), Fail> {
    let mut draft = Draft::new(alloc, Word::of(alloc, b"e0")?, 7);
    let mut rest = lines;
    for _ in 0..lines.len() {
        let Some((line, others)) = rest.split_once(";") else {
            break;
        };
        let words = words_in(alloc, line.as_bytes())?;
        push_reading(text, draft.read_line(words.as_slice()))?;
        rest = others;
    }
    push_interface(text, &draft.finish()?)
}

const BLOCKS: &str = " => e0 7
ip address 10.0.0.1 255.255.255.0; => e0 7 10.0.0.1/24
ip address 10.0.0.1 255.255.255.0; ip address 10.0.0.2 255.255.0.0; => e0 7 10.0.0.2/16
ip address 10.1.0.1 255.0.0.0 secondary; ip address 10.0.0.1 255.255.255.252; \
=> e0 7 10.0.0.1/30 10.1.0.1/8
ip address 1.0.0.1 0.0.0.0 secondary; ip address 2.0.0.1 255.255.255.255 secondary; \
=> e0 7 1.0.0.1/0 2.0.0.1/32
ip address 1.0.0.1 255.0.0.0; ip address 2.0.0.1 255.0.0.0 secondary; no ip address; => e0 7
ip access-group 101 in; ip access-group edge out; ip access-group 102 in; => e0 7 in 102 out edge
ip nat inside; => e0 7 inside
ip nat inside; ip nat outside; => e0 7 outside
shutdown; => e0 7 shut
shutdown; no shutdown; => e0 7
description to the core; ip nat; ip; no ip proxy-arp; ip nat x; \
=> ignored, ignored, ignored, ignored, ignored, e0 7
";

#[test]
fn lines_of_a_block(rt: HostRuntime) -> Result<(), Fail> {
    let text = answered(rt.alloc(), BLOCKS, "\n", push_block)?;
    assert_eq!(rt; text.as_str(), BLOCKS);
    Ok(())
}

const REFUSED: &str = "ip policy route-map m; => unmodelled ip policy, e0 7
crypto map m; ip inspect f in; => unmodelled crypto map, unmodelled ip inspect, e0 7
zone-member security z; ip vrf forwarding v; => unmodelled zone-member, unmodelled ip vrf, e0 7
vrf forwarding v; ip verify unicast source; => unmodelled vrf, unmodelled ip verify, e0 7
ip unnumbered Loopback0; ip address dhcp; \
=> unmodelled ip unnumbered, unmodelled ip address dhcp, e0 7
ip address negotiated; ip nat enable; \
=> unmodelled ip address negotiated, unmodelled ip nat enable, e0 7
ip address; ip address 10.0.0.1; => bad entry, bad entry, e0 7
ip address 10.0.0 255.0.0.0; ip address 10.0.0.1 /8; => bad address, bad address, e0 7
ip address 10.0.0.1 0.0.0.255; ip address 10.0.0.1 255.0.255.0 second; => bad mask, bad mask, e0 7
ip address 10.0.0.1 255.0.0.0 second; => bad entry, e0 7
ip address 10.0.0.1 255.0.0.0 secondary secondary; => bad entry, e0 7
no ip address 10.0.0.1 255.0.0.0; shutdown now; => bad entry, bad entry, e0 7
no shutdown now; ip nat inside x; ip nat outside x; => bad entry, bad entry, bad entry, e0 7
ip access-group; ip access-group 101; => bad entry, bad entry, e0 7
ip access-group \"a\" in; ip access-group 101 both; => bad entry, bad entry, e0 7
ip access-group 101 in out; => bad entry, e0 7
";

#[test]
fn lines_that_are_refused(rt: HostRuntime) -> Result<(), Fail> {
    let text = answered(rt.alloc(), REFUSED, "\n", push_block)?;
    assert_eq!(rt; text.as_str(), REFUSED);
    Ok(())
}

#[test]
fn law_of_lines() {
    one_line();
}
