ghost use Rattle.std.specs.Prelude.{IfOk};
ghost use Rattle.std.specs.List.{AllByRecursion};
ghost use Rattle.ios_route.specs.ActiveRoutes.{AreLengths};

use ios_lex::{Dotted, Word, address, lines, words_in};
use ios_route::{
    Choice, Interface, LineFault, NatMark, RouteExit, RouteFault, Routes, StaticRoute, one_route,
    read_route,
};
use std::alloc::Global;
use std::test::Fail;
use test_tables::{answered, push_bytes, push_reason};

/// Writes where the route leads.
fn push_exit(text: &mut String, exit: &RouteExit) -> Result<(), Fail> {
    match exit {
        RouteExit::Hop(hop) => write!(text, "to {}", Dotted(*hop))?,
        RouteExit::Out(name, hop) => {
            text.push_str("out ")?;
            push_bytes(text, name.bytes())?;
            if let Some(hop) = hop {
                write!(text, " to {}", Dotted(*hop))?;
            }
        }
        RouteExit::Null => text.push_str("nowhere")?,
    }
    Ok(())
}

/// Writes the prefix of the route, where it leads, and its distance.
fn push_route(text: &mut String, route: &StaticRoute) -> Result<(), Fail> {
    write!(text, "{}/{} ", Dotted(route.prefix), route.len)?;
    push_exit(text, &route.exit)?;
    write!(text, " at {}", route.distance)?;
    Ok(())
}

/// Writes the route that the words behind `ip route` say, or the reason of their refusal.
fn push_line(alloc: Global, given: &str, text: &mut String) -> Result<(), Fail> {
    let words = words_in(alloc, given.as_bytes())?;
    match read_route(alloc, 1, words.as_slice()) {
        Ok(route) => push_route(text, &route),
        Err(LineFault::Refused(reason)) => push_reason(text, &reason),
        Err(LineFault::NoMemory) => Ok(text.push_str("no memory")?),
    }
}

const READ: &str = "10.0.0.0 255.0.0.0 192.0.2.1 => 10.0.0.0/8 to 192.0.2.1 at 1
0.0.0.0 0.0.0.0 Null0 => 0.0.0.0/0 nowhere at 1
10.1.0.0 255.255.0.0 Null0 254 => 10.1.0.0/16 nowhere at 254
192.0.2.9 255.255.255.255 Serial0/1 tag 9999999999 => 192.0.2.9/32 out Serial0/1 at 1
10.0.0.0 255.0.0.0 Serial0/1 192.0.2.1 => 10.0.0.0/8 out Serial0/1 to 192.0.2.1 at 1
10.0.0.0 255.0.0.0 E0/1 192.0.2.1 20 permanent name WAN tag 7 \
=> 10.0.0.0/8 out E0/1 to 192.0.2.1 at 20
10.0.0.0 255.0.0.0 192.0.2.1 name permanent permanent => 10.0.0.0/8 to 192.0.2.1 at 1
";

#[test]
fn lines_of_routes_are_read(rt: HostRuntime) -> Result<(), Fail> {
    let text = answered(rt.alloc(), READ, "\n", push_line)?;
    assert_eq!(rt; text.as_str(), READ);
    Ok(())
}

const REFUSED: &str = " => bad entry
10.0.0.0 => bad entry
10.0.0.0 255.0.0.0 => bad entry
10.0.0 255.0.0.0 Null0 => bad address
10.0.0.0 Null0 => bad address
10.0.0.1 255.0.0.0 Null0 => bad mask
10.0.0.0 255.0.255.0 Null0 => bad mask
vrf RED 10.0.0.0 255.0.0.0 Null0 => unmodelled vrf
track 1 => unmodelled track
10.0.0.0 vrf => bad address
10.0.0.0 track => unmodelled track
10.0.0.0 255.0.0.0 track => unmodelled track
10.0.0.0 255.0.0.0 192.0.2.1 track 1 => unmodelled track
10.0.0.0 255.0.0.0 Null0 name track => unmodelled track
10.0.0.0 255.0.0.0 a\"b => bad entry
10.0.0.0 255.0.0.0 192.0.2.1 255 => bad number
10.0.0.0 255.0.0.0 192.0.2.1 0 => bad number
10.0.0.0 255.0.0.0 192.0.2.1 12x => bad number
10.0.0.0 255.0.0.0 192.0.2.1 far => bad entry
10.0.0.0 255.0.0.0 Null0 10.0.0.1 => bad number
10.0.0.0 255.0.0.0 Serial0/1 12x => bad number
10.0.0.0 255.0.0.0 Null0 permanent permanent => bad entry
10.0.0.0 255.0.0.0 Null0 permanent 5 => bad entry
10.0.0.0 255.0.0.0 Null0 name => bad entry
10.0.0.0 255.0.0.0 Null0 name a\"b => bad entry
10.0.0.0 255.0.0.0 Null0 tag => bad entry
10.0.0.0 255.0.0.0 Null0 tag x => unknown name
10.0.0.0 255.0.0.0 Null0 tag 10000000000 => bad number
";

#[test]
fn lines_of_routes_are_refused(rt: HostRuntime) -> Result<(), Fail> {
    let text = answered(rt.alloc(), REFUSED, "\n", push_line)?;
    assert_eq!(rt; text.as_str(), REFUSED);
    Ok(())
}

/// An interface with one address, in a network of 24 bits.
fn interface(
    alloc: Global,
    name: &str,
    number: u16,
    address: u32,
    shut: bool,
) -> Result<Interface, Fail>
    ensures { IfOk result AreLengths }
{
    Ok(Interface {
        name: Word::of(alloc, name.as_bytes())?,
        number,
        addresses: vec![in alloc; (address, 24)]?,
        list_in: None,
        list_out: None,
        mark: NatMark::Plain,
        shut,
    })
}

/// The interfaces A and B, and C, which is shut down.
fn interfaces(alloc: Global) -> Result<Vec<Interface>, Fail>
    ensures { IfOk result (λ made. AllByRecursion AreLengths made.items) }
{
    let first = interface(alloc, "A", 0, 0x0a00_0101, false)?;
    let second = interface(alloc, "B", 1, 0x0a00_0201, false)?;
    let third = interface(alloc, "C", 2, 0x0a00_0301, true)?;
    Ok(vec![in alloc; first, second, third]?)
}

/// The static routes whose words behind `ip route` are the lines of the text.
fn static_routes(alloc: Global, text: &str) -> Result<Vec<StaticRoute>, Fail> {
    let lines = lines(alloc, text.as_bytes())?;
    let mut routes = Vec::new(alloc);
    for line in &lines {
        routes.push(read_route(alloc, line.number, line.words.as_slice())?)?;
    }
    Ok(routes)
}

/// Writes where a route leads: the number of the interface and the next hop.
fn push_choice(text: &mut String, choice: Choice) -> Result<(), Fail> {
    match choice.exit {
        Some(exit) => write!(text, "{exit} to {}; ", Dotted(choice.next_hop))?,
        None => text.push_str("nowhere; ")?,
    }
    Ok(())
}

/// The lines of some routes: two equal ones, longer ones, and one over the interface that is shut down.
const ROUTES: &str = "10.8.0.0 255.255.0.0 10.0.1.2
10.8.0.0 255.255.0.0 10.0.2.2
10.8.9.0 255.255.255.0 A 10.0.1.9 5
10.8.9.0 255.255.255.0 B 10.0.2.9 4
10.8.9.128 255.255.255.128 C
10.9.0.0 255.255.0.0 Null0
172.16.0.0 255.240.0.0 B
";

/// An address, and its best routes over these interfaces.
const BEST: &str = "10.8.1.1 => 0 to 10.0.1.2; 1 to 10.0.2.2; end
10.8.9.7 => 1 to 10.0.2.9; end
10.8.9.200 => 1 to 10.0.2.9; end
10.9.255.255 => nowhere; end
172.31.0.1 => 1 to 172.31.0.1; end
10.0.1.77 => 0 to 10.0.1.77; end
10.0.3.77 => end
192.0.2.1 => end
";

fn push_best(alloc: Global, given: &str, text: &mut String) -> Result<(), Fail> {
    let to = address(given.as_bytes()).ok_or("no address")?;
    let interfaces = interfaces(alloc)?;
    let routes = static_routes(alloc, ROUTES)?;
    let routes = Routes::new(alloc, interfaces.as_slice(), routes.as_slice())?;
    for choice in routes.best(to) {
        push_choice(text, choice)?;
    }
    Ok(text.push_str("end")?)
}

#[test]
fn longest_prefix_and_then_least_distance(rt: HostRuntime) -> Result<(), Fail> {
    let text = answered(rt.alloc(), BEST, "\n", push_best)?;
    assert_eq!(rt; text.as_str(), BEST);
    Ok(())
}

/// The lines of some routes, and how many routes are active with those of the interfaces, or the line that is refused.
const ACTIVE: &str = " => 2~
10.8.0.0 255.255.0.0 10.0.1.2
10.8.0.0 255.255.0.0 C
10.8.0.0 255.255.0.0 Null0
 => 4~
10.8.0.0 255.255.0.0 C
10.8.0.0 255.255.0.0 10.0.3.2
10.8.0.0 255.255.0.0 D
 => 2 not connected~
10.8.0.0 255.255.0.0 D 10.0.1.2
10.8.0.0 255.255.0.0 10.0.3.2
 => 1 unknown interface~
";

fn push_active(alloc: Global, given: &str, text: &mut String) -> Result<(), Fail> {
    let interfaces = interfaces(alloc)?;
    let routes = static_routes(alloc, given)?;
    match Routes::new(alloc, interfaces.as_slice(), routes.as_slice()) {
        Ok(routes) => write!(text, "{}", routes.active().len())?,
        Err(RouteFault::NextHopNotConnected { line }) => write!(text, "{line} not connected")?,
        Err(RouteFault::UnknownInterface { line }) => write!(text, "{line} unknown interface")?,
        Err(RouteFault::NoMemory) => text.push_str("no memory")?,
    }
    Ok(())
}

#[test]
fn routes_that_lead_nowhere_are_refused(rt: HostRuntime) -> Result<(), Fail> {
    let text = answered(rt.alloc(), ACTIVE, "~\n", push_active)?;
    assert_eq!(rt; text.as_str(), ACTIVE);
    Ok(())
}

#[test]
fn laws_of_routes() {
    one_route();
}
