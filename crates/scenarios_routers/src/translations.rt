use ios_lex::{Dotted, address, words_in};
use ios_nat::{DynamicFrom, NatFault, NatTable, one_reading};
use std::alloc::Global;
use std::test::Fail;
use test_tables::{answered, parted, push_bytes, push_reason};

/// Writes what the table says of a line: `read`, or the reason of its refusal.
fn push_reading(text: &mut String, read: Result<(), NatFault>) -> Result<(), Fail> {
    match read {
        Ok(()) => Ok(text.push_str("read")?),
        Err(NatFault::Refused(reason)) => push_reason(text, &reason),
        Err(NatFault::NoMemory) => Ok(text.push_str("no memory")?),
    }
}

/// The rows with what the table says of their lines, one after another. The first line has number 1.
fn readings(alloc: Global, table: &mut NatTable, rows: &str) -> Result<String, Fail> {
    let mut number: u64 = 0;
    answered(alloc, rows, "\n", |alloc, line, text| {
        number = number.saturating_add(1);
        let words = words_in(alloc, line.as_bytes())?;
        push_reading(text, table.read_line(number, words.as_slice()))
    })
}

/// Writes how many static entries of each form the table has.
fn push_counts(text: &mut String, table: &NatTable) -> Result<(), Fail> {
    write!(
        text,
        "{} ports, {} addresses\n",
        table.port_entries().len(),
        table.address_entries().len()
    )?;
    Ok(())
}

/// Writes the name of a pool and its two addresses, or `none`.
fn push_pool(text: &mut String, table: &NatTable, name: &str) -> Result<(), Fail> {
    match table.pool(name.as_bytes()) {
        Some((first, last)) => writeln!(text, "{name} from {} to {}", Dotted(first), Dotted(last))?,
        None => writeln!(text, "{name} none")?,
    }
    Ok(())
}

/// Writes the dynamic entries of the table, one a line.
fn push_dynamic(text: &mut String, table: &NatTable) -> Result<(), Fail> {
    for entry in table.dynamic() {
        write!(text, "{} ", entry.line)?;
        push_bytes(text, entry.list.bytes())?;
        let name = match &entry.from {
            DynamicFrom::Pool(name) => {
                text.push_str(" from pool ")?;
                name
            }
            DynamicFrom::Interface(name) => {
                text.push_str(" from interface ")?;
                name
            }
        };
        push_bytes(text, name.bytes())?;
        text.push_str(if entry.overload { ", overload\n" } else { "\n" })?;
    }
    Ok(())
}

/// The rows with what a new table says of their lines, and then what the table has.
fn outcome(alloc: Global, rows: &str) -> Result<String, Fail> {
    let mut table = NatTable::new(alloc);
    let mut text = readings(alloc, &mut table, rows)?;
    push_counts(&mut text, &table)?;
    push_pool(&mut text, &table, "p")?;
    push_pool(&mut text, &table, "10")?;
    push_dynamic(&mut text, &table)?;
    Ok(text)
}

const STATIC: &str = "ip nat inside source static 10.0.0.1 192.0.2.1 => read
ip nat inside source static tcp 10.0.0.2 80 192.0.2.2 8080 extendable => read
ip nat inside source static udp 10.0.0.2 80 192.0.2.2 8080 no-alias extendable => read
ip nat inside source static tcp 10.0.0.1 22 192.0.2.2 22 => read
ip nat inside source static 10.0.0.1 192.0.2.3 => duplicate static
ip nat inside source static 10.0.0.3 192.0.2.1 => duplicate static
ip nat inside source static tcp 10.0.0.2 80 192.0.2.9 80 => duplicate static
ip nat inside source static tcp 10.0.0.9 80 192.0.2.2 8080 => duplicate static
ip nat inside source static icmp 10.0.0.2 192.0.2.4 => bad address
ip nat inside source static tcp 10.0.0.2 www 192.0.2.4 80 => unknown name
ip nat inside source static tcp 10.0.0.2 65536 192.0.2.4 80 => bad number
ip nat inside source static 10.0.0.4 interface Serial0 => unmodelled interface
ip nat inside source static network 10.0.0.0 192.0.2.0 => unmodelled network
ip nat inside source static 10.0.0.4 192.0.2.4 vrf x => unmodelled vrf
ip nat inside source static 10.0.0.4 192.0.2.4 no-alias no-alias => bad entry
ip nat inside source static 10.0.0.4 => bad entry
ip nat inside source route-map m pool p => unmodelled route-map
ip nat inside source => bad entry
ip nat outside source static 192.0.2.4 10.0.0.4 => bad entry
3 ports, 1 addresses
p none
10 none
";

#[test]
fn static_lines(rt: HostRuntime) -> Result<(), Fail> {
    let text = outcome(rt.alloc(), STATIC)?;
    assert_eq!(rt; text.as_str(), STATIC);
    Ok(())
}

const POOLS: &str = "ip nat pool p 192.0.2.8 192.0.2.15 netmask 255.255.255.248 => read
ip nat pool 10 192.0.2.1 192.0.2.1 prefix-length 32 => read
ip nat pool p nonsense => duplicate pool
ip nat pool type rotary => unmodelled type
ip nat pool \"r\" 192.0.2.8 192.0.2.9 prefix-length 24 => bad entry
ip nat pool r 192.0.2.9 192.0.2.8 netmask 0.0.255.0 => bad entry
ip nat pool r 192.0.2.8 192.0.2.9 netmask 0.0.255.0 => bad mask
ip nat pool r 192.0.2.8 192.0.2.9 netmask 24 => bad address
ip nat pool r 192.0.2.8 192.0.2.9 prefix-length 33 => bad number
ip nat pool r 192.0.2.8 192.0.2.9 prefix-length 0 => bad number
ip nat pool r 192.0.2.8 192.0.2.9 prefix-length all => unknown name
ip nat pool r 192.0.2.8 192.0.2.9 prefix-length 24 type rotary => unmodelled type
ip nat pool r 192.0.2.8 192.0.2.9 wildcard 0.0.0.7 => bad entry
ip nat pool r 192.0.2.8 192.0.2.9 => bad entry
0 ports, 0 addresses
p from 192.0.2.8 to 192.0.2.15
10 from 192.0.2.1 to 192.0.2.1
";

#[test]
fn lines_of_pools(rt: HostRuntime) -> Result<(), Fail> {
    let text = outcome(rt.alloc(), POOLS)?;
    assert_eq!(rt; text.as_str(), POOLS);
    Ok(())
}

const DYNAMIC: &str = "ip nat inside source list 10 pool p overload => read
ip nat inside source list 10 pool p reversible => unmodelled reversible
ip nat inside source list vrf pool p => unmodelled vrf
ip nat inside source list 10 route-map m => unmodelled route-map
ip nat inside source list 10 static p => bad entry
ip nat inside source list 10 pool => bad entry
ip nat inside source list 10 pool p overload overload => bad entry
ip nat inside source list inside interface Serial0/1 => read
0 ports, 0 addresses
p none
10 none
1 10 from pool p, overload
8 inside from interface Serial0/1
";

#[test]
fn dynamic_lines(rt: HostRuntime) -> Result<(), Fail> {
    let text = outcome(rt.alloc(), DYNAMIC)?;
    assert_eq!(rt; text.as_str(), DYNAMIC);
    Ok(())
}

/// Writes what the source of a packet of TCP becomes, and what the destination does.
fn push_translation(text: &mut String, table: &NatTable, given: &str) -> Result<(), Fail> {
    let (host, port) = parted(given)?;
    let host = address(host.as_bytes()).ok_or("no address")?;
    let port = port.parse::<u16>().map_err(|_| "no port")?;
    match table.fixed_source(6, host, port) {
        Some((source, port)) => write!(text, "{} {port}", Dotted(source))?,
        None => text.push_str("none")?,
    }
    let (destination, port) = table.destination(6, host, port);
    write!(text, "; {} {port}", Dotted(destination))?;
    Ok(())
}

const TRANSLATIONS: &str = "10.0.0.1 80 => 192.0.2.1 80; 10.0.0.1 80
10.0.0.1 22 => 192.0.2.2 22; 10.0.0.1 22
10.0.0.2 80 => 192.0.2.2 8080; 10.0.0.2 80
10.0.0.2 81 => none; 10.0.0.2 81
192.0.2.1 80 => none; 10.0.0.1 80
192.0.2.2 22 => none; 10.0.0.1 22
192.0.2.2 8080 => none; 10.0.0.2 80
192.0.2.2 80 => none; 192.0.2.2 80
";

/// The rows with what the static entries of the lines above make of packets.
fn translated(alloc: Global, rows: &str) -> Result<String, Fail> {
    let mut table = NatTable::new(alloc);
    readings(alloc, &mut table, STATIC)?;
    answered(alloc, rows, "\n", |_, given, text| {
        push_translation(text, &table, given)
    })
}

#[test]
fn a_port_entry_comes_before_an_address_entry(rt: HostRuntime) -> Result<(), Fail> {
    let text = translated(rt.alloc(), TRANSLATIONS)?;
    assert_eq!(rt; text.as_str(), TRANSLATIONS);
    Ok(())
}

#[test]
fn laws_of_translations() {
    one_reading();
}
