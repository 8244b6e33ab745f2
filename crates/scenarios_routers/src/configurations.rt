use ios_config::{ConfigFault, NameTable, Router, read_config};
use std::alloc::Global;
use std::test::Fail;
use test_tables::{answered, push_reason};

/// Writes how many interfaces, lists, static routes, active routes, static and dynamic entries and ignored lines there are.
fn push_router(text: &mut String, router: &Router) -> Result<(), Fail> {
    let nat = &router.nat;
    Ok(write!(
        text,
        "{} {} {} {} {} {} {}",
        router.interfaces.len(),
        router.lists.len(),
        router.static_routes,
        router.routes.active().len(),
        nat.port_entries().len() + nat.address_entries().len(),
        nat.dynamic().len(),
        router.ignored
    )?)
}

/// Reads the configuration, behind one that has the interface e0, and writes what there is of it, or the line and the reason of
/// its refusal, and then how many names are known.
fn push_read(alloc: Global, given: &str, text: &mut String) -> Result<(), Fail> {
    let mut names = NameTable::new(alloc);
    read_config(alloc, b"interface e0", &mut names)?;
    match read_config(alloc, given.as_bytes(), &mut names) {
        Ok(router) => push_router(text, &router)?,
        Err(ConfigFault::At { line, reason }) => {
            write!(text, "{line} ")?;
            push_reason(text, &reason)?;
        }
        Err(ConfigFault::NoMemory) => text.push_str("no memory")?,
    }
    Ok(write!(text, ", {}", names.len())?)
}

/// Configurations; how many interfaces, lists, static routes, active routes, static and dynamic entries and ignored lines
/// each has, or why it is refused; and how many names are known behind it.
const CONFIGURATIONS: &str = "hostname r
interface e0
 ip address 10.0.0.1 255.255.255.0
 description lan
interface e1 point-to-point
 ip address 192.0.2.1 255.255.255.0
interface e0
 ip address 10.0.1.1 255.255.255.0 secondary
ip route 0.0.0.0 0.0.0.0 192.0.2.2
ip nat inside source static 10.0.0.5 192.0.2.5
ip nat inside source list 1 interface e1 overload
access-list 1 permit any
banner motd x
 access-list 2 permit any
x
 access-list 3 permit any
ip nat inside source
line vty 0 4
 login => 2 1 1 4 1 1 9, 2;
interface A
 ip address 10.0.0.1 255.0.0.0
ip route 192.0.2.0 255.255.255.0 10.0.0.2
interface A
 shutdown => 3 next hop not connected, 1;
interface e1
router ospf 1 => 2 unmodelled router, 1;
ip nat outside source static 1.1.1.1 2.2.2.2 => 1 unmodelled ip nat outside source, 1;
ip route 10.0.0.0 255.0.0.0 e7
ip nat inside source list 1 pool P => 1 unknown interface, 1;
ip nat inside source list 1 pool P
ip nat inside source list 1 interface e9 => 1 unknown pool, 1;
ip nat inside source list 1 interface e9
ip nat inside source list 1 pool P => 1 unknown interface, 1;
interface e1
 ip access-group 1 up
banner x
banner motd x => 2 bad entry, 1;
interface e1
banner motd #
 text => 2 unclosed, 1;
interface => 1 bad entry, 1;
interface e1 e2 => 1 bad entry, 1;
 ip address 1.1.1.1
no access-list 1 => 0 0 0 0 0 0 2, 1;
";

#[test]
fn configurations_are_read_whole(rt: HostRuntime) -> Result<(), Fail> {
    let text = answered(rt.alloc(), CONFIGURATIONS, ";\n", push_read)?;
    assert_eq!(rt; text.as_str(), CONFIGURATIONS);
    Ok(())
}
