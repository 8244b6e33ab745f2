use crate::access_lists::push_list;
use ios_config::{ConfigFault, Router, one_config, read_config, written_list};
use ios_names::NameTable;
use std::alloc::Global;
use std::test::Fail;
use test_tables::{answered, push_reason};

/// Writes the name, the kind and the numbers of the entries of each list, and how many lines were ignored.
fn push_router(text: &mut String, router: &Router) -> Result<(), Fail> {
    for list in &router.lists {
        push_list(text, list)?;
        text.push_str("; ")?;
    }
    write!(text, "{} ignored", router.ignored)?;
    Ok(())
}

/// Writes what a configuration says, or its line that is refused.
fn push_config(alloc: Global, given: &str, text: &mut String) -> Result<(), Fail> {
    let mut names = NameTable::new(alloc);
    match read_config(alloc, given.as_bytes(), &mut names) {
        Ok(router) => push_router(text, &router),
        Err(ConfigFault::At { line, reason }) => {
            write!(text, "{line} ")?;
            push_reason(text, &reason)
        }
        Err(ConfigFault::NoMemory) => Ok(text.push_str("no memory")?),
    }
}

/// Configurations, and what they are read as.
const READ: &str = " => 0 ignored~
! nothing

 => 0 ignored~
access-list 10 permit any\r
access-list 10 deny host 10.0.0.1\r
 => 10 standard 10 20; 0 ignored~
access-list 101 permit ip any any
access-list 10 deny any
access-list 101 deny ip any any => 101 extended 10 20; 10 standard 10; 0 ignored~
access-list 10 permit any
access-list 010 permit any
 => 10 standard 10; 010 standard 10; 0 ignored~
access-list 1999 deny any
access-list 2699 deny ip any any
 => 1999 standard 10; 2699 extended 10; 0 ignored~
access-list 10 remark servers
 => 10 standard; 0 ignored~
access-list 200 permit 0x800
access-list 1299
access-list 10 deny any
 => 10 standard 10; 2 ignored~
ip access-list extended EDGE
 permit ip any any
!

 5 deny udp any any
 => EDGE extended 5 10; 0 ignored~
ip access-list standard 10
 => 10 standard; 0 ignored~
ip access-list standard A
 deny any
ip access-list extended B
ip access-list standard A
\tpermit any
 => A standard 10 20; B extended; 0 ignored~
ip access-list extended 100
 permit ip any any
access-list 100 deny ip any any
 => 100 extended 10 20; 0 ignored~
ip access-list extended 300
 permit ip any any
access-list 300 deny ip any any
 => 300 extended 10; 1 ignored~
hostname edge
access-list 10 deny any
 permit any
 => 10 standard 10; 2 ignored~
ip access-list standard A
access-list 200
 permit any
 => A standard; 2 ignored~
banner motd #
access-list 10 permit any
#
 => 3 ignored~
";

#[test]
fn lists_are_read(rt: HostRuntime) -> Result<(), Fail> {
    let text = answered(rt.alloc(), READ, "~\n", push_config)?;
    assert_eq!(rt; text.as_str(), READ);
    Ok(())
}

/// Configurations with lines of numbered lists, and the line and the reason of their refusal.
const NUMBERED: &str = "access-list => 1 bad entry~
access-list ten permit any => 1 bad number~
access-list 12345678901 permit any => 1 bad number~
access-list 0 permit any => 1 wrong kind~
access-list 2700 nonsense => 1 wrong kind~
! a comment

ip access-list extended 010
 permit ip any any
access-list 010 permit any => 3 wrong kind~
access-list 10 => 1 bad entry~
access-list 101 dynamic in permit ip any any => 1 unmodelled dynamic~
access-list 101 evaluate back => 1 unmodelled evaluate~
access-list 10 20 permit any => 1 bad entry~
access-list 10 permit nowhere => 1 bad address~
access-list 10 permit any
access-list 101 permit ip any any now => 2 bad entry~
access-list 2000 permit any => 1 unknown name~
";

#[test]
fn lines_of_numbered_lists_are_refused(rt: HostRuntime) -> Result<(), Fail> {
    let text = answered(rt.alloc(), NUMBERED, "~\n", push_config)?;
    assert_eq!(rt; text.as_str(), NUMBERED);
    Ok(())
}

/// Configurations with other lines, and the line and the reason of their refusal.
const OTHERS: &str = "ip access-list => 1 bad entry~
ip access-list logging 5 => 1 unmodelled logging~
ip access-list standard => 1 bad entry~
ip access-list extended 10 => 1 wrong kind~
ip access-list standard 0100 more => 1 wrong kind~
ip access-list standard A
ip access-list extended A => 2 wrong kind~
ip access-list standard A B => 1 bad entry~
ip access-list standard A\"B => 1 bad entry~
ip access-list standard A
 permit nowhere => 2 bad address~
ip access-list standard A
!
 10 permit any
 10 deny any
hostname edge => 4 duplicate sequence~
hostname edge
router ospf 1 => 2 unmodelled router~
ip route 0.0.0.0 0.0.0.0 10.0.0.1 => 1 next hop not connected~
access-list 10 permit any

banner motd #
 => 3 unclosed~
hostname edge
router ospf 1
banner motd #
 => 2 unmodelled router~
access-list 10
banner motd #
 => 1 bad entry~
";

#[test]
fn other_lines_are_refused(rt: HostRuntime) -> Result<(), Fail> {
    let text = answered(rt.alloc(), OTHERS, "~\n", push_config)?;
    assert_eq!(rt; text.as_str(), OTHERS);
    Ok(())
}

#[test]
fn laws_of_configurations() {
    one_config();
    written_list();
}
