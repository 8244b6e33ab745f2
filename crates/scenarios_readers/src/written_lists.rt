use ios_acl::{Acl, is_block_name, write_acl};
use ios_lex::{Word, lines};
use std::alloc::Global;
use std::test::Fail;
use test_tables::{answered, parted, push_answer};

/// The list whose entries the indented lines of the text spell.
fn list_of(alloc: Global, name: &[u8], extended: bool, text: &[u8]) -> Result<Acl, Fail> {
    let mut list = Acl::new(alloc, Word::of(alloc, name)?, extended);
    let lines = lines(alloc, text)?;
    for line in &lines {
        if line.indented {
            list.read_line(line.words.as_slice())?;
        }
    }
    Ok(list)
}

/// What is written of the list of this text, where it can be read in a block and is read as the same entries.
fn written(alloc: Global, name: &[u8], extended: bool, given: &str) -> Result<Vec<u8>, Fail> {
    let list = list_of(alloc, name, extended, given.as_bytes())?;
    if !is_block_name(list.name().bytes(), list.is_extended()) {
        return Err("no name of a block")?;
    }
    let text = write_acl(alloc, &list)?;
    let again = list_of(alloc, name, extended, text.as_slice())?;
    if again.entries() != list.entries() {
        return Err("other entries are read again")?;
    }
    Ok(text)
}

const GIVEN: &str = "ip access-list extended EDGE
 permit tcp 10.0.0.1 0.0.0.0 any eq www log
 remark the rest of the site
 deny udp 0.0.0.0 255.255.255.255 lt 0 10.20.0.0 0.0.255.255 gt 1023
 15 permit icmp any any port-unreachable
 permit 6 any neq 22 host 10.0.0.255 range 20 21 established
 permit icmp any any echo
 deny gre any any
 deny ip any any
";

const WRITTEN: &str = "ip access-list extended EDGE
 10 permit tcp host 10.0.0.1 any eq 80
 15 permit icmp any any 3 3
 20 deny udp any lt 0 10.20.0.0 0.0.255.255 range 1024 65535
 30 permit tcp any neq 22 host 10.0.0.255 range 20 21 established
 40 permit icmp any any 8
 50 deny 47 any any
 60 deny ip any any
";

#[test]
fn extended_list(rt: HostRuntime) -> Result<(), Fail> {
    let text = written(rt.alloc(), b"EDGE", true, GIVEN)?;
    assert_eq!(rt; text.as_slice(), WRITTEN.as_bytes());
    Ok(())
}

const STANDARD_GIVEN: &str = " permit 10.0.0.1
 deny 10.0.0.0 0.0.0.255
 permit any
";

const STANDARD_WRITTEN: &str = "ip access-list standard 1300
 10 permit host 10.0.0.1
 20 deny 10.0.0.0 0.0.0.255
 30 permit any
";

#[test]
fn standard_list(rt: HostRuntime) -> Result<(), Fail> {
    let text = written(rt.alloc(), b"1300", false, STANDARD_GIVEN)?;
    assert_eq!(rt; text.as_slice(), STANDARD_WRITTEN.as_bytes());
    Ok(())
}

/// The kind and the name of a list, and whether a block can have that name.
const BLOCK_NAMES: &str = "extended 100 => yes
standard 100 => no
extended 0099 => no
standard 2700 => yes
extended two words => no
extended  => no
";

fn push_block_name(_alloc: Global, given: &str, text: &mut String) -> Result<(), Fail> {
    let (kind, name) = parted(given)?;
    push_answer(text, is_block_name(name.as_bytes(), kind == "extended"))
}

#[test]
fn block_names(rt: HostRuntime) -> Result<(), Fail> {
    let text = answered(rt.alloc(), BLOCK_NAMES, "\n", push_block_name)?;
    assert_eq!(rt; text.as_str(), BLOCK_NAMES);
    Ok(())
}
