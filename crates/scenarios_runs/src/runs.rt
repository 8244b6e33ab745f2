use crate::run_of::{ANSWER, LISTS, LOADED, SCRIPT, files_of, push_brief, push_command, push_run};
use mg_outside::MemSink;
use std::alloc::Global;
use std::test::Fail;
use test_tables::answered;

#[test]
fn a_script_is_answered(rt: HostRuntime) -> Result<(), Fail> {
    let mut text = String::new(rt.alloc());
    push_run(rt.alloc(), SCRIPT, LISTS, &mut text)?;
    let want = format!(in rt.alloc(); "0 {ANSWER}")?;
    assert_eq!(rt; text.as_str(), want.as_str());
    Ok(())
}

/// Writes briefly what the run of a script writes that has these statements from its second line on, behind a LOAD of the
/// lists as `r`. The line of that LOAD is written as `loaded`.
fn push_behind_load(alloc: Global, statements: &str, text: &mut String) -> Result<(), Fail> {
    let script = format!(in alloc; "LOAD IOS \"a\" AS r;\n{statements}\n")?;
    let mut answer = String::new(alloc);
    push_run(alloc, script.as_str(), LISTS, &mut answer)?;
    match answer.as_str().split_once(LOADED) {
        Some((status, behind)) => {
            write!(text, "{status}loaded\n")?;
            push_brief(text, behind)
        }
        None => Ok(text.push_str(answer.as_str())?),
    }
}

/// Statements behind a LOAD of the lists as `r`, with the status and the text. The question of the last EXPLORE is shown,
/// whatever is loaded behind it. A statement may stand on several lines, with comments between them.
const ANSWERED: &str = "DECIDE r.acl.10 (10.1.1.4, 0.0.0.0, 0, 0, 0, 0, 0, 0); => 0 loaded
permit by 20
~
DECIDE r.acl.10 (1, 0, 0, 0, 255, 63, 255, 255); => 0 loaded
deny by default
~
EXPLORE r.acl.10:permit(<req>) AND src_in IN 10.1.1.5;
SHOW ONE; => 0 loaded
no scenario
~
EXPLORE r.acl.10:deny(<req>);
EXPLORE r.acl.10:permit(<req>) AND src_in IN 10.1.1.5;
LOAD IOS \"b\" AS q;
SHOW ONE; => 0 loaded
loaded q: 0 interfaces, 1 lists, 0 translations, 0 routes, 0 lines ignored
no scenario
~
LOAD IOS \"b\" AS q;
DECIDE q.acl.10 (10.1.1.5, 0, 0, 0, 0, 0, 0, 0); => 0 loaded
loaded q: 0 interfaces, 1 lists, 0 translations, 0 routes, 0 lines ignored
permit by 10
~
EXPLORE r.acl.10:permit(<req>) AND dport_in IN 20 TO 25;
SHOW ONE; => 0 loaded
scenario 1
0 10.1.1.0 0.0.0.0 0 20 0 0 0 0 0.0.0.0 0.0.0.0 0 0 0.0.0.0 0
  + dport_in IN 20 TO 25
~
-- Which line decides?
DECIDE r.acl.10
    (10.1.1.5, 0.0.0.0, -- the host
     0, 0, 0, 0, 0, 0); => 0 loaded
deny by 10
~
";

#[test]
fn statements_write_their_lines(rt: HostRuntime) -> Result<(), Fail> {
    let text = answered(rt.alloc(), ANSWERED, "~\n", push_behind_load)?;
    assert_eq!(rt; text.as_str(), ANSWERED);
    Ok(())
}

/// Statements that end the run, behind a LOAD that was carried out. A name is tested before its file is read, and a list
/// whose only lines are remarks is not defined. That policies are known is tested before numbers are, and how many numbers
/// a DECIDE has before what they are. 64 levels may be open.
const STOPPED: &str = "LOAD IOS \"none\" AS r; => 1 loaded
refused: s:2: Duplicate
~
LOAD IOS \"none\" AS net; => 1 loaded
refused: s:2: Duplicate
~
LOAD IOS \"none\" AS q; => 3 loaded
read fault: none
~
EXPLORE r.acl.11:permit(<req>); => 1 loaded
refused: s:2: UnknownPolicy
~
EXPLORE q.acl.10:permit(<req>); => 1 loaded
refused: s:2: UnknownPolicy
~
EXPLORE r.acl.12:permit(<req>); => 1 loaded
refused: s:2: UnknownPolicy
~
EXPLORE r.acl.11:permit(<req>) AND proto IN 256; => 1 loaded
refused: s:2: UnknownPolicy
~
EXPLORE r.acl.10:permit(<req>) AND proto IN 255 AND flags IN 1 64; => 1 loaded
refused: s:2: OutOfRange
~
EXPLORE r.acl.10:permit(<req>) AND dport_in IN 5 TO 3; => 1 loaded
refused: s:2: OutOfRange
~
-- Three lines are one statement.
EXPLORE
    r.acl.10:allow(
    <req>); => 1 loaded
refused: s:3: UnknownName
~
DECIDE r.acl.11 (0, 0, 65536, 0, 0, 0, 0, 0); => 1 loaded
refused: s:2: UnknownPolicy
~
DECIDE r.acl.10 (0, 0, 0, 0, 0, 64, 0, 0); => 1 loaded
refused: s:2: OutOfRange
~
DECIDE r.acl.10 (10.1.1.5, 0, 0, 0, 0, 64, 0); => 1 loaded
refused: s:2: Arity
~
EXPLORE r.acl.10:permit(<req>);
SHOW ALL; => 1 loaded
refused: s:3: NotBuilt
~
EXPLORE ((((((((((((((((((((((((((((((((((((((((((((((((((((((((((((((((\
TRUE)))))))))))))))))))))))))))))))))))))))))))))))))))))))))))))))); => 1 loaded
refused: s:2: NotBuilt
~
";

#[test]
fn statements_end_the_run(rt: HostRuntime) -> Result<(), Fail> {
    let text = answered(rt.alloc(), STOPPED, "~\n", push_behind_load)?;
    assert_eq!(rt; text.as_str(), STOPPED);
    Ok(())
}

/// Statements with which the script is refused as a whole, so that nothing was loaded: they show before any EXPLORE, open
/// the 65th level, or don't end.
const JUDGED: &str = "SHOW ONE; => 1 refused: s:2: NoExplore
~
SHOW ALL; => 1 refused: s:2: NoExplore
~
SHOW ONE;
EXPLORE r.acl.10:permit(<req>); => 1 refused: s:2: NoExplore
~
EXPLORE (((((((((((((((((((((((((((((((((((((((((((((((((((((((((((((((((\
TRUE))))))))))))))))))))))))))))))))))))))))))))))))))))))))))))))))); => 1 refused: s:2: Depth
~
DECIDE r.acl.10 (10.1.1.5, 0.0.0.0, 0, 0, 0, 0, 0, 0) => 1 refused: s:2: Syntax
~
";

#[test]
fn scripts_are_judged_whole(rt: HostRuntime) -> Result<(), Fail> {
    let text = answered(rt.alloc(), JUDGED, "~\n", push_behind_load)?;
    assert_eq!(rt; text.as_str(), JUDGED);
    Ok(())
}

fn push_loaded(alloc: Global, lists: &str, text: &mut String) -> Result<(), Fail> {
    push_run(alloc, SCRIPT, lists, text)
}

/// Lists, with the status and the text of the run that loads them.
const CONFIGURATIONS: &str = "access-list 101 permit tcp any any eq wwww
 => 1 refused: a:1: UnknownName
~
access-list 10 permit tcp any any
 => 1 refused: a:1: BadAddress
~
access-list 101 permit ip any any fragments
 => 1 refused: a:1: Unmodelled fragments
~
access-list 10 permit any
access-list 10 deny host x
 => 1 refused: a:2: BadAddress
~
interface Ethernet0
 ip address 10.0.0.1 255.0.255.0
 => 1 refused: a:2: BadMask
~
ip route 10.0.0.0 255.0.0.0 192.0.2.1
 => 1 refused: a:1: NextHopNotConnected
~
ip nat inside source list 7 pool P
 => 1 refused: a:1: UnknownPool
~
access-list 10 permit any
banner motd #
 => 1 refused: a:2: Unclosed
~
access-list 10 permit any
access-list 10 permit any x
 => 1 refused: a:2: BadEntry
~
";

#[test]
fn refused_configurations_are_told(rt: HostRuntime) -> Result<(), Fail> {
    let text = answered(rt.alloc(), CONFIGURATIONS, "~\n", push_loaded)?;
    assert_eq!(rt; text.as_str(), CONFIGURATIONS);
    Ok(())
}

/// The lists and the statements are parted by a line of two dashes.
fn push_worked(alloc: Global, given: &str, text: &mut String) -> Result<(), Fail> {
    let (lists, statements) = given.split_once("--\n").ok_or("no statements")?;
    let script = format!(in alloc; "LOAD IOS \"a\" AS r;\n{statements}\n")?;
    let mut answer = String::new(alloc);
    push_run(alloc, script.as_str(), lists, &mut answer)?;
    push_brief(text, answer.as_str())
}

/// Lists and statements behind their LOAD as `r`, with the status and the text: a wildcard whose ones stand apart, the first
/// of the flags of established connections, ranges of no port, and a range of one.
const WORKED: &str = "access-list 20 permit 10.0.0.1 0.0.255.0
--
DECIDE r.acl.20 (10.0.7.1, 0.0.0.0, 0, 0, 0, 0, 0, 0);
DECIDE r.acl.20 (10.0.0.2, 0.0.0.0, 0, 0, 0, 0, 0, 0); \
=> 0 loaded r: 0 interfaces, 1 lists, 0 translations, 0 routes, 0 lines ignored
permit by 10
deny by default
~
access-list 101 permit tcp any any established
--
EXPLORE r.acl.101:permit(<req>);
SHOW ONE; => 0 loaded r: 0 interfaces, 1 lists, 0 translations, 0 routes, 0 lines ignored
scenario 1
0 0.0.0.0 0.0.0.0 0 0 6 4 0 0 0.0.0.0 0.0.0.0 0 0 0.0.0.0 0
~
access-list 101 permit tcp any any gt 65535
access-list 102 permit udp any lt 0 any
access-list 103 permit tcp any any range 80 80
--
EXPLORE r.acl.101:permit(<req>);
SHOW ONE;
EXPLORE r.acl.102:permit(<req>);
SHOW ONE;
EXPLORE r.acl.103:permit(<req>);
SHOW ONE; => 0 loaded r: 0 interfaces, 3 lists, 0 translations, 0 routes, 0 lines ignored
no scenario
no scenario
scenario 1
0 0.0.0.0 0.0.0.0 0 80 6 0 0 0 0.0.0.0 0.0.0.0 0 0 0.0.0.0 0
~
";

#[test]
fn worked_questions_have_their_answers(rt: HostRuntime) -> Result<(), Fail> {
    let text = answered(rt.alloc(), WORKED, "~\n", push_worked)?;
    assert_eq!(rt; text.as_str(), WORKED);
    Ok(())
}

/// Configurations and statements behind their LOAD as `r`, with the status and the text: what is counted of a router, and
/// where names of interfaces stand. A shut interface counts, and so does a route over it; a list of remarks does not.
const ROUTERS: &str = "version 15.2
hostname edge
interface GigabitEthernet0/0
 ip address 10.1.1.1 255.255.255.0
 ip nat inside
 description lan
interface GigabitEthernet0/1
 shutdown
ip route 0.0.0.0 0.0.0.0 GigabitEthernet0/1
ip route 10.9.0.0 255.255.0.0 Null0
ip nat inside source static 10.1.1.2 198.51.100.9
ip nat inside source static tcp 10.1.1.3 80 198.51.100.8 8080
ip nat inside source list 7 interface GigabitEthernet0/1 overload
access-list 7 permit any
access-list 8 remark none
--
DECIDE r.acl.7 (1, 0, 0, 0, 0, 0, 0, 0); => 0 \
loaded r: 2 interfaces, 1 lists, 3 translations, 2 routes, 3 lines ignored
permit by 10
~
interface Ethernet0/0
interface Ethernet0/1
access-list 10 permit any
--
EXPLORE r.acl.10:permit(<req>);
SHOW ONE;
DECIDE r.acl.10 (0, 0, \"Ethernet0/1\", \"Ethernet0/0\", 0, 0, 0, 0);
DECIDE r.acl.10 (0, 0, 0, 0, 0, 0, 0, \"Ethernet0/2\"); => 1 \
loaded r: 2 interfaces, 1 lists, 0 translations, 0 routes, 0 lines ignored
scenario 1
\"Ethernet0/0\" 0.0.0.0 0.0.0.0 0 0 0 0 0 0 0.0.0.0 0.0.0.0 0 0 0.0.0.0 \"Ethernet0/0\"
permit by 10
refused: s:5: UnknownName
~
";

#[test]
fn routers_are_counted_and_their_interfaces_named(rt: HostRuntime) -> Result<(), Fail> {
    let text = answered(rt.alloc(), ROUTERS, "~\n", push_worked)?;
    assert_eq!(rt; text.as_str(), ROUTERS);
    Ok(())
}

/// The script, whose files are the lists and a router of one interface.
fn push_named(alloc: Global, script: &str, text: &mut String) -> Result<(), Fail> {
    let mut files = files_of(alloc, script, LISTS)?;
    files.put("c", b"interface Ethernet0\n")?;
    let mut answer = String::new(alloc);
    push_command(alloc, "s", &mut files, MemSink::new(alloc), &mut answer)?;
    push_brief(text, answer.as_str())
}

/// Scripts that load names of interfaces behind an EXPLORE, and before one.
const NAMED: &str = "LOAD IOS \"a\" AS r;
EXPLORE r.acl.10:permit(<req>);
LOAD IOS \"c\" AS q;
SHOW ONE;
EXPLORE r.acl.10:permit(<req>);
SHOW ONE; => 0 loaded r: 0 interfaces, 1 lists, 0 translations, 0 routes, 0 lines ignored
loaded q: 1 interfaces, 0 lists, 0 translations, 0 routes, 0 lines ignored
scenario 1
0 10.1.1.0 0.0.0.0 0 0 0 0 0 0 0.0.0.0 0.0.0.0 0 0 0.0.0.0 0
scenario 1
\"Ethernet0\" 10.1.1.0 0.0.0.0 0 0 0 0 0 0 0.0.0.0 0.0.0.0 0 0 0.0.0.0 \"Ethernet0\"
~
LOAD IOS \"a\" AS r;
DECIDE r.acl.10 (10.1.1.4, 0, 0, 0, 0, 0, 0, 0);
DECIDE r.acl.10 (10.1.1.4, 0, \"Ethernet0\", 0, 0, 0, 0, 0); => 1 \
loaded r: 0 interfaces, 1 lists, 0 translations, 0 routes, 0 lines ignored
permit by 20
refused: s:3: UnknownName
~
";

#[test]
fn names_are_those_at_the_statement(rt: HostRuntime) -> Result<(), Fail> {
    let text = answered(rt.alloc(), NAMED, "~\n", push_named)?;
    assert_eq!(rt; text.as_str(), NAMED);
    Ok(())
}

/// Writes the line `interface` of so many interfaces, each of its own name.
fn push_interfaces(lines: &mut String, count: u16) -> Result<(), Fail> {
    for number in 0..count {
        write!(lines, "interface e{number}\n")?;
    }
    Ok(())
}

#[test]
fn a_number_of_an_interface_may_be_too_great(rt: HostRuntime) -> Result<(), Fail> {
    let mut lines = String::from_str(rt.alloc(), "access-list 10 permit any\n")?;
    push_interfaces(&mut lines, 257)?;
    let script = "LOAD IOS \"a\" AS r;
DECIDE r.acl.10 (0, 0, 0, 0, \"e255\", 0, 0, 0);
DECIDE r.acl.10 (0, 0, 0, 0, \"e256\", 0, 0, 0);
";
    let mut text = String::new(rt.alloc());
    push_run(rt.alloc(), script, lines.as_str(), &mut text)?;
    assert_eq!(rt;
        text.as_str(),
        "1 loaded r: 257 interfaces, 1 lists, 0 translations, 0 routes, 0 lines ignored
permit by 10
refused: s:3: OutOfRange
"
    );
    Ok(())
}
