ghost use Rattle.std.specs.Prelude.{◌≡◌, ◌<◌, IfOk, Contains};
ghost use Rattle.std.specs.List.{AllByRecursion};
ghost use Rattle.sorted_logic.specs.Field.{packet_fields};
ghost use Rattle.frame.specs.Question.{IsOfPacket};

use frame::{Pattern, Test, first_or_none, one_first, shown_once, visible};
use ios_acl::{Entry, Packet, Ports, Verdict};
use list_questions::first_packet;
use sat_core::Steps;
use sorted_logic::Field;
use std::alloc::{AllocError, Global};
use std::marker::Brand;
use std::sync::ledger::{Blank, Ledger};
use std::test::Fail;
use test_tables::{answered, parted, push_packet};

/// An entry that matches every packet.
const EVERY: Entry = Entry {
    number: 10,
    verdict: Verdict::Permit,
    proto: None,
    src: (0, u32::MAX),
    dst: (0, u32::MAX),
    sport: Ports::Any,
    dport: Ports::Any,
    icmp: None,
    established: false,
};

/// `permit tcp 10.0.0.0 0.0.0.255 any eq 80`.
const WEB: Entry = Entry {
    proto: Some(6),
    src: (0x0a00_0000, 0xff),
    dport: Ports::Within(80, 80),
    ..EVERY
};

/// The entries that rows name.
const ENTRIES: [(&str, Entry); 11] = [
    ("every", EVERY),
    (
        "none",
        Entry {
            verdict: Verdict::Deny,
            ..EVERY
        },
    ),
    ("web", WEB),
    (
        "no-web",
        Entry {
            verdict: Verdict::Deny,
            ..WEB
        },
    ),
    (
        "lower-half",
        Entry {
            src: (0, 0x7fff_ffff),
            ..EVERY
        },
    ),
    (
        "high-to-any",
        Entry {
            dst: (0x0a01_0200, 0x0000_00fe),
            sport: Ports::Within(1024, 65535),
            dport: Ports::Not(0),
            ..EVERY
        },
    ),
    (
        "no-port",
        Entry {
            sport: Ports::Nothing,
            ..EVERY
        },
    ),
    (
        "ports-9-to-8",
        Entry {
            dport: Ports::Within(9, 8),
            ..EVERY
        },
    ),
    (
        "type-3",
        Entry {
            icmp: Some((3, None)),
            ..EVERY
        },
    ),
    (
        "type-3-code-4",
        Entry {
            icmp: Some((3, Some(4))),
            ..EVERY
        },
    ),
    (
        "established",
        Entry {
            established: true,
            ..EVERY
        },
    ),
];

fn entry_named(name: &str) -> Result<Entry, Fail> {
    for (other, entry) in ENTRIES {
        if name == other {
            return Ok(entry);
        }
    }
    Err("no entry of this name")?
}

/// The entries of these names, each with a blank behind it.
pub(crate) fn entries_named(alloc: Global, names: &str) -> Result<Vec<Entry>, Fail> {
    let mut entries = Vec::new(alloc);
    let mut rest = names;
    for _ in 0..names.len() {
        let Some((name, others)) = rest.split_once(' ') else {
            break;
        };
        entries.push(entry_named(name)?)?;
        rest = others;
    }
    Ok(entries)
}

fn field_named(name: &str) -> Result<Field, Fail>
    ensures { IfOk result (λ field. Contains packet_fields field) }
{
    match name {
        "src_in" => Ok(Field::SrcIn),
        "dst_in" => Ok(Field::DstIn),
        "sport_in" => Ok(Field::SportIn),
        "dport_in" => Ok(Field::DportIn),
        "flags" => Ok(Field::Flags),
        _ => Err("no field of this name")?,
    }
}

/// A value and its wildcard around `/`, or the two ends of a range around `-`.
fn pattern_of(text: &str) -> Result<Pattern, Fail> {
    if let Some((value, wildcard)) = text.split_once('/') {
        return Ok(Pattern::Masked {
            value: value.parse::<u32>()?,
            wildcard: wildcard.parse::<u32>()?,
        });
    }
    let (low, high) = text.split_once('-').ok_or("no pattern")?;
    Ok(Pattern::Range {
        low: low.parse::<u32>()?,
        high: high.parse::<u32>()?,
    })
}

/// A field, a blank and a pattern.
fn test_of(text: &str) -> Result<Test, Fail>
    ensures { IfOk result IsOfPacket }
{
    let (name, pattern) = parted(text)?;
    let field = field_named(name)?;
    let pattern = pattern_of(pattern)?;
    Ok(Test { field, pattern })
}

/// The first packet of a question, by a search that is counted.
fn counted<L: Ledger>(
    alloc: Global,
    entries: &[Entry],
    verdict: Verdict,
    tests: &[Test],
    blank: Blank,
) -> Result<Option<Packet>, AllocError>
    requires name { blank.name ≡ L.name }
    requires parts { blank.parts ≡ L.parts }
    requires some { 0 < blank.parts }
    requires tests { AllByRecursion IsOfPacket tests.now }
{
    let mut steps: Steps<L> = Steps::begin(blank);
    first_packet(alloc, entries, verdict, tests, &mut steps)
}

fn first(
    alloc: Global,
    entries: &[Entry],
    verdict: Verdict,
    tests: &[Test],
) -> Result<Option<Packet>, AllocError>
    requires { AllByRecursion IsOfPacket tests.now }
{
    counted::<Brand>(alloc, entries, verdict, tests, Blank::new(1))
}

/// The first packet that passes the tests, of which there are none, one, or two with ` and ` between them.
fn first_passing(
    alloc: Global,
    entries: &[Entry],
    verdict: Verdict,
    tests: &str,
) -> Result<Option<Packet>, Fail> {
    if tests.is_empty() {
        return Ok(first(alloc, entries, verdict, &[])?);
    }
    if let Some((one, other)) = tests.split_once(" and ") {
        let (one, other) = (test_of(one)?, test_of(other)?);
        return Ok(first(alloc, entries, verdict, &[one, other])?);
    }
    let test = test_of(tests)?;
    Ok(first(alloc, entries, verdict, &[test])?)
}

/// Writes the first packet of a question, or `none`: a verdict, the names of entries, a colon and tests.
fn push_first(alloc: Global, question: &str, text: &mut String) -> Result<(), Fail> {
    let (verdict, rest) = parted(question)?;
    let (names, tests) = rest.split_once(':').ok_or("no colon")?;
    let verdict = if verdict == "permit" {
        Verdict::Permit
    } else {
        Verdict::Deny
    };
    let entries = entries_named(alloc, names)?;
    match first_passing(alloc, entries.as_slice(), verdict, tests)? {
        Some(packet) => push_packet(text, &packet),
        None => Ok(text.push_str("none")?),
    }
}

/// One answer or none; the first of two entries decides.
const FIRST: &str = "permit every : => 0 0 0 0 0 0 0 0
permit web : => a000000 0 0 80 6 0 0 0
permit web no-web : => a000000 0 0 80 6 0 0 0
permit no-web web : => none
permit : => none
";

#[test]
fn first_is_the_least(rt: HostRuntime) -> Result<(), Fail> {
    let text = answered(rt.alloc(), FIRST, "\n", push_first)?;
    assert_eq!(rt; text.as_str(), FIRST);
    Ok(())
}

/// Each kind of ports, on either side, and a destination; the packets of a type and a code; and those with ACK or RST, of
/// which RST, 4, comes first.
const PARTS: &str = "permit high-to-any : => 0 a010200 1024 1 0 0 0 0
permit no-port : => none
permit ports-9-to-8 : => none
permit type-3 : => 0 0 0 0 0 0 3 0
permit type-3-code-4 : => 0 0 0 0 0 0 3 4
permit established : => 0 0 0 0 0 4 0 0
permit established :flags 0/59 => 0 0 0 0 0 16 0 0
";

#[test]
fn each_part_of_an_entry_matches(rt: HostRuntime) -> Result<(), Fail> {
    let text = answered(rt.alloc(), PARTS, "\n", push_first)?;
    assert_eq!(rt; text.as_str(), PARTS);
    Ok(())
}

/// Denied is what no entry permits, also by default.
const DENIED: &str = "deny : => 0 0 0 0 0 0 0 0
deny every : => none
deny lower-half : => 80000000 0 0 0 0 0 0 0
deny lower-half none : => 80000000 0 0 0 0 0 0 0
";

#[test]
fn denied_is_not_permitted(rt: HostRuntime) -> Result<(), Fail> {
    let text = answered(rt.alloc(), DENIED, "\n", push_first)?;
    assert_eq!(rt; text.as_str(), DENIED);
    Ok(())
}

/// A test of one number, with a wildcard, of a range, and two that contradict each other.
const TESTED: &str = "permit every :dst_in 7-7 => 0 7 0 0 0 0 0 0
permit every :sport_in 4660/255 => 0 0 4608 0 0 0 0 0
permit every :dport_in 1023-2000 => 0 0 0 1023 0 0 0 0
permit every :src_in 2-1 => none
permit web :dport_in 81-81 => none
permit every :src_in 1-1 and src_in 2-2 => none
";

#[test]
fn tests_narrow(rt: HostRuntime) -> Result<(), Fail> {
    let text = answered(rt.alloc(), TESTED, "\n", push_first)?;
    assert_eq!(rt; text.as_str(), TESTED);
    Ok(())
}

const ONE_SOURCE: Test = Test {
    field: Field::SrcIn,
    pattern: Pattern::Range { low: 1, high: 1 },
};

/// A value with a wildcard that ignores nothing is another test than the value alone, and so is a wider range.
const FOUR_TESTS: [Test; 4] = [
    ONE_SOURCE,
    Test {
        pattern: Pattern::Masked {
            value: 1,
            wildcard: 0,
        },
        ..ONE_SOURCE
    },
    Test {
        field: Field::DstIn,
        ..ONE_SOURCE
    },
    Test {
        pattern: Pattern::Range { low: 1, high: 2 },
        ..ONE_SOURCE
    },
];

/// What is written twice is shown once.
#[test]
fn visible_once(rt: HostRuntime) -> Result<(), Fail> {
    let [a, b, c, d] = FOUR_TESTS;
    let shown = visible(rt.alloc(), &[a, b, a, c, d, b, c, d])?;
    assert_eq!(rt; shown.as_slice(), FOUR_TESTS.as_slice());
    Ok(())
}

#[test]
fn laws_of_questions() {
    first_or_none();
    one_first();
    shown_once();
}
