use frame::{Pattern, Test};
use ios_acl::{Packet, Verdict};
use ios_names::NameTable;
use session::{Counts, KnownNames, decision_text, loaded_text, no_scenario_text, scenario_text};
use sorted_logic::Field;
use std::alloc::Global;
use std::test::Fail;
use test_tables::answered;

const SEGMENT: Packet = Packet {
    src: 0x0a01_0105,
    dst: 0xc000_0201,
    sport: 1024,
    dport: 80,
    proto: 6,
    flags: 4,
    icmp_type: 0,
    icmp_code: 0,
};

/// Tests that the packet passes, or not, one of them twice.
const TESTS: [Test; 6] = [
    Test {
        field: Field::SrcIn,
        pattern: Pattern::Masked {
            value: 0x0a01_0104,
            wildcard: 1,
        },
    },
    Test {
        field: Field::Proto,
        pattern: Pattern::Range { low: 6, high: 6 },
    },
    Test {
        field: Field::SrcIn,
        pattern: Pattern::Masked {
            value: 0x0a01_0104,
            wildcard: 1,
        },
    },
    Test {
        field: Field::DportIn,
        pattern: Pattern::Masked {
            value: 443,
            wildcard: 0,
        },
    },
    Test {
        field: Field::SportIn,
        pattern: Pattern::Range {
            low: 1023,
            high: 1024,
        },
    },
    Test {
        field: Field::DstIn,
        pattern: Pattern::Range {
            low: 0xc000_0202,
            high: 0xc000_02ff,
        },
    },
];

const SCENARIO: &str = "scenario 1
  entry = 0
  src_in = 10.1.1.5
  dst_in = 192.0.2.1
  sport_in = 1024
  dport_in = 80
  proto = 6
  flags = 4
  icmp_type = 0
  icmp_code = 0
  src_out = 0.0.0.0
  dst_out = 0.0.0.0
  sport_out = 0
  dport_out = 0
  next_hop = 0.0.0.0
  exit = 0
  + src_in IN 10.1.1.4 0.0.0.1
  + proto IN 6
  - dport_in IN 443 0
  + sport_in IN 1023 TO 1024
  - dst_in IN 192.0.2.2 TO 192.0.2.255
";

#[test]
fn a_scenario_shows_its_values_and_tests(rt: HostRuntime) -> Result<(), Fail> {
    let table = NameTable::new(rt.alloc());
    let names = KnownNames::of(&table, 0);
    let text = scenario_text(rt.alloc(), &names, &SEGMENT, &TESTS)?;
    assert_eq!(rt; text.as_slice(), SCENARIO.as_bytes());
    Ok(())
}

#[test]
fn no_scenario_is_told(rt: HostRuntime) {
    assert_eq!(rt; no_scenario_text(), "no scenario\n");
}

fn push_decision(alloc: Global, given: &str, text: &mut String) -> Result<(), Fail> {
    let (verdict, number) = given.split_once(' ').ok_or("no number")?;
    let verdict = if verdict == "permit" {
        Verdict::Permit
    } else {
        Verdict::Deny
    };
    let told = decision_text(alloc, verdict, number.parse::<u32>().ok())?;
    text.push_str(told.as_str())?;
    Ok(())
}

/// A verdict and the number of the entry that gives it, with what is written.
const DECISIONS: &str = "permit 10 => permit by 10
~
deny 2147483647 => deny by 2147483647
~
deny default => deny by default
~
";

#[test]
fn decisions_are_told(rt: HostRuntime) -> Result<(), Fail> {
    let text = answered(rt.alloc(), DECISIONS, "~\n", push_decision)?;
    assert_eq!(rt; text.as_str(), DECISIONS);
    Ok(())
}

#[test]
fn loads_are_told(rt: HostRuntime) -> Result<(), Fail> {
    let counts = Counts {
        interfaces: 3,
        lists: 2,
        translations: 5,
        routes: 1,
        ignored: 13,
    };
    let text = loaded_text(rt.alloc(), "edge", counts)?;
    assert_eq!(rt;
        text.as_str(),
        "loaded edge: 3 interfaces, 2 lists, 5 translations, 1 routes, 13 lines ignored\n"
    );
    Ok(())
}
