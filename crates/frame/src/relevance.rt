ghost use Rattle.std.specs.Prelude.{◌≡◌, ℕ, true, IfOk};
ghost use Rattle.bit_patterns.specs.Patterns.{agrees as agrees_lem, within};
ghost use Rattle.ios_acl.specs.declared.packet.Packet.{Packet as PacketOf};
ghost use Rattle.ios_acl.specs.Decision.{decision};
ghost use Rattle.ios_acl.specs.Matching.{matches, matches_code, matches_established, matches_icmp, matches_port};
ghost use Rattle.frame.specs.Meaning.{passes_all};
ghost use Rattle.frame.specs.Question.{accepts, passes};
ghost use Rattle.frame.specs.Relevance.{Excludes};
ghost use Rattle.frame.specs.Scenario.{request_of};

use crate::NoMemory;
use crate::question::{Pattern, Test};
use bit_patterns::agrees;
use ios_acl::{Entry, Ports};
use sorted_logic::Field;
use std::alloc::Global;

/// The entries that may match a packet which passes the tests, in their order. For such packets they decide what all
/// entries do.
pub(crate) fn relevant(
    alloc: Global,
    entries: &[Entry],
    tests: &[Test],
) -> Result<Vec<Entry>, NoMemory>
    ensures { IfOk result (λ kept. (packet : PacketOf) → passes_all tests.now packet ≡ true
        → decision kept.items packet ≡ decision entries.now packet) }
{
    let mut kept = Vec::new(alloc);
    for entry in entries {
        if !is_missed(entry, tests) {
            kept.push(*entry)?;
        }
    }
    Ok(kept)
}

/// Whether one of the tests shows that the entry matches no packet which passes them.
fn is_missed(entry: &Entry, tests: &[Test]) -> bool
    ensures { result ≡ true → Excludes (passes_all tests.now) (matches entry.now) }
{
    for test in tests {
        if misses(entry, test) {
            return true;
        }
    }
    false
}

/// Whether the entry and the test ask for different values of the test's field.
fn misses(entry: &Entry, test: &Test) -> bool
    ensures { result ≡ true → Excludes (λ packet. passes (request_of packet) test.now)
        (matches entry.now) }
{
    match test.field {
        Field::SrcIn => are_apart(entry.src, test.pattern),
        Field::DstIn => are_apart(entry.dst, test.pattern),
        Field::SportIn => is_other_port(entry.sport, test.pattern),
        Field::DportIn => is_other_port(entry.dport, test.pattern),
        Field::Proto => is_other_code(entry.proto, test.pattern),
        Field::Flags => lacks_flags(entry.established, test.pattern),
        Field::IcmpType => is_other_type(entry.icmp, test.pattern),
        _ => false,
    }
}

/// Whether no number is as the pattern asks and agrees with the place.
fn are_apart(place: (u32, u32), pattern: Pattern) -> bool
    ensures { result ≡ true → Excludes (accepts pattern) (λ x. agrees_lem x place.0 place.1) }
{
    match pattern {
        Pattern::Masked { value, wildcard } => differ(place, value, wildcard),
        Pattern::Range { low, high } if low == high => differ(place, low, 0),
        Pattern::Range { low, high } => is_outside(place, low, high),
    }
}

/// Whether no number agrees with both values, each on the bits that are 0 in its wildcard.
fn differ(place: (u32, u32), value: u32, wildcard: u32) -> bool
    ensures { result ≡ true → Excludes (λ x. agrees_lem x value wildcard)
        (λ x. agrees_lem x place.0 place.1) }
{
    let ignored = place.1 | wildcard;
    !agrees(u128::from(place.0), u128::from(value), u128::from(ignored))
}

/// Whether the least and the greatest number that agree with the place are both on one side of the range.
fn is_outside(place: (u32, u32), low: u32, high: u32) -> bool
    ensures { result ≡ true → Excludes (within low high) (λ x. agrees_lem x place.0 place.1) }
{
    let greatest = place.0 | place.1;
    let least = greatest - place.1;
    greatest < low || high < least
}

/// Whether a range is asked for that has none of these ports. A wildcard is not looked into.
fn is_other_port(ports: Ports, pattern: Pattern) -> bool
    ensures { result ≡ true → Excludes (accepts pattern) (λ x. matches_port x ports) }
{
    match (ports, pattern) {
        (Ports::Within(first, last), Pattern::Range { low, high }) => {
            u32::from(last) < low || high < u32::from(first)
        }
        (Ports::Not(other), Pattern::Range { low, high }) => {
            low == u32::from(other) && high == u32::from(other)
        }
        (Ports::Nothing, _) => true,
        _ => false,
    }
}

/// Whether a number is wanted that is not as the pattern asks.
fn is_other_code(wanted: Option<u8>, pattern: Pattern) -> bool
    ensures { result ≡ true → Excludes (accepts pattern) (λ x. matches_code x wanted) }
{
    match wanted {
        None => false,
        Some(wanted) => !pattern.accepts(u32::from(wanted)),
    }
}

/// Whether an ICMP type is wanted that is not as the pattern asks.
fn is_other_type(wanted: Option<(u8, Option<u8>)>, pattern: Pattern) -> bool
    ensures { result ≡ true → (code : ℕ) →
        Excludes (accepts pattern) (λ x. matches_icmp x code wanted) }
{
    match wanted {
        None => false,
        Some((kind, _)) => !pattern.accepts(u32::from(kind)),
    }
}

/// Whether one of ACK, 16, and RST, 4, is wanted, and a single number is asked for that has neither.
fn lacks_flags(wanted: bool, pattern: Pattern) -> bool
    ensures { result ≡ true → Excludes (accepts pattern) (λ x. matches_established x wanted) }
{
    match pattern {
        Pattern::Masked { .. } => false,
        Pattern::Range { low, high } => wanted && low == high && low & 20 == 0,
    }
}
