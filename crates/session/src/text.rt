ghost use Rattle.std.specs.Prelude.{◌≡◌, ◌++◌, ℕ, Option, IfOk, OnOk};
ghost use Rattle.std.specs.Fmt.{decimal};
ghost use Rattle.std.specs.String.{string_bytes};
ghost use Rattle.std.specs.List.{flat_map};
ghost use Rattle.sorted_logic.specs.Field.{fields};
ghost use Rattle.frame.specs.Scenario.{request_of};
ghost use Rattle.frame.specs.Question.{passes};
ghost use Rattle.session.specs.Text.{decision_line, entry_text, loaded_line, no_scenario, scenario};
ghost use Rattle.session.specs.Text.{parts_text, sign, test_line, value_line, verdict_text};
ghost use Rattle.session.specs.Value.{interface_text, quoted, shown, value_text};

use crate::NoMemory;
use crate::counts::Counts;
use crate::known_names::KnownNames;
use crate::value::{Shown, ShownPattern, is_interface};
use frame::{Test, visible};
use ios_acl::{Packet, Verdict};
use sorted_logic::Field;
use std::alloc::Global;

/// What SHOW ONE writes where there is no scenario.
#[tactic(auto, unfolding(crate::specs::Text::no_scenario))]
pub fn no_scenario_text() -> &'static str
    ensures { result.now ≡ no_scenario }
{
    "no scenario\n"
}

/// The fields of a request, in order.
const FIELDS: [Field; 15] = [
    Field::Entry,
    Field::SrcIn,
    Field::DstIn,
    Field::SportIn,
    Field::DportIn,
    Field::Proto,
    Field::Flags,
    Field::IcmpType,
    Field::IcmpCode,
    Field::SrcOut,
    Field::DstOut,
    Field::SportOut,
    Field::DportOut,
    Field::NextHop,
    Field::Exit,
];

/// The scenario of a packet, where these names of interfaces are known; the fields that are not the packet's are 0. Bytes,
/// since names are kept as bytes.
#[tactic(auto, unfolding(crate::specs::Text::scenario))]
pub fn scenario_text(
    alloc: Global,
    names: &KnownNames<'_>,
    packet: &Packet,
    tests: &[Test],
) -> Result<Vec<u8>, NoMemory>
    ensures { IfOk result (λ text.
        text.items ≡ scenario names.now tests.now (request_of packet.now)) }
{
    let mut text = Vec::from_slice(alloc, b"scenario 1\n")?;
    push_values(alloc, &mut text, names, packet, &FIELDS)?;
    let shown = visible(alloc, tests)?;
    push_tests(alloc, &mut text, packet, shown.as_slice())?;
    Ok(text)
}

/// Writes a line for each field.
fn push_values(
    alloc: Global,
    text: &mut Vec<u8>,
    names: &KnownNames<'_>,
    packet: &Packet,
    fields: &[Field],
) -> Result<(), NoMemory>
    ensures { IfOk result (λ _. text.new.items
        ≡ text.old.items ++ flat_map (value_line names.now (request_of packet.now)) fields.now) }
{
    for field in fields {
        push_value_line(alloc, text, names, packet, *field)?;
    }
    Ok(())
}

/// Writes the line of a field.
fn push_value_line(
    alloc: Global,
    text: &mut Vec<u8>,
    names: &KnownNames<'_>,
    packet: &Packet,
    field: Field,
) -> Result<(), NoMemory>
    ensures { OnOk result (text.new.items
        ≡ text.old.items ++ value_line names.now (request_of packet.now) field) }
{
    text.extend_from_slice(b"  ")?;
    text.extend_from_slice(field.name().as_bytes())?;
    text.extend_from_slice(b" = ")?;
    push_value(alloc, text, names, packet, field)?;
    text.extend_from_slice(b"\n")?;
    Ok(())
}

/// Writes the value of a field. Those of interfaces are 0.
fn push_value(
    alloc: Global,
    text: &mut Vec<u8>,
    names: &KnownNames<'_>,
    packet: &Packet,
    field: Field,
) -> Result<(), NoMemory>
    ensures { OnOk result (text.new.items
        ≡ text.old.items ++ value_text names.now field (request_of packet.now field)) }
{
    if is_interface(field) {
        return push_interface(alloc, text, names, 0);
    }
    let value = shown_text(alloc, field, value_of(packet, field))?;
    text.extend_from_slice(value.as_bytes())?;
    Ok(())
}

/// The value of a field that is no interface.
fn shown_text(alloc: Global, field: Field, value: u32) -> Result<String, NoMemory>
    ensures { IfOk result (λ text. string_bytes text ≡ shown field value) }
{
    let value = Shown { field, value };
    format!(in alloc; "{value}")
}

/// Writes the quoted name of an interface, or its number where none is known.
fn push_interface(
    alloc: Global,
    text: &mut Vec<u8>,
    names: &KnownNames<'_>,
    number: u16,
) -> Result<(), NoMemory>
    ensures { OnOk result (text.new.items ≡ text.old.items ++ interface_text names.now number) }
{
    match names.name(number) {
        Some(name) => push_quoted(text, name.bytes()),
        None => push_number(alloc, text, number),
    }
}

fn push_quoted(text: &mut Vec<u8>, name: &[u8]) -> Result<(), NoMemory>
    ensures { OnOk result (text.new.items ≡ text.old.items ++ quoted name.now) }
{
    text.extend_from_slice(b"\"")?;
    text.extend_from_slice(name)?;
    text.extend_from_slice(b"\"")?;
    Ok(())
}

fn push_number(alloc: Global, text: &mut Vec<u8>, number: u16) -> Result<(), NoMemory>
    ensures { OnOk result (text.new.items ≡ text.old.items ++ decimal number) }
{
    let number = format!(in alloc; "{number}")?;
    text.extend_from_slice(number.as_bytes())?;
    Ok(())
}

/// Writes a line for each test.
fn push_tests(
    alloc: Global,
    text: &mut Vec<u8>,
    packet: &Packet,
    tests: &[Test],
) -> Result<(), NoMemory>
    ensures { IfOk result (λ _. text.new.items
        ≡ text.old.items ++ flat_map (test_line (request_of packet.now)) tests.now) }
{
    for test in tests {
        let line = test_text(alloc, packet, test)?;
        text.extend_from_slice(line.as_bytes())?;
    }
    Ok(())
}

/// The line of a test that the packet passes or not.
fn test_text(alloc: Global, packet: &Packet, test: &Test) -> Result<String, NoMemory>
    ensures { IfOk result (λ text. string_bytes text ≡ test_line (request_of packet.now) test.now) }
{
    let sign = sign_of(packet, test);
    let name = test.field.name();
    let pattern = ShownPattern {
        field: test.field,
        pattern: test.pattern,
    };
    format!(in alloc; "{sign}{name} IN {pattern}\n")
}

/// The sign of a test that the packet passes or not.
fn sign_of(packet: &Packet, test: &Test) -> &'static str
    ensures { result.now ≡ sign (passes (request_of packet.now) test.now) }
{
    let value = value_of(packet, test.field);
    if test.pattern.accepts(value) {
        "  + "
    } else {
        "  - "
    }
}

/// The value of a field in the request of the packet.
fn value_of(packet: &Packet, field: Field) -> u32
    ensures { result ≡ request_of packet.now field }
{
    match field {
        Field::SrcIn => packet.src,
        Field::DstIn => packet.dst,
        Field::SportIn => u32::from(packet.sport),
        Field::DportIn => u32::from(packet.dport),
        Field::Proto => u32::from(packet.proto),
        Field::Flags => u32::from(packet.flags),
        Field::IcmpType => u32::from(packet.icmp_type),
        Field::IcmpCode => u32::from(packet.icmp_code),
        Field::Entry
        | Field::SrcOut
        | Field::DstOut
        | Field::SportOut
        | Field::DportOut
        | Field::NextHop
        | Field::Exit => 0,
    }
}

/// What DECIDE writes: the verdict, and the number of the entry that gives it.
#[tactic(auto, unfolding(crate::specs::Text::decision_line))]
pub fn decision_text(
    alloc: Global,
    verdict: Verdict,
    number: Option<u32>,
) -> Result<String, NoMemory>
    ensures { IfOk result (λ text. string_bytes text ≡ decision_line (verdict, number)) }
{
    let verdict = verdict_name(verdict);
    match number {
        Some(number) => format!(in alloc; "{verdict} by {number}\n"),
        None => format!(in alloc; "{verdict} by default\n"),
    }
}

fn verdict_name(verdict: Verdict) -> &'static str
    ensures { result.now ≡ verdict_text verdict }
{
    match verdict {
        Verdict::Permit => "permit",
        Verdict::Deny => "deny",
    }
}

/// What LOAD IOS writes of a router.
#[tactic(auto, unfolding(crate::specs::Text::loaded_line))]
pub fn loaded_text(alloc: Global, name: &str, counts: Counts) -> Result<String, NoMemory>
    ensures { IfOk result (λ text. string_bytes text ≡ loaded_line name.now counts) }
{
    let parts = parts_text(alloc, counts)?;
    let routes = counts.routes;
    let ignored = counts.ignored;
    format!(in alloc; "loaded {name}: {parts}, {routes} routes, {ignored} lines ignored\n")
}

/// How many interfaces, lists and translations a router has.
#[tactic(auto, unfolding(crate::specs::Text::parts_text))]
fn parts_text(alloc: Global, counts: Counts) -> Result<String, NoMemory>
    ensures { IfOk result (λ text. string_bytes text ≡ parts_text counts) }
{
    let interfaces = counts.interfaces;
    let lists = counts.lists;
    let translations = counts.translations;
    format!(in alloc; "{interfaces} interfaces, {lists} lists, {translations} translations")
}
