ghost use Rattle.std.specs.Prelude.{IfOk};
ghost use Rattle.bit_patterns.specs.Patterns.{agrees};
ghost use Rattle.ios_acl.specs.Matching.{matches, matches_code, matches_established, matches_icmp, matches_port};
ghost use Rattle.decision_diagram.specs.Table.{Extends};
ghost use Rattle.frame.specs.PacketDiagrams.{IsBehind, MeansIn, Narrows};
ghost use Rattle.frame.specs.Scenario.{request_of};
ghost use Rattle.sorted_logic.specs.declared.request.Field.TheVariants as field;

use crate::NoMemory;
use crate::packet_diagrams::PacketDiagrams;
use decision_diagram::Diagram;
use ios_acl::{Entry, Ports};
use sorted_logic::Field;

/// The diagram that is true where the entry matches the packet. Its tests are made from the last bits of a packet to the
/// first, so that each stands before what it narrows.
pub(crate) fn matched(table: &mut PacketDiagrams, entry: &Entry) -> Result<Diagram, NoMemory>
    ensures matches { IfOk result (λ d. MeansIn table.new d (matches entry.now)) }
    ensures older { Extends table.old table.new }
{
    let always = table.leaf(true);
    let message = narrow_to_message(table, entry.icmp, always)?;
    let flags = narrow_to_established(table, entry.established, message)?;
    let proto = narrow_to_number(table, Field::Proto, entry.proto, flags)?;
    let dport = narrow_to_ports(table, Field::DportIn, entry.dport, proto)?;
    let sport = narrow_to_ports(table, Field::SportIn, entry.sport, dport)?;
    let dst = table.masked(Field::DstIn, entry.dst.0, entry.dst.1, sport)?;
    let src = table.masked(Field::SrcIn, entry.src.0, entry.src.1, dst)?;
    Ok(src)
}

/// The diagram that is true where the field is the wanted number, if one is wanted, and `other` is true.
fn narrow_to_number(
    table: &mut PacketDiagrams,
    field: Field,
    wanted: Option<u8>,
    other: Diagram,
) -> Result<Diagram, NoMemory>
    requires { IsBehind table.old field other }
    ensures narrows { IfOk result (Narrows table.old table.new field
        (λ packet. matches_code (request_of packet field) wanted) other) }
    ensures older { Extends table.old table.new }
{
    match wanted {
        None => Ok(other),
        Some(value) => {
            let narrowed = table.masked(field, u32::from(value), 0, other)?;
            Ok(narrowed)
        }
    }
}

/// The same where the field is one of the ports.
fn narrow_to_ports(
    table: &mut PacketDiagrams,
    field: Field,
    ports: Ports,
    other: Diagram,
) -> Result<Diagram, NoMemory>
    requires { IsBehind table.old field other }
    ensures narrows { IfOk result (Narrows table.old table.new field
        (λ packet. matches_port (request_of packet field) ports) other) }
    ensures older { Extends table.old table.new }
{
    match ports {
        Ports::Any => Ok(other),
        Ports::Within(low, high) => { table.within(field, u32::from(low), u32::from(high), other) }
        Ports::Not(port) => {
            let narrowed = table.unmasked(field, u32::from(port), 0, other)?;
            Ok(narrowed)
        }
        Ports::Nothing => Ok(table.leaf(false)),
    }
}

/// The same where the type and the code are the wanted ones.
fn narrow_to_message(
    table: &mut PacketDiagrams,
    wanted: Option<(u8, Option<u8>)>,
    other: Diagram,
) -> Result<Diagram, NoMemory>
    requires { IsBehind table.old field.IcmpCode other }
    ensures narrows { IfOk result (Narrows table.old table.new field.IcmpType
        (λ packet. matches_icmp packet.icmp_type packet.icmp_code wanted) other) }
    ensures older { Extends table.old table.new }
{
    match wanted {
        None => Ok(other),
        Some((kind, code)) => {
            let coded = narrow_to_number(table, Field::IcmpCode, code, other)?;
            narrow_to_number(table, Field::IcmpType, Some(kind), coded)
        }
    }
}

/// The same where ACK, 16, or RST, 4, is set, if that is wanted.
fn narrow_to_established(
    table: &mut PacketDiagrams,
    wanted: bool,
    other: Diagram,
) -> Result<Diagram, NoMemory>
    requires { IsBehind table.old field.Flags other }
    ensures narrows { IfOk result (Narrows table.old table.new field.Flags
        (λ packet. matches_established packet.flags wanted) other) }
    ensures older { Extends table.old table.new }
{
    if !wanted {
        return Ok(other);
    }
    let narrowed = table.unmasked(Field::Flags, 0, 0b10_1011, other)?;
    Ok(narrowed)
}
