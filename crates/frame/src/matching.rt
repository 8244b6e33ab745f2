ghost use Rattle.std.specs.Prelude.{IfOk, OnOk};
ghost use Rattle.bit_patterns.specs.Patterns.{agrees};
ghost use Rattle.ios_acl.specs.Matching.{matches, matches_code, matches_established, matches_icmp, matches_port};
ghost use Rattle.frame.specs.Meaning.{Adds, Narrows};
ghost use Rattle.frame.specs.Scenario.{request_of};

use crate::NoMemory;
use crate::packet_circuit::PacketCircuit;
use circuit::Node;
use ios_acl::{Entry, Ports};
use sorted_logic::Field;
use std::alloc::Global;

/// Adds a node that is true where the entry matches the packet. What the entry does not test adds no gates.
pub(crate) fn matched(
    alloc: Global,
    circuit: &mut PacketCircuit,
    entry: &Entry,
) -> Result<Node, NoMemory>
    ensures { IfOk result (λ node. Adds circuit.old circuit.new node (matches entry.now)) }
{
    let mut parts = Vec::new(alloc);
    narrow_to_number(circuit, &mut parts, Field::Proto, entry.proto)?;
    narrow_to_place(circuit, &mut parts, Field::SrcIn, entry.src.0, entry.src.1)?;
    narrow_to_place(circuit, &mut parts, Field::DstIn, entry.dst.0, entry.dst.1)?;
    narrow_to_ports(circuit, &mut parts, Field::SportIn, entry.sport)?;
    narrow_to_ports(circuit, &mut parts, Field::DportIn, entry.dport)?;
    narrow_to_message(circuit, &mut parts, entry.icmp)?;
    narrow_to_established(circuit, &mut parts, entry.established)?;
    if parts.len() == 1 {
        return Ok(parts[0]);
    }
    circuit.and(parts.as_slice())
}

/// Adds a part that is true where the field is the wanted number, if one is wanted.
fn narrow_to_number(
    circuit: &mut PacketCircuit,
    parts: &mut Vec<Node>,
    field: Field,
    wanted: Option<u8>,
) -> Result<(), NoMemory>
    ensures { OnOk result (Narrows circuit.old circuit.new parts.old.items parts.new.items
        (λ packet. matches_code (request_of packet field) wanted)) }
{
    match wanted {
        None => Ok(()),
        Some(value) => {
            parts.push(circuit.masked(field, u32::from(value), 0)?)?;
            Ok(())
        }
    }
}

/// Adds a part that is true where the field is under the address and wildcard, unless the wildcard ignores every bit.
fn narrow_to_place(
    circuit: &mut PacketCircuit,
    parts: &mut Vec<Node>,
    field: Field,
    address: u32,
    wildcard: u32,
) -> Result<(), NoMemory>
    ensures { OnOk result (Narrows circuit.old circuit.new parts.old.items parts.new.items
        (λ packet. agrees (request_of packet field) address wildcard)) }
{
    if wildcard == u32::MAX {
        return Ok(());
    }
    parts.push(circuit.masked(field, address, wildcard)?)?;
    Ok(())
}

/// Adds a part that is true where the field is one of the ports, unless these are any.
fn narrow_to_ports(
    circuit: &mut PacketCircuit,
    parts: &mut Vec<Node>,
    field: Field,
    ports: Ports,
) -> Result<(), NoMemory>
    ensures { OnOk result (Narrows circuit.old circuit.new parts.old.items parts.new.items
        (λ packet. matches_port (request_of packet field) ports)) }
{
    match ports {
        Ports::Any => Ok(()),
        Ports::Within(low, high) => {
            let within = circuit.within(field, u32::from(low), u32::from(high))?;
            parts.push(within)?;
            Ok(())
        }
        Ports::Not(other) => {
            let same = circuit.masked(field, u32::from(other), 0)?;
            parts.push(circuit.not(same)?)?;
            Ok(())
        }
        Ports::Nothing => {
            parts.push(circuit.or(&[])?)?;
            Ok(())
        }
    }
}

/// Adds the parts that are true where the type and the code are the wanted ones.
fn narrow_to_message(
    circuit: &mut PacketCircuit,
    parts: &mut Vec<Node>,
    wanted: Option<(u8, Option<u8>)>,
) -> Result<(), NoMemory>
    ensures { OnOk result (Narrows circuit.old circuit.new parts.old.items parts.new.items
        (λ packet. matches_icmp packet.icmp_type packet.icmp_code wanted)) }
{
    match wanted {
        None => Ok(()),
        Some((kind, code)) => {
            narrow_to_number(circuit, parts, Field::IcmpType, Some(kind))?;
            narrow_to_number(circuit, parts, Field::IcmpCode, code)
        }
    }
}

/// Adds a part that is true where ACK, 16, or RST, 4, is set, if that is wanted.
fn narrow_to_established(
    circuit: &mut PacketCircuit,
    parts: &mut Vec<Node>,
    wanted: bool,
) -> Result<(), NoMemory>
    ensures { OnOk result (Narrows circuit.old circuit.new parts.old.items parts.new.items
        (λ packet. matches_established packet.flags wanted)) }
{
    if !wanted {
        return Ok(());
    }
    let neither = circuit.masked(Field::Flags, 0, 0b10_1011)?;
    parts.push(circuit.not(neither)?)?;
    Ok(())
}
