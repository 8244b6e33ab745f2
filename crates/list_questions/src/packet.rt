ghost use Rattle.std.specs.Prelude.{◌≡◌, ◌<◌, ◌^◌, Some, None, length, IfOk, IfErr, OnOk};
ghost use Rattle.sorted_logic.specs.Field.{bits, packet_fields};
ghost use Rattle.list_questions.specs.Ranges.{ArePacket, fault_of, literal_fault, number_fault, number_in};

use crate::range::bound;
use ios_acl::Packet;
use ios_names::NameTable;
use query_lang::Literal;
use sorted_logic::Field;

/// Why literals are no packet.
#[derive(Clone, Copy, Debug, PartialEq, Eq)]
pub enum LiteralFault {
    /// The number is too great for its field.
    OutOfRange,
    /// No interface has the name.
    UnknownName,
}

/// The fields of a packet, in order.
const FIELDS: [Field; 8] = [
    Field::SrcIn,
    Field::DstIn,
    Field::SportIn,
    Field::DportIn,
    Field::Proto,
    Field::Flags,
    Field::IcmpType,
    Field::IcmpCode,
];

/// The packet of eight literals in the order of its fields, or the fault of the first that is no number of its field. The
/// quoted name of an interface is its place among the names.
pub fn packet_of(names: &NameTable, literals: &[Literal]) -> Result<Packet, LiteralFault>
    requires { length literals.now ≡ 8 }
    ensures packet { IfOk result (ArePacket names.now literals.now) }
    ensures fit { OnOk result (literal_fault names.now packet_fields literals.now ≡ None) }
    ensures fault { IfErr result
        (λ fault. literal_fault names.now packet_fields literals.now ≡ Some fault) }
{
    match first_fault(names, &FIELDS, literals) {
        Some(fault) => Err(fault),
        None => Ok(packet_of_numbers(names, literals)),
    }
}

/// The fault of the first literal that is no number of its field.
#[tactic(auto, using(crate::proofs::Literals::fault_stop, crate::proofs::Literals::fault_past))]
fn first_fault(names: &NameTable, fields: &[Field], literals: &[Literal]) -> Option<LiteralFault>
    requires { length fields.now ≡ length literals.now }
    ensures { result ≡ literal_fault names.now fields.now literals.now }
{
    for i in 0..fields.len() {
        let fault = fault_of(names, fields[i], &literals[i]);
        if fault.is_some() {
            return fault;
        }
    }
    None
}

fn fault_of(names: &NameTable, field: Field, literal: &Literal) -> Option<LiteralFault>
    ensures { result ≡ fault_of names.now field literal.now }
{
    match number_in(names, literal) {
        Some(number) => number_fault(field, number),
        None => Some(LiteralFault::UnknownName),
    }
}

fn number_fault(field: Field, number: u128) -> Option<LiteralFault>
    ensures { result ≡ number_fault field number }
{
    if number < bound(field) {
        None
    } else {
        Some(LiteralFault::OutOfRange)
    }
}

/// The number that the literal stands for.
fn number_in(names: &NameTable, literal: &Literal) -> Option<u128>
    ensures { result ≡ number_in names.now literal.now }
{
    match literal {
        Literal::Number(number) => Some(*number),
        Literal::Interface(name) => Some(u128::from(names.place(name.bytes())?)),
    }
}

fn packet_of_numbers(names: &NameTable, literals: &[Literal]) -> Packet
    requires count { length literals.now ≡ 8 }
    requires fit { literal_fault names.now packet_fields literals.now ≡ None }
    ensures { ArePacket names.now literals.now result }
{
    Packet {
        src: number(names, Field::SrcIn, &literals[0]) as u32,
        dst: number(names, Field::DstIn, &literals[1]) as u32,
        sport: number(names, Field::SportIn, &literals[2]) as u16,
        dport: number(names, Field::DportIn, &literals[3]) as u16,
        proto: number(names, Field::Proto, &literals[4]) as u8,
        flags: number(names, Field::Flags, &literals[5]) as u8,
        icmp_type: number(names, Field::IcmpType, &literals[6]) as u8,
        icmp_code: number(names, Field::IcmpCode, &literals[7]) as u8,
    }
}

/// The number of the field that the literal stands for.
fn number(names: &NameTable, field: Field, literal: &Literal) -> u128
    requires { fault_of names.now field literal.now ≡ None }
    ensures number { number_in names.now literal.now ≡ Some result }
    ensures fits { result < 2 ^ bits field }
{
    let Some(number) = number_in(names, literal) else {
        unreachable!();
    };
    number
}
