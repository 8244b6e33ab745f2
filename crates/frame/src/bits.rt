ghost use Rattle.std.specs.Prelude.{◌≡◌, ◌≤◌, ◌<◌, ◌-◌, ◌^◌, Bool, List, length, take};
ghost use Rattle.circuit.specs.Number.{number};
ghost use Rattle.frame.specs.Bits.{IsPacketOf, end_bit, field_bits, first_bit};

use ios_acl::Packet;
use sorted_logic::Field;

/// The bits of a field among the 126 bits of a packet; of a field that is not the packet's, none.
pub(crate) fn field_bits<T: Copy>(bits: &[T], field: Field) -> &[T]
    requires { length bits.now ≡ 126 }
    ensures { result.now ≡ field_bits field bits.now }
{
    match field {
        Field::SrcIn => &bits[0..32],
        Field::DstIn => &bits[32..64],
        Field::SportIn => &bits[64..80],
        Field::DportIn => &bits[80..96],
        Field::Proto => &bits[96..104],
        Field::Flags => &bits[104..110],
        Field::IcmpType => &bits[110..118],
        Field::IcmpCode => &bits[118..126],
        _ => &bits[0..0],
    }
}

/// The first bit of a field among the 126 bits of a packet, and how many it has; none for a field that is not the packet's.
pub(crate) fn field_place(field: Field) -> (u32, u32)
    ensures first { result.0 ≡ first_bit field }
    ensures width { result.1 ≡ end_bit field - first_bit field }
{
    match field {
        Field::SrcIn => (0, 32),
        Field::DstIn => (32, 32),
        Field::SportIn => (64, 16),
        Field::DportIn => (80, 16),
        Field::Proto => (96, 8),
        Field::Flags => (104, 6),
        Field::IcmpType => (110, 8),
        Field::IcmpCode => (118, 8),
        _ => (0, 0),
    }
}

/// The packet of the first 126 values of a model: the bits of its fields in order, of each the highest first.
pub fn model_packet(model: &[bool]) -> Packet
    requires { 126 ≤ length model.now }
    ensures { IsPacketOf (take 126 model.now) result }
{
    packet_of(&model[..126])
}

/// The packet of these 126 bits.
fn packet_of(bits: &[bool]) -> Packet
    requires { length bits.now ≡ 126 }
    ensures { IsPacketOf bits.now result }
{
    Packet {
        src: field_number(bits, Field::SrcIn),
        dst: field_number(bits, Field::DstIn),
        sport: field_number(bits, Field::SportIn) as u16,
        dport: field_number(bits, Field::DportIn) as u16,
        proto: field_number(bits, Field::Proto) as u8,
        flags: field_number(bits, Field::Flags) as u8,
        icmp_type: field_number(bits, Field::IcmpType) as u8,
        icmp_code: field_number(bits, Field::IcmpCode) as u8,
    }
}

/// The number of a field's bits.
fn field_number(bits: &[bool], field: Field) -> u32
    requires { length bits.now ≡ 126 }
    ensures value { result ≡ number (field_bits field bits.now) }
    ensures bound { result < 2 ^ (end_bit field - first_bit field) }
{
    number_of(field_bits(bits, field))
}

/// The number of the bits, the first the heaviest.
fn number_of(bits: &[bool]) -> u32
    requires { length bits.now ≤ 32 }
    ensures { result ≡ number bits.now }
{
    let mut n: u64 = 0;
    for bit in bits {
        n = n * 2 + u64::from(*bit);
    }
    n as u32
}
