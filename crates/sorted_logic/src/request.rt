ghost use Rattle.std.specs.Prelude.{◌≡◌, IfSome, IfNone, find};
ghost use Rattle.std.specs.List.{list_any};
ghost use Rattle.std.specs.Str.{bytes_eq};
ghost use Rattle.sorted_logic.specs.declared.request.Field.{Field};
ghost use Rattle.sorted_logic.specs.Field.{IsNamed, field_name, field_names};

/// The fields of the packet that comes in, in order.
const IN_PACKET: [Field; 8] = [
    Field::SrcIn,
    Field::DstIn,
    Field::SportIn,
    Field::DportIn,
    Field::Proto,
    Field::Flags,
    Field::IcmpType,
    Field::IcmpCode,
];

/// All fields, in order.
const FIELDS: [Field; 15] = [
    Field::Entry,
    Field::SrcIn,
    Field::DstIn,
    Field::SportIn,
    Field::DportIn,
    Field::Proto,
    Field::Flags,
    Field::IcmpType,
    Field::IcmpCode,
    Field::SrcOut,
    Field::DstOut,
    Field::SportOut,
    Field::DportOut,
    Field::NextHop,
    Field::Exit,
];

/// A field of a request.
#[derive(Clone, Copy, Debug, PartialEq, Eq)]
pub enum Field {
    /// The interface by which the packet comes in.
    Entry,
    SrcIn,
    DstIn,
    SportIn,
    DportIn,
    Proto,
    Flags,
    IcmpType,
    IcmpCode,
    SrcOut,
    DstOut,
    SportOut,
    DportOut,
    NextHop,
    /// The interface by which it goes out.
    Exit,
}

impl Field {
    /// The name of the field, as tests write it and scenarios print it.
    pub fn name(self) -> &'static str
        ensures { result.now ≡ field_name self }
    {
        match self {
            Field::Entry => "entry",
            Field::SrcIn => "src_in",
            Field::DstIn => "dst_in",
            Field::SportIn => "sport_in",
            Field::DportIn => "dport_in",
            Field::Proto => "proto",
            Field::Flags => "flags",
            Field::IcmpType => "icmp_type",
            Field::IcmpCode => "icmp_code",
            Field::SrcOut => "src_out",
            Field::DstOut => "dst_out",
            Field::SportOut => "sport_out",
            Field::DportOut => "dport_out",
            Field::NextHop => "next_hop",
            Field::Exit => "exit",
        }
    }

    /// The field of the packet that comes in that has this name.
    pub fn in_packet(name: &[u8]) -> Option<Field>
        ensures found { IfSome result (IsNamed name.now) }
        ensures none { IfNone result ((f : Field) → IsNamed name.now f → ⊥) }
    {
        field_named(name, &IN_PACKET)
    }
}

/// The first of the fields that has the name.
fn field_named(name: &[u8], fields: &[Field]) -> Option<Field>
    ensures { result ≡ find (λ f. bytes_eq name.now (field_name f)) fields.now }
{
    for field in fields {
        if name == field.name().as_bytes() {
            return Some(*field);
        }
    }
    None
}

/// Whether a field of requests has the name.
pub(crate) fn is_field_name(name: &[u8]) -> bool
    ensures { result ≡ list_any (bytes_eq name.now) field_names }
{
    field_named(name, &FIELDS).is_some()
}
