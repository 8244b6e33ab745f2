ghost use Rattle.std.specs.Prelude.{◌≡◌};
ghost use Rattle.session.specs.Value.{is_address, is_interface};

use frame::Pattern;
use ios_lex::Dotted;
use sorted_logic::Field;
use std::fmt;

/// A value as its field is written: an address with dots, each other one as a number.
#[derive(Clone, Copy, Debug)]
pub(crate) struct Shown {
    pub(crate) field: Field,
    pub(crate) value: u32,
}

impl fmt::Display for Shown {
    ghost use Rattle.std.specs.Prelude.{Some};
    ghost use Rattle.session.specs.Value.{shown};

    ghost output = { λ s. Some (shown s.field s.value) };

    fn fmt<W: fmt::Write>(&self, f: &mut fmt::Formatter<W>) -> fmt::Result {
        if is_address(self.field) {
            let address = Dotted(self.value);
            write!(f, "{address}")
        } else {
            let number = self.value;
            write!(f, "{number}")
        }
    }
}

/// A pattern as its field is written.
#[derive(Clone, Copy, Debug)]
pub(crate) struct ShownPattern {
    pub(crate) field: Field,
    pub(crate) pattern: Pattern,
}

impl fmt::Display for ShownPattern {
    ghost use Rattle.std.specs.Prelude.{Some};
    ghost use Rattle.session.specs.Value.{pattern_text};

    ghost output = { λ s. Some (pattern_text s.field s.pattern) };

    fn fmt<W: fmt::Write>(&self, f: &mut fmt::Formatter<W>) -> fmt::Result {
        let field = self.field;
        match self.pattern {
            Pattern::Masked { value, wildcard } => {
                let value = Shown { field, value };
                let wildcard = Shown {
                    field,
                    value: wildcard,
                };
                write!(f, "{value} {wildcard}")
            }
            Pattern::Range { low, high } if low == high => {
                let value = Shown { field, value: low };
                write!(f, "{value}")
            }
            Pattern::Range { low, high } => {
                let low = Shown { field, value: low };
                let high = Shown { field, value: high };
                write!(f, "{low} TO {high}")
            }
        }
    }
}

/// Whether the values of the field are addresses.
fn is_address(field: Field) -> bool
    ensures { result ≡ is_address field }
{
    match field {
        Field::SrcIn | Field::DstIn | Field::SrcOut | Field::DstOut | Field::NextHop => true,
        Field::Entry
        | Field::SportIn
        | Field::DportIn
        | Field::Proto
        | Field::Flags
        | Field::IcmpType
        | Field::IcmpCode
        | Field::SportOut
        | Field::DportOut
        | Field::Exit => false,
    }
}

/// Whether the values of the field are the numbers of interfaces.
pub(crate) fn is_interface(field: Field) -> bool
    ensures { result ≡ is_interface field }
{
    match field {
        Field::Entry | Field::Exit => true,
        Field::SrcIn
        | Field::DstIn
        | Field::SportIn
        | Field::DportIn
        | Field::Proto
        | Field::Flags
        | Field::IcmpType
        | Field::IcmpCode
        | Field::SrcOut
        | Field::DstOut
        | Field::SportOut
        | Field::DportOut
        | Field::NextHop => false,
    }
}
