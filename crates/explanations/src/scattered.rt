use ios_lex::Dotted;
use std::fmt;

/// Whether the ones of a wildcard are no row at its low end: then what agrees with a value is no range.
pub(crate) fn is_scattered(wildcard: u32) -> bool {
    !(u64::from(wildcard) + 1).is_power_of_two()
}

/// A value of a field: an address with dots, each other one as a number.
#[derive(Clone, Copy, Debug)]
pub(crate) struct Value {
    pub(crate) is_address: bool,
    pub(crate) number: u32,
}

impl fmt::Display for Value {
    fn fmt<W: fmt::Write>(&self, f: &mut fmt::Formatter<W>) -> fmt::Result {
        let number = self.number;
        if self.is_address {
            let address = Dotted(number);
            write!(f, "{address}")
        } else {
            write!(f, "{number}")
        }
    }
}

/// The values that agree with one on each bit that is 0 in the wildcard: the first eight, and how many there are.
#[derive(Clone, Copy, Debug)]
pub(crate) struct Agreeing {
    pub(crate) is_address: bool,
    pub(crate) value: u32,
    pub(crate) wildcard: u32,
}

impl Agreeing {
    /// The least of them.
    fn least(self) -> u32 {
        self.value & !self.wildcard
    }

    /// The next above one of them.
    fn next(self, number: u32) -> u32 {
        let ignored = (number | !self.wildcard).wrapping_add(1) & self.wildcard;
        ignored | self.least()
    }

    fn count(self) -> u64 {
        1 << self.wildcard.count_ones()
    }
}

impl fmt::Display for Agreeing {
    fn fmt<W: fmt::Write>(&self, f: &mut fmt::Formatter<W>) -> fmt::Result {
        let count = self.count();
        let mut number = self.least();
        for place in 0..count.min(8) {
            let value = Value {
                is_address: self.is_address,
                number,
            };
            let comma = if place == 0 { "" } else { ", " };
            write!(f, "{comma}{value}")?;
            number = self.next(number);
        }
        if count > 8 {
            write!(f, " and so on, {count} values")?;
        }
        Ok(())
    }
}
