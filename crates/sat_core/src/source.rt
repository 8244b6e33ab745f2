/// A clause that is known: a given one by its place, or a learned one by its place.
#[derive(Clone, Copy, Debug)]
pub(crate) enum Source {
    Given(usize),
    Learned(usize),
}

/// The number in half of the width; the greatest one where it doesn't fit.
#[inline]
pub(crate) fn narrow(number: usize) -> u32 {
    u32::try_from(number).unwrap_or(u32::MAX)
}

impl Source {
    /// Half as wide, with the kind in the lowest bit.
    pub(crate) fn code(self) -> u32 {
        match self {
            Source::Given(place) => narrow(place).wrapping_mul(2),
            Source::Learned(place) => narrow(place).wrapping_mul(2) ^ 1,
        }
    }

    pub(crate) fn of(code: u32) -> Source {
        let place = (code / 2) as usize;
        if code % 2 == 0 {
            Source::Given(place)
        } else {
            Source::Learned(place)
        }
    }
}
