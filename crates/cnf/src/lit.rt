ghost use Rattle.std.specs.Prelude.{◌≡◌, ◌<◌, length, not};
ghost use Rattle.cnf.specs.Clauses.{lit_holds, signed};

/// A literal: a variable, or its negation. Variables are numbered from 0.
#[derive(Clone, Copy, Debug, Default, PartialEq, Eq)]
pub struct Lit {
    pub var: usize,
    pub negative: bool,
}

impl Lit {
    pub fn new(var: usize, negative: bool) -> Lit
        ensures { result ≡ record { var = var; negative = negative } }
    {
        Lit { var, negative }
    }

    /// The literal that is true where this one is false.
    #[inline]
    pub fn negate(self) -> Lit
        ensures { result ≡ record { var = self.var; negative = not self.negative } }
    {
        Lit {
            var: self.var,
            negative: !self.negative,
        }
    }

    /// The literal's value, where this is its variable's.
    #[inline]
    pub fn signed(self, value: bool) -> bool
        ensures { result ≡ signed self.negative value }
    {
        if self.negative { !value } else { value }
    }

    /// Whether it is true where the variables have these values. Its own has one.
    #[inline]
    pub fn holds(self, values: &[bool]) -> bool
        requires { self.var < length values.now }
        ensures { result ≡ lit_holds values.now self }
    {
        self.signed(values[self.var])
    }
}
