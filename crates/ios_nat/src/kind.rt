ghost use Rattle.std.specs.Prelude.{◌≡◌};
ghost use Rattle.ios_lex.specs.Refusal.{texts};
ghost use Rattle.ios_nat.specs.Grammar as specs;

/// The kinds of lines.
#[derive(Clone, Copy, Debug, PartialEq, Eq)]
pub(crate) enum Kind {
    /// `ip nat inside source static`
    Static,
    /// `ip nat inside source list`
    Dynamic,
    /// `ip nat pool`
    Pool,
}

const STATIC: [&str; 5] = ["ip", "nat", "inside", "source", "static"];

const DYNAMIC: [&str; 5] = ["ip", "nat", "inside", "source", "list"];

const POOL: [&str; 3] = ["ip", "nat", "pool"];

const UNMODELLED_STATIC: [&str; 5] = ["network", "interface", "route-map", "vrf", "redundancy"];

const UNMODELLED_DYNAMIC: [&str; 4] = ["route-map", "vrf", "reversible", "oer"];

const UNMODELLED_POOL: [&str; 2] = ["type", "add-route"];

impl Kind {
    /// The words that such a line begins with.
    pub(crate) fn opening(self) -> &'static [&'static str]
        ensures { texts result.now ≡ specs.opening_words self }
    {
        match self {
            Kind::Static => &STATIC,
            Kind::Dynamic => &DYNAMIC,
            Kind::Pool => &POOL,
        }
    }

    /// The words that are not modelled behind the opening of such a line.
    pub(crate) fn unmodelled(self) -> &'static [&'static str]
        ensures { texts result.now ≡ specs.unmodelled self }
    {
        match self {
            Kind::Static => &UNMODELLED_STATIC,
            Kind::Dynamic => &UNMODELLED_DYNAMIC,
            Kind::Pool => &UNMODELLED_POOL,
        }
    }
}
