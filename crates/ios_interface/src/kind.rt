ghost use Rattle.std.specs.Prelude.{◌≡◌};
ghost use Rattle.ios_lex.specs.Refusal.{texts};
ghost use Rattle.ios_interface.specs.Grammar.{opening_words, setting_words};

/// Which packets a list is for.
#[derive(Clone, Copy, Debug, PartialEq, Eq)]
pub(crate) enum Direction {
    /// Those on their way into the router.
    In,
    /// Those on their way out of it.
    Out,
}

/// The lines without a value.
#[derive(Clone, Copy, Debug, PartialEq, Eq)]
pub(crate) enum Setting {
    /// `no ip address`
    NoAddress,
    /// `ip nat inside`
    Inside,
    /// `ip nat outside`
    Outside,
    /// `shutdown`
    Shutdown,
    /// `no shutdown`
    NoShutdown,
}

/// The kinds of lines that are modelled.
#[derive(Clone, Copy, Debug, PartialEq, Eq)]
pub(crate) enum Kind {
    /// `ip address`
    Address,
    /// `ip access-group`
    AccessGroup,
    Setting(Setting),
}

const ADDRESS: [&str; 2] = ["ip", "address"];

const ACCESS_GROUP: [&str; 2] = ["ip", "access-group"];

const NO_ADDRESS: [&str; 3] = ["no", "ip", "address"];

const INSIDE: [&str; 3] = ["ip", "nat", "inside"];

const OUTSIDE: [&str; 3] = ["ip", "nat", "outside"];

const SHUTDOWN: [&str; 1] = ["shutdown"];

const NO_SHUTDOWN: [&str; 2] = ["no", "shutdown"];

impl Setting {
    /// The words of the line.
    fn words(self) -> &'static [&'static str]
        ensures { texts result.now ≡ setting_words self }
    {
        match self {
            Setting::NoAddress => &NO_ADDRESS,
            Setting::Inside => &INSIDE,
            Setting::Outside => &OUTSIDE,
            Setting::Shutdown => &SHUTDOWN,
            Setting::NoShutdown => &NO_SHUTDOWN,
        }
    }
}

impl Kind {
    /// The words that such a line begins with.
    pub(crate) fn opening(self) -> &'static [&'static str]
        ensures { texts result.now ≡ opening_words self }
    {
        match self {
            Kind::Address => &ADDRESS,
            Kind::AccessGroup => &ACCESS_GROUP,
            Kind::Setting(setting) => setting.words(),
        }
    }
}
