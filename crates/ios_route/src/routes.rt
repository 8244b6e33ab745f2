ghost use Rattle.std.specs.Prelude.{◌≡◌, ◌++◌, [], IfOk, IfErr, OnOk};
ghost use Rattle.std.specs.List.{AllByRecursion};
ghost use Rattle.std.specs.Option.{option_to_list};
ghost use Rattle.ios_route.specs.ActiveRoutes.{active_routes, AreLengths};
ghost use Rattle.ios_route.specs.Best.{best_choices};
ghost use Rattle.ios_route.specs.Faults.{faults, IsFirst};

use crate::best::{RouteChoices, choices};
use crate::connected::connected;
use crate::exits::Exits;
use crate::interface::Interface;
use crate::static_route::StaticRoute;
use std::alloc::{AllocError, Global};
use std::marker::Model;

/// A route that is active.
#[derive(Clone, Copy, Debug, PartialEq, Eq)]
pub struct Active {
    pub prefix: u32,
    /// How many bits of the prefix count, at most 32.
    pub len: u8,
    /// 0 for the networks of interfaces.
    pub distance: u8,
    /// The number of the interface out of which it leads; None where packets are dropped.
    pub exit: Option<u16>,
    /// The next hop, where one is written.
    pub hop: Option<u32>,
}

/// Why static routes are refused.
#[derive(Clone, Copy, Debug, PartialEq, Eq)]
pub enum RouteFault {
    /// The next hop of this line lies in no network of an interface that is not shut down.
    NextHopNotConnected { line: u64 },
    /// This line names an interface that is not there.
    UnknownInterface { line: u64 },
    NoMemory,
}

impl From<AllocError> for RouteFault {
    ghost use Rattle.std.specs.Prelude.{◌≡◌};
    ghost use Rattle.ios_route.specs.declared.routes.RouteFault.TheVariants as fault;

    ghost from_gives = { λ _ given. given ≡ fault.NoMemory };

    fn from(_: AllocError) -> RouteFault {
        RouteFault::NoMemory
    }
}

/// The active routes of a router.
#[derive(Drop)]
pub struct Routes {
    active: Vec<Active>,
}

impl Model for Routes {
    ghost use Rattle.std.specs.Prelude.{List};
    ghost use Rattle.ios_route.specs.declared.routes.Active.{Active};

    ghost Value = { List Active };

    ghost view = { λ r. r.active.items };
}

impl Routes {
    /// The routes that are active: those of the networks of interfaces, and then the static ones, each in the order in
    /// which they are given. Refused at the first static route that leads nowhere.
    pub fn new(
        alloc: Global,
        interfaces: &[Interface],
        routes: &[StaticRoute],
    ) -> Result<Routes, RouteFault>
        requires lengths { AllByRecursion AreLengths interfaces.now }
        ensures active { IfOk result (λ made. made ≡ active_routes interfaces.now routes.now) }
        ensures sound { IfOk result (λ _. faults interfaces.now routes.now ≡ []) }
        ensures refused { IfErr result (IsFirst (faults interfaces.now routes.now)) }
    {
        let mut active = connected(alloc, interfaces)?;
        let exits = Exits::new(alloc, interfaces, active.as_slice())?;
        for route in routes {
            add(&mut active, exits.active(route)?)?;
        }
        Ok(Routes { active })
    }

    /// The active routes: those of the networks of interfaces, and then the static ones, each in the order of the file.
    pub fn active(&self) -> &[Active]
        ensures { result.now ≡ self.now }
    {
        self.active.as_slice()
    }

    /// The best routes of an address, in the same order. Any of them may be taken.
    pub fn best(&self, address: u32) -> RouteChoices<'_>
        ensures { result ≡ best_choices self.now address }
    {
        choices(self.active.as_slice(), address)
    }
}

/// Adds a route, where there is one.
fn add(routes: &mut Vec<Active>, route: Option<Active>) -> Result<(), AllocError>
    ensures { OnOk result (routes.new.items ≡ routes.old.items ++ option_to_list route) }
{
    if let Some(route) = route {
        routes.push(route)?;
    }
    Ok(())
}
