ghost use Rattle.std.specs.Prelude.{◌≡◌, List, map, Some, None, IfOk, IfErr};
ghost use Rattle.std.specs.List.{AllByRecursion};
ghost use Rattle.ios_route.specs.Interfaces.{Interface as InterfaceValue};
ghost use Rattle.ios_route.specs.ActiveRoutes as specs;
ghost use Rattle.ios_route.specs.ActiveRoutes.{active_static, AreLengths, exit_towards};
ghost use Rattle.ios_route.specs.Exits.{AreExits, named_outlet, network_exit, outlet as outlet_of};
ghost use Rattle.ios_route.specs.Faults.{fault_of};

use crate::first::first_of_each;
use crate::interface::Interface;
use crate::network::first_bits;
use crate::routes::{Active, RouteFault};
use crate::static_route::{RouteExit, StaticRoute};
use std::alloc::{AllocError, Global};
use std::collections::HashMap;

/// What a static route needs of the interface that it names.
#[derive(Clone, Copy, Debug, PartialEq, Eq)]
pub struct Outlet {
    pub number: u16,
    pub shut: bool,
}

/// Where static routes lead: by the names of interfaces, and by their networks.
#[derive(Drop)]
pub struct Exits<'a> {
    /// The first interface of each name.
    pub outlets: HashMap<&'a [u8], Outlet>,
    /// For the length and the first bits of a network, the first interface in it.
    pub networks: HashMap<(u8, u32), Option<u16>>,
}

impl<'a> Exits<'a> {
    /// Where static routes lead over these interfaces, whose routes are these.
    pub fn new(
        alloc: Global,
        interfaces: &'a [Interface],
        connected: &[Active],
    ) -> Result<Exits<'a>, AllocError>
        requires { connected.now ≡ specs.connected interfaces.now }
        ensures { IfOk result (AreExits interfaces.now) }
    {
        let names = names(alloc, interfaces)?;
        let networks = networks(alloc, connected)?;
        Ok(Exits {
            outlets: first_of_each(alloc, names.as_slice())?,
            networks: first_of_each(alloc, networks.as_slice())?,
        })
    }

    /// The static route as an active one, where it is one; refused where it leads nowhere.
    pub fn active(&self, route: &StaticRoute) -> Result<Option<Active>, RouteFault>
        ensures active { (interfaces : List InterfaceValue) → AreExits interfaces self.now
            → AllByRecursion AreLengths interfaces
            → IfOk result (λ found. (found ≡ active_static interfaces route.now)
            × (fault_of interfaces route.now ≡ None)) }
        ensures refused { (interfaces : List InterfaceValue) → AreExits interfaces self.now
            → AllByRecursion AreLengths interfaces
            → IfErr result (λ fault. fault_of interfaces route.now ≡ Some fault) }
    {
        match &route.exit {
            RouteExit::Hop(hop) => match self.towards(*hop) {
                Some(out) => Ok(Some(leading(route, Some(out), Some(*hop)))),
                None => Err(RouteFault::NextHopNotConnected { line: route.line }),
            },
            RouteExit::Out(name, hop) => match self.outlets.get(&name.bytes()) {
                Some(outlet) => Ok(out_of(route, *hop, *outlet)),
                None => Err(RouteFault::UnknownInterface { line: route.line }),
            },
            RouteExit::Null => Ok(Some(leading(route, None, None))),
        }
    }

    /// The interface in whose network the next hop lies: the first of the longest such networks.
    fn towards(&self, hop: u32) -> Option<u16>
        ensures { (interfaces : List InterfaceValue) → AreExits interfaces self.now
            → AllByRecursion AreLengths interfaces
            → result ≡ exit_towards interfaces hop }
    {
        for zeros in 0..=32u8 {
            let len = 32 - zeros;
            if let Some(exit) = self.networks.get(&(len, first_bits(len, hop))) {
                return *exit;
            }
        }
        None
    }
}

/// The static route, out of this interface and to this next hop.
fn leading(route: &StaticRoute, exit: Option<u16>, hop: Option<u32>) -> Active
    ensures { result ≡ specs.leading route.now exit hop }
{
    Active {
        prefix: route.prefix,
        len: route.len,
        distance: route.distance,
        exit,
        hop,
    }
}

/// The static route out of an interface, unless that is shut down.
fn out_of(route: &StaticRoute, hop: Option<u32>, outlet: Outlet) -> Option<Active>
    ensures { (interface : InterfaceValue) → outlet ≡ outlet_of interface
        → result ≡ specs.out_of route.now hop interface }
{
    if outlet.shut {
        None
    } else {
        Some(leading(route, Some(outlet.number), hop))
    }
}

/// The name of each interface, and what routes need of it.
fn names(alloc: Global, interfaces: &[Interface]) -> Result<Vec<(&[u8], Outlet)>, AllocError>
    ensures { IfOk result
        (λ names. map (λ entry. (entry.0.now, entry.1)) names.items
        ≡ map named_outlet interfaces.now) }
{
    let mut names = Vec::new(alloc);
    for interface in interfaces {
        let outlet = Outlet {
            number: interface.number,
            shut: interface.shut,
        };
        names.push((interface.name.bytes(), outlet))?;
    }
    Ok(names)
}

/// The length and the first bits of the network of each route, and its interface.
fn networks(
    alloc: Global,
    connected: &[Active],
) -> Result<Vec<((u8, u32), Option<u16>)>, AllocError>
    ensures { IfOk result (λ networks. networks.items ≡ map network_exit connected.now) }
{
    let mut networks = Vec::new(alloc);
    for route in connected {
        let network = (route.len, first_bits(route.len, route.prefix));
        networks.push((network, route.exit))?;
    }
    Ok(networks)
}
