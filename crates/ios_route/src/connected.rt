ghost use Rattle.std.specs.Prelude.{◌≡◌, ◌++◌, false, IfOk, OnOk};
ghost use Rattle.ios_route.specs.ActiveRoutes as specs;
ghost use Rattle.ios_route.specs.ActiveRoutes.{connected_routes};

use crate::interface::Interface;
use crate::network::network;
use crate::routes::Active;
use std::alloc::{AllocError, Global};

/// The routes to the networks of interfaces.
pub fn connected(alloc: Global, interfaces: &[Interface]) -> Result<Vec<Active>, AllocError>
    ensures { IfOk result (λ routes. routes.items ≡ specs.connected interfaces.now) }
{
    let mut routes = Vec::new(alloc);
    for interface in interfaces {
        if !interface.shut {
            push_networks(&mut routes, interface)?;
        }
    }
    Ok(routes)
}

/// Adds the routes to the networks of an interface that is not shut down.
fn push_networks(routes: &mut Vec<Active>, interface: &Interface) -> Result<(), AllocError>
    requires up { interface.now.shut ≡ false }
    ensures { OnOk result (routes.new.items ≡ routes.old.items ++ connected_routes interface.now) }
{
    for (address, len) in interface.addresses.as_slice() {
        routes.push(Active {
            prefix: network(*len, *address),
            len: *len,
            distance: 0,
            exit: Some(interface.number),
            hop: None,
        })?;
    }
    Ok(())
}
