//! Interfaces and static routes of a router, and which routes it takes.
//!
//! `Routes::new` finds the routes that are active, or the first static route that leads nowhere, and `Routes::best` gives
//! the best of them for an address: the longest prefix that has it, and of these the least distance.
//! `read_route` reads the words of a line `ip route`, or says why they are refused.
//! `ios_config` reads the lines of a configuration into interfaces and routes.
#![tactic(auto)]

mod best;
mod connected;
mod exits;
mod first;
mod interface;
mod laws;
mod network;
mod route_end;
mod route_line;
mod routes;
mod static_route;

pub use best::{Choice, RouteChoices};
pub use interface::{Interface, NatMark};
pub use ios_lex::LineFault;
pub use laws::one_route;
pub use route_line::read_route;
pub use routes::{Active, RouteFault, Routes};
pub use static_route::{RouteExit, StaticRoute};
pub use std::alloc::AllocError as NoMemory;
