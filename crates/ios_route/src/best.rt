ghost use Rattle.std.specs.Prelude.{◌≡◌};
ghost use Rattle.ios_route.specs.Best as specs;
ghost use Rattle.ios_route.specs.Best.{best_choices};
ghost use Rattle.ios_route.specs.Ranks as ranks;

use crate::network::in_one_network;
use crate::routes::Active;
use std::marker::Model;

/// Where a route leads a packet.
#[derive(Clone, Copy, Debug, PartialEq, Eq)]
pub struct Choice {
    /// The number of the interface; None where the packet is dropped.
    pub exit: Option<u16>,
    pub next_hop: u32,
}

/// The best routes of an address, one after the other.
#[derive(Drop)]
pub struct RouteChoices<'a> {
    left: &'a [Active],
    address: u32,
    /// The length and the distance of the best routes; None where no route has the address.
    rank: Option<(u8, u8)>,
}

impl<'a> Model for RouteChoices<'a> {
    ghost use Rattle.std.specs.Prelude.{List};
    ghost use Rattle.ios_route.specs.declared.best.Choice.{Choice};
    ghost use Rattle.ios_route.specs.Ranks.{choices_left};

    ghost Value = { List Choice };

    ghost view = { λ c. choices_left c.address c.rank c.left.now };
}

impl Iterator for RouteChoices<'_> {
    ghost use Rattle.std.specs.Iterator.{YieldsFirst, item_count};

    type Item = Choice;

    ghost next_gives = { YieldsFirst (λ left. left) };

    ghost remaining = { item_count (λ left. left) };

    fn next(&mut self) -> Option<Choice> {
        while let Some((first, others)) = self.left.split_first() {
            self.left = others;
            if has_rank(self.address, self.rank, first) {
                return Some(choice_by(self.address, first));
            }
        }
        None
    }
}

/// The best of the routes for an address.
#[tactic(auto, using(crate::proofs::BestRanks::best_by_rank))]
pub fn choices(routes: &[Active], address: u32) -> RouteChoices<'_>
    ensures { result ≡ best_choices routes.now address }
{
    RouteChoices {
        left: routes,
        address,
        rank: best_rank(address, routes),
    }
}

/// Whether the prefix of the route has the address.
fn covers(address: u32, route: &Active) -> bool
    ensures { result ≡ specs.covers address route.now }
{
    in_one_network(route.len, address, route.prefix)
}

fn choice_by(address: u32, route: &Active) -> Choice
    ensures { result ≡ specs.choice_by address route.now }
{
    Choice {
        exit: route.exit,
        next_hop: route.hop.unwrap_or(address),
    }
}

/// The length and the distance of the best of the routes for an address.
fn best_rank(address: u32, routes: &[Active]) -> Option<(u8, u8)>
    ensures { result ≡ ranks.best_rank address routes.now }
{
    let mut best = None;
    for route in routes {
        if covers(address, route) {
            best = Some(foremost(best, (route.len, route.distance)));
        }
    }
    best
}

fn foremost(best: Option<(u8, u8)>, this: (u8, u8)) -> (u8, u8)
    ensures { result ≡ ranks.foremost best this }
{
    match best {
        Some(best) if !is_ahead(this, best) => best,
        _ => this,
    }
}

fn is_ahead(this: (u8, u8), other: (u8, u8)) -> bool
    ensures { result ≡ ranks.is_ahead this other }
{
    this.0 > other.0 || this.0 == other.0 && this.1 < other.1
}

/// Whether the route is for the address, and has this length and this distance.
fn has_rank(address: u32, best: Option<(u8, u8)>, route: &Active) -> bool
    ensures { result ≡ ranks.has_rank address best route.now }
{
    match best {
        Some(best) => covers(address, route) && route.len == best.0 && route.distance == best.1,
        None => false,
    }
}
