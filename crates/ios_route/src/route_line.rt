ghost use Rattle.std.specs.Prelude.{◌≡◌, ◌≤◌, ℕ, false, length, IfOk, IfErr, IfSome, IfNone};
ghost use Rattle.ios_lex.specs.NextWords.{NoName};
ghost use Rattle.ios_lex.specs.Stops.{IsStop};
ghost use Rattle.ios_route.specs.RouteLines.{HasExit, IsMaskOf, IsRoute, Line};
ghost use Rattle.ios_route.specs.RouteParts as parts;
ghost use Rattle.ios_route.specs.RouteParts.{exit_of, HasMask, route_of, SomeExit, SomeMask};
ghost use Rattle.ios_route.specs.RouteRefusals.{IsFault};
ghost use Rattle.ios_route.specs.RouteRefusals as specs;

use crate::network::network;
use crate::route_end::{UNMODELLED, distance_end, hop_end};
use crate::static_route::{RouteExit, StaticRoute};
use ios_lex::{
    Due, IosReason, LineFault, Stop, Word, address, is_name_beside, prefix_len, stop_before,
    stop_reason, table_at,
};
use std::alloc::{AllocError, Global};

/// The exit of a route, as words say it.
#[derive(Clone, Copy, Debug)]
pub enum WrittenExit<'a> {
    Hop(u32),
    Out(&'a Word, Option<u32>),
    Null,
}

/// A static route, as words say it.
#[derive(Clone, Copy, Debug)]
pub struct Written<'a> {
    pub prefix: u32,
    pub len: u8,
    pub exit: WrittenExit<'a>,
    pub distance: u8,
}

/// The words that are not modelled as the first behind `ip route`.
const UNMODELLED_FIRST: [&str; 2] = ["vrf", "track"];

/// Reads the words behind `ip route`, of the line of this number. Refused for the reason of the first word that no route
/// goes on with, or where the words end too early; or with `NoMemory`.
pub fn read_route(alloc: Global, line: u64, words: &[Word]) -> Result<StaticRoute, LineFault>
    ensures read { IfOk result (λ route. IsRoute false route words.now × (route.line ≡ line)) }
    ensures refused { IfErr result (IsFault words.now) }
{
    match spelled(words) {
        Ok(found) => Ok(kept(alloc, line, found)?),
        Err(stop) => Err(LineFault::Refused(line_reason(alloc, words, stop)?)),
    }
}

/// The route that the words say.
fn spelled(words: &[Word]) -> Result<Written<'_>, Stop>
    ensures read { (line : ℕ)
        → IfOk result (λ found. IsRoute false (route_of line found) words.now) }
    ensures stop { IfErr result (IsStop NoName Line words.now) }
{
    let Some((first, rest)) = words.split_first() else {
        return Err(stop_before(words, Due::Address));
    };
    let Some(prefix) = address(first.bytes()) else {
        return Err(stop_before(words, Due::Address));
    };
    let (len, exit, distance) = mask_end(prefix, rest)?;
    Ok(Written {
        prefix,
        len,
        exit,
        distance,
    })
}

/// The length of the prefix that the words say, and the exit and the distance behind it.
fn mask_end(prefix: u32, words: &[Word]) -> Result<(u8, WrittenExit<'_>, u8), Stop>
    ensures read { IfOk result
        (λ found. HasMask false prefix found.0 (exit_of found.1) found.2 words.now) }
    ensures stop { IfErr result (IsStop NoName (SomeMask prefix) words.now) }
{
    let Some((first, rest)) = words.split_first() else {
        return Err(stop_before(words, Due::Address));
    };
    let Some(mask) = address(first.bytes()) else {
        return Err(stop_before(words, Due::Address));
    };
    let Some(len) = mask_len(prefix, mask) else {
        return Err(stop_before(words, Due::Mask));
    };
    let (exit, distance) = exit_end(rest)?;
    Ok((len, exit, distance))
}

/// The length of the prefix, where the mask is so many ones and then zeros, and has all bits of the prefix.
fn mask_len(prefix: u32, mask: u32) -> Option<u8>
    ensures found { IfSome result (λ len. IsMaskOf prefix len mask) }
    ensures none { IfNone result ((len : ℕ) → IsMaskOf prefix len mask → ⊥) }
{
    let len = prefix_len(mask)?;
    if network(len, prefix) == prefix {
        Some(len)
    } else {
        None
    }
}

/// The exit that the words say, and the distance behind it.
fn exit_end(words: &[Word]) -> Result<(WrittenExit<'_>, u8), Stop>
    ensures read { IfOk result (λ found. HasExit false (exit_of found.0) found.1 words.now) }
    ensures stop { IfErr result (IsStop NoName SomeExit words.now) }
{
    let Some((first, rest)) = words.split_first() else {
        return Err(stop_before(words, Due::Name));
    };
    if let Some(hop) = address(first.bytes()) {
        let distance = distance_end(rest)?;
        return Ok((WrittenExit::Hop(hop), distance));
    }
    if first.is("Null0") {
        let distance = distance_end(rest)?;
        return Ok((WrittenExit::Null, distance));
    }
    if !is_name_beside(first, &UNMODELLED) {
        return Err(stop_before(words, Due::Name));
    }
    let (hop, distance) = hop_end(rest)?;
    Ok((WrittenExit::Out(first, hop), distance))
}

/// The route that is written, with the number of its line.
fn kept(alloc: Global, line: u64, found: Written<'_>) -> Result<StaticRoute, AllocError>
    ensures { IfOk result (λ route. route ≡ route_of line found.entry) }
{
    let exit = kept_exit(alloc, found.exit)?;
    Ok(StaticRoute {
        line,
        prefix: found.prefix,
        len: found.len,
        exit,
        distance: found.distance,
    })
}

/// The exit that is written, with a copy of its name.
fn kept_exit(alloc: Global, exit: WrittenExit<'_>) -> Result<RouteExit, AllocError>
    ensures { IfOk result (λ kept. kept ≡ exit_of exit.entry) }
{
    match exit {
        WrittenExit::Hop(hop) => Ok(RouteExit::Hop(hop)),
        WrittenExit::Out(name, hop) => Ok(RouteExit::Out(name.copy(alloc)?, hop)),
        WrittenExit::Null => Ok(RouteExit::Null),
    }
}

/// The reason of a stop in the words behind `ip route`.
fn line_reason(alloc: Global, words: &[Word], stop: Stop) -> Result<IosReason, AllocError>
    requires { stop.left ≤ length words.now }
    ensures { IfOk result (λ why. why ≡ parts.line_reason words.now stop) }
{
    let place = words.len() - stop.left;
    let table = table_at(1, &UNMODELLED_FIRST, &UNMODELLED, place);
    stop_reason(alloc, words, stop, table, lax_reason(place))
}

/// The reason of a word with which a line that is lax goes on.
fn lax_reason(place: usize) -> IosReason
    ensures { result ≡ specs.lax_reason place }
{
    if place == 1 {
        IosReason::BadMask
    } else {
        IosReason::BadEntry
    }
}
