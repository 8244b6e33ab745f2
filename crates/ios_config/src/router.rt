ghost use Rattle.std.specs.Prelude.{◌≡◌, ◌≤◌, ◌<◌, ◌+◌, ◌++◌, ℕ, List, map, length, IfOk, IfErr, OnOk, OnErr};
ghost use Rattle.std.specs.List.{AllByRecursion, IsDistinct};
ghost use Rattle.std.specs.Str.{bytes_eq};
ghost use Rattle.ios_lex.specs.LineReadings.{reading_of};
ghost use Rattle.ios_lex.specs.Lines.{IsUnclosed};
ghost use Rattle.ios_lex.specs.RawLines.{raw_lines};
ghost use Rattle.ios_lists.specs.Lists.{HaveDifferentNames};
ghost use Rattle.ios_interface.specs.Interfaces.{HasNumber};
ghost use Rattle.ios_names.specs.Names.{most_names, with_names};
ghost use Rattle.ios_route.specs.ActiveRoutes.{AreLengths};
ghost use Rattle.ios_config.specs.Faults.{IsFault};
ghost use Rattle.ios_config.specs.Reading.{Reads, TakesAll};
ghost use Rattle.ios_config.specs.Router.{names_of, no_lines};
ghost use Rattle.ios_config.specs.Taking.{StopsAmong};

use crate::draft::Draft;
use crate::fault::{ConfigFault, located};
use ios_acl::Acl;
use ios_lex::{IosReason, LexFault, Line, lines, split_at_byte};
use ios_names::NameTable;
use ios_nat::NatTable;
use ios_route::{Interface, Routes};
use std::alloc::{AllocError, Global};
use std::marker::Model;

/// What a configuration says.
#[derive(Drop)]
pub struct Router {
    /// The access lists, in the order in which they were begun; those without entries are not defined.
    pub lists: Vec<Acl>,
    /// The interfaces, in the order of their first headings.
    pub interfaces: Vec<Interface>,
    /// The routes that are active.
    pub routes: Routes,
    /// How many static routes its lines give, active or not.
    pub static_routes: u64,
    pub nat: NatTable,
    /// How many lines were ignored.
    pub ignored: u64,
}

impl Model for Router {
    ghost use Rattle.ios_config.specs.Router.{Router as RouterOf};

    ghost Value = { RouterOf };

    ghost view = { λ r. record {
      lists = r.lists.items;
      interfaces = r.interfaces.items;
      routes = r.routes;
      static_routes = r.static_routes;
      nat = r.nat;
      ignored = r.ignored;
    } };
}

/// Reads a configuration, and adds the names of its interfaces to the table; or gives the first line that is refused, and
/// leaves the table as it is.
pub fn read_config(
    alloc: Global,
    bytes: &[u8],
    names: &mut NameTable,
) -> Result<Router, ConfigFault>
    ensures read { IfOk result (Reads names.old bytes.now) }
    ensures names { IfOk result
        (λ router. names.new ≡ with_names names.old (names_of router.interfaces)) }
    ensures numbers { IfOk result
        (λ router. AllByRecursion (HasNumber names.new) router.interfaces) }
    ensures lists { IfOk result (λ router. HaveDifferentNames router.lists) }
    ensures interfaces { IfOk result (λ router. IsDistinct bytes_eq (names_of router.interfaces)) }
    ensures lengths { IfOk result (λ router. AllByRecursion AreLengths router.interfaces) }
    ensures refused { IfErr result (IsFault names.old bytes.now) }
    ensures unchanged { OnErr result (names.new ≡ names.old) }
{
    let router = read(alloc, bytes, names)?;
    add_names(alloc, names, router.interfaces.as_slice())?;
    Ok(router)
}

/// Adds the names of the interfaces.
fn add_names(
    alloc: Global,
    names: &mut NameTable,
    interfaces: &[Interface],
) -> Result<(), AllocError>
    requires { length (with_names names.old (names_of interfaces.now)) ≤ most_names }
    ensures added { OnOk result (names.new ≡ with_names names.old (names_of interfaces.now)) }
    ensures unchanged { OnErr result (names.new ≡ names.old) }
{
    let mut added = Vec::new(alloc);
    for interface in interfaces {
        added.push(interface.name.copy(alloc)?)?;
    }
    names.add_all(added.as_slice())
}

/// The router of a configuration, where these names are known.
fn read(alloc: Global, bytes: &[u8], known: &NameTable) -> Result<Router, ConfigFault>
    ensures read { IfOk result (Reads known.now bytes.now) }
    ensures few { IfOk result (λ router.
        length (with_names known.now (names_of router.interfaces)) ≤ most_names) }
    ensures numbers { IfOk result (λ router. AllByRecursion
        (HasNumber (with_names known.now (names_of router.interfaces))) router.interfaces) }
    ensures lists { IfOk result (λ router. HaveDifferentNames router.lists) }
    ensures lengths { IfOk result (λ router. AllByRecursion AreLengths router.interfaces) }
    ensures interfaces { IfOk result (λ router. IsDistinct bytes_eq (names_of router.interfaces)) }
    ensures refused { IfErr result (IsFault known.now bytes.now) }
{
    match lines(alloc, bytes) {
        Ok(lines) => draft_of(alloc, lines.as_slice(), known)?.finish(),
        Err(LexFault::Unclosed { line }) => Err(unclosed(alloc, bytes, line, known)),
        Err(LexFault::NoMemory) => Err(ConfigFault::NoMemory),
    }
}

/// The draft that the lines make.
fn draft_of<'n>(
    alloc: Global,
    lines: &[Line],
    known: &'n NameTable,
) -> Result<Draft<'n>, ConfigFault>
    ensures read { IfOk result (TakesAll (no_lines known.now) (map reading_of lines.now)) }
    ensures refused { IfErr result (StopsAmong (no_lines known.now) (map reading_of lines.now)) }
{
    let mut draft = Draft::new(alloc, known);
    for line in lines {
        if let Err(fault) = draft.take(line) {
            return Err(located(line.number, fault));
        }
    }
    Ok(draft)
}

/// The fault of a configuration in which the banner that this line opens has no end: the lines before it are judged
/// first.
fn unclosed(alloc: Global, bytes: &[u8], line: u64, known: &NameTable) -> ConfigFault
    requires { IsUnclosed 1 (raw_lines bytes.now) line }
    ensures { IsFault known.now bytes.now result }
{
    let Ok(before) = lines(alloc, bytes_before_line(bytes, line)) else {
        return ConfigFault::NoMemory;
    };
    match draft_of(alloc, before.as_slice(), known) {
        Ok(_) => ConfigFault::At {
            line,
            reason: IosReason::Unclosed,
        },
        Err(fault) => fault,
    }
}

/// The bytes before the line of this number, from 1.
fn bytes_before_line(bytes: &[u8], line: u64) -> &[u8]
    ensures { (front back : List (List ℕ)) → raw_lines bytes.now ≡ front ++ back
        → length front + 1 ≡ line → 0 < length back → raw_lines result.now ≡ front }
{
    let mut rest = bytes;
    for _ in 1..line {
        let Some((_, others)) = split_at_byte(rest, b'\n') else {
            return bytes;
        };
        rest = others;
    }
    &bytes[..bytes.len() - rest.len()]
}
