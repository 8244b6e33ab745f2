ghost use Rattle.std.specs.Prelude.{◌≡◌, ◌<◌, ◌≤◌, ◌^◌, [], ℕ, length, IfOk, OnOk, IfErr};
ghost use Rattle.std.specs.List.{AllByRecursion, IsDistinct};
ghost use Rattle.std.specs.Str.{bytes_eq};
ghost use Rattle.ios_lex.specs.LineReadings.{reading_of};
ghost use Rattle.ios_lex.specs.Phrases.{Words};
ghost use Rattle.ios_interface.specs.Interfaces.{HasNumber};
ghost use Rattle.ios_lists.specs.Lists.{HaveDifferentNames};
ghost use Rattle.ios_names.specs.Names.{most_names, with_names};
ghost use Rattle.ios_route.specs.ActiveRoutes.{AreLengths};
ghost use Rattle.ios_config.specs.Line.{Rule, Takes, counting, ignoring};
ghost use Rattle.ios_config.specs.Reading.{dangling_entries};
ghost use Rattle.ios_config.specs.Router.{interfaces_of, names_of, no_lines};
ghost use Rattle.ios_config.specs.Taking.{IsDangling, IsLineFault, IsMade, IsTranslationFault, IsWholeFault};
ghost use Rattle.ios_config.specs.Taking.{IsRuleFault, IsWithinFault, MakesBy, TakesWithin, Translates};
ghost use Rattle.ios_config.specs.Whole as whole;
ghost use Rattle.ios_config.specs.declared.command.Command.TheVariants as commands;

use crate::command::{Command, opened_command, unmodelled_opening};
use crate::fault::{ConfigFault, of_list, of_route, of_translation};
use crate::router::Router;
use ios_interface::Interfaces;
use ios_lex::{IosReason, Line, LineFault, Taken, Word, unmodelled_words};
use ios_lists::Lists;
use ios_names::NameTable;
use ios_nat::{DynamicFrom, NatTable};
use ios_route::{Routes, StaticRoute, read_route};
use std::alloc::Global;
use std::marker::Model;

/// What indented lines belong to.
#[derive(Clone, Copy, Debug)]
pub(crate) enum OpenBlock {
    Nothing,
    /// The block of the list at this place.
    List(usize),
    /// The block of the interface at this place.
    Interface(usize),
}

/// What was read of a configuration so far.
#[derive(Drop)]
pub(crate) struct Draft<'n> {
    alloc: Global,
    lists: Lists,
    interfaces: Interfaces<'n>,
    routes: Vec<StaticRoute>,
    nat: NatTable,
    block: OpenBlock,
    /// How many lines were ignored.
    ignored: u64,
}

impl<'n> Model for Draft<'n> {
    ghost use Rattle.ios_config.specs.Router.{Draft as DraftOf};
    ghost use Rattle.ios_config.specs.Taking.{IsBlockPlace, block_of};

    ghost Value = { DraftOf };

    ghost view = { λ d. record {
      lists = d.lists;
      interfaces = d.interfaces;
      routes = d.routes.items;
      nat = d.nat;
      block = block_of d.lists d.interfaces.blocks d.block;
      ignored = d.ignored;
    } };

    ghost invariant = { λ d. IsBlockPlace d.lists d.interfaces.blocks d.block };
}

impl<'n> Draft<'n> {
    /// The draft before the first line, where these names of interfaces are known.
    pub(crate) fn new(alloc: Global, known: &'n NameTable) -> Draft<'n>
        ensures { result ≡ no_lines known.now }
    {
        Draft {
            alloc,
            lists: Lists::new(alloc),
            interfaces: Interfaces::new(alloc, known),
            routes: Vec::new(alloc),
            nat: NatTable::new(alloc),
            block: OpenBlock::Nothing,
            ignored: 0,
        }
    }

    /// Takes the line, or says why it is refused.
    pub(crate) fn take(&mut self, line: &Line) -> Result<(), LineFault>
        requires few { self.old.ignored < 2 ^ 63 }
        ensures taken { OnOk result (Takes self.old (reading_of line.now) self.new) }
        ensures refused { IfErr result (IsLineFault self.old (reading_of line.now)) }
    {
        let words = line.words.as_slice();
        if line.banner {
            self.ignore();
            return Ok(());
        }
        if line.indented {
            return self.take_within(words);
        }
        if let Some(opening) = unmodelled_opening(words) {
            return Err(LineFault::Refused(unmodelled_words(self.alloc, opening)?));
        }
        let Some((command, rest)) = opened_command(words) else {
            self.ignore();
            return Ok(());
        };
        self.take_command(line.number, words, command, rest)
    }

    /// Counts a line that is ignored, which closes the block.
    fn ignore(&mut self)
        requires few { self.old.ignored < 2 ^ 63 }
        ensures { self.new ≡ ignoring self.old }
    {
        self.block = OpenBlock::Nothing;
        self.ignored += 1;
    }

    /// Takes a line of the block that is open.
    fn take_within(&mut self, words: &[Word]) -> Result<(), LineFault>
        requires few { self.old.ignored < 2 ^ 63 }
        ensures taken { OnOk result (TakesWithin self.old words.now self.new) }
        ensures refused { IfErr result (IsWithinFault self.old words.now) }
    {
        match self.block {
            OpenBlock::Nothing => {
                self.ignore();
                Ok(())
            }
            OpenBlock::List(place) => {
                if let Err(fault) = self.lists.take_entry(place, words) {
                    return Err(of_list(fault));
                }
                Ok(())
            }
            OpenBlock::Interface(place) => {
                let taken = self.interfaces.take_line(place, words)?;
                self.count(taken);
                Ok(())
            }
        }
    }

    /// Counts the line, where it is ignored.
    fn count(&mut self, taken: Taken)
        requires few { self.old.ignored < 2 ^ 63 }
        ensures { self.new ≡ counting self.old taken }
    {
        match taken {
            Taken::Modelled => {}
            Taken::Ignored => self.ignored += 1,
        }
    }

    /// Takes a line of a command that is modelled.
    fn take_command(
        &mut self,
        number: u64,
        words: &[Word],
        command: Command,
        rest: &[Word],
    ) -> Result<(), LineFault>
        requires few { self.old.ignored < 2 ^ 63 }
        ensures taken { OnOk result
            (MakesBy (Rule.command command rest.now) self.old number words.now self.new) }
        ensures refused { IfErr result
            (IsRuleFault (Rule.command command rest.now) self.old words.now) }
    {
        match command {
            Command::NumberedList => self.take_numbered(rest),
            Command::ListBlock => self.open_list(rest),
            Command::InterfaceBlock => self.open_interface(rest),
            Command::Route => self.take_route(number, rest),
            Command::Pool => self.take_translation(number, words),
            Command::Source => self.take_source(number, words, rest),
        }
    }

    /// Takes a line of a numbered list, by the words behind `access-list`.
    fn take_numbered(&mut self, rest: &[Word]) -> Result<(), LineFault>
        requires few { self.old.ignored < 2 ^ 63 }
        ensures taken { OnOk result ((number : ℕ) (words : Words)
            → MakesBy (Rule.command commands.NumberedList rest.now)
            self.old number words self.new) }
        ensures refused { IfErr result (λ fault. (words : Words)
            → IsRuleFault (Rule.command commands.NumberedList rest.now) self.old words fault) }
    {
        match self.lists.take_numbered(rest) {
            Ok(taken) => {
                self.block = OpenBlock::Nothing;
                self.count(taken);
                Ok(())
            }
            Err(fault) => Err(of_list(fault)),
        }
    }

    /// Opens the block of a list, by the words behind `ip access-list`.
    fn open_list(&mut self, rest: &[Word]) -> Result<(), LineFault>
        ensures taken { OnOk result ((number : ℕ) (words : Words)
            → MakesBy (Rule.command commands.ListBlock rest.now) self.old number words self.new) }
        ensures refused { IfErr result (λ fault. (words : Words)
            → IsRuleFault (Rule.command commands.ListBlock rest.now) self.old words fault) }
    {
        match self.lists.open(rest) {
            Ok(place) => {
                self.block = OpenBlock::List(place);
                Ok(())
            }
            Err(fault) => Err(of_list(fault)),
        }
    }

    /// Opens the block of an interface, by the words behind `interface`.
    fn open_interface(&mut self, rest: &[Word]) -> Result<(), LineFault>
        ensures taken { OnOk result ((number : ℕ) (words : Words)
            → MakesBy (Rule.command commands.InterfaceBlock rest.now)
            self.old number words self.new) }
        ensures refused { IfErr result (λ fault. (words : Words)
            → IsRuleFault (Rule.command commands.InterfaceBlock rest.now) self.old words fault) }
    {
        let place = self.interfaces.open(rest)?;
        self.block = OpenBlock::Interface(place);
        Ok(())
    }

    /// Takes the static route that the words behind `ip route` say.
    fn take_route(&mut self, number: u64, rest: &[Word]) -> Result<(), LineFault>
        ensures taken { OnOk result ((words : Words)
            → MakesBy (Rule.command commands.Route rest.now) self.old number words self.new) }
        ensures refused { IfErr result (λ fault. (words : Words)
            → IsRuleFault (Rule.command commands.Route rest.now) self.old words fault) }
    {
        let route = read_route(self.alloc, number, rest)?;
        self.block = OpenBlock::Nothing;
        if self.routes.push(route).is_err() {
            return Err(LineFault::NoMemory);
        }
        Ok(())
    }

    /// Takes a line on address translation.
    fn take_translation(&mut self, number: u64, words: &[Word]) -> Result<(), LineFault>
        ensures taken { OnOk result (Translates self.old number words.now self.new) }
        ensures refused { IfErr result (IsTranslationFault self.old words.now) }
    {
        match self.nat.read_line(number, words) {
            Ok(()) => {
                self.block = OpenBlock::Nothing;
                Ok(())
            }
            Err(fault) => Err(of_translation(fault)),
        }
    }

    /// Takes a line on the translation of sources; one that says nothing of them is ignored.
    fn take_source(&mut self, number: u64, words: &[Word], rest: &[Word]) -> Result<(), LineFault>
        requires few { self.old.ignored < 2 ^ 63 }
        ensures taken { OnOk result
            (MakesBy (Rule.command commands.Source rest.now) self.old number words.now self.new) }
        ensures refused { IfErr result
            (IsRuleFault (Rule.command commands.Source rest.now) self.old words.now) }
    {
        if rest.is_empty() {
            self.ignore();
            return Ok(());
        }
        self.take_translation(number, words)
    }
}

impl<'n> Draft<'n> {
    /// The router that the lines make, or why they make none: the first static route that leads nowhere, else the first
    /// dynamic entry whose pool or interface is not there.
    pub(crate) fn finish(self) -> Result<Router, ConfigFault>
        ensures made { IfOk result (IsMade self.entry) }
        ensures few { IfOk result (λ router. length
            (with_names self.entry.interfaces.known (names_of router.interfaces)) ≤ most_names) }
        ensures numbers { IfOk result (λ router. AllByRecursion
            (HasNumber (with_names self.entry.interfaces.known (names_of router.interfaces)))
            router.interfaces) }
        ensures lists { IfOk result (λ router. HaveDifferentNames router.lists) }
        ensures interfaces { IfOk result (λ router.
            IsDistinct bytes_eq (names_of router.interfaces)) }
        ensures lengths { IfOk result (λ router. AllByRecursion AreLengths router.interfaces) }
        ensures refused { IfErr result (IsWholeFault self.entry) }
    {
        let named = self.check_names();
        let interfaces = self.interfaces.finish()?;
        let routes = match Routes::new(self.alloc, interfaces.as_slice(), self.routes.as_slice()) {
            Ok(routes) => routes,
            Err(fault) => return Err(of_route(fault)),
        };
        named?;
        Ok(Router {
            lists: self.lists.finish(),
            interfaces,
            routes,
            static_routes: self.routes.len() as u64,
            nat: self.nat,
            ignored: self.ignored,
        })
    }

    /// Refused at the first dynamic entry whose pool or interface is not there.
    fn check_names(&self) -> Result<(), ConfigFault>
        ensures named { OnOk result (dangling_entries self.now ≡ []) }
        ensures refused { IfErr result (IsDangling self.now) }
    {
        for entry in self.nat.dynamic() {
            if let Some(reason) = self.unnamed(&entry.from) {
                return Err(ConfigFault::At {
                    line: entry.line,
                    reason,
                });
            }
        }
        Ok(())
    }

    /// The reason where the addresses of a dynamic entry come from a pool or an interface that is not there.
    fn unnamed(&self, from: &DynamicFrom) -> Option<IosReason>
        ensures { result ≡ whole.unnamed (interfaces_of self.now) self.now.nat from.now }
    {
        match from {
            DynamicFrom::Pool(name) if self.nat.pool(name.bytes()).is_none() => {
                Some(IosReason::UnknownPool)
            }
            DynamicFrom::Interface(name) if !self.interfaces.has(name.bytes()) => {
                Some(IosReason::UnknownInterface)
            }
            _ => None,
        }
    }
}
