ghost use Rattle.std.specs.Prelude.{◌≡◌, ◌≤◌, ℕ, OnOk, OnErr, IfOk, IfErr};
ghost use Rattle.ios_route.specs.ActiveRoutes.{AreLengths};
ghost use Rattle.ios_interface.specs.Block.{interface_of, no_lines};
ghost use Rattle.ios_interface.specs.Faults.{IsFault, IsRestFault};
ghost use Rattle.ios_interface.specs.Reading.{Makes, Reads, with_address, with_list, with_setting};
ghost use Rattle.ios_interface.specs.declared.kind.Kind.TheVariants as kinds;

use crate::access_group::access_group;
use crate::address_line::address_line;
use crate::fault::rest_reason;
use crate::kind::{Direction, Kind, Setting};
use crate::openings::{opening, unmodelled_opening};
use ios_lex::{LineFault, Taken, Word, next_end, unmodelled_words};
use ios_route::{Interface, NatMark};
use std::alloc::{AllocError, Global};
use std::marker::Model;

/// An interface while the lines of its block are taken.
#[derive(Drop)]
pub struct Draft {
    alloc: Global,
    name: Word,
    number: u16,
    plain: Option<(u32, u8)>,
    secondary: Vec<(u32, u8)>,
    list_in: Option<Word>,
    list_out: Option<Word>,
    mark: NatMark,
    shut: bool,
}

impl Model for Draft {
    ghost use Rattle.std.specs.Prelude.{◌++◌};
    ghost use Rattle.std.specs.Option.{option_to_list};
    ghost use Rattle.ios_interface.specs.Block.{Block, HaveLengths};

    ghost Value = { Block };

    ghost view = { λ d. record {
      name = d.name;
      number = d.number;
      plain = d.plain;
      secondary = d.secondary.items;
      list_in = d.list_in;
      list_out = d.list_out;
      mark = d.mark;
      shut = d.shut;
    } };

    ghost invariant = { λ d. HaveLengths (option_to_list d.plain ++ d.secondary.items) };
}

impl Draft {
    /// The interface of this name before the first line of its block: it has no address and no lists, lies on no side of
    /// address translation, and is not shut down. It takes its memory from this allocator.
    pub fn new(alloc: Global, name: Word, number: u16) -> Draft
        ensures { result ≡ no_lines name number }
    {
        Draft {
            alloc,
            name,
            number,
            plain: None,
            secondary: Vec::new(alloc),
            list_in: None,
            list_out: None,
            mark: NatMark::Plain,
            shut: false,
        }
    }

    pub fn name(&self) -> &Word
        ensures { result.now ≡ self.now.name }
    {
        &self.name
    }

    /// Takes what the words of a line of the block say, or says that the line is ignored.
    pub fn read_line(&mut self, words: &[Word]) -> Result<Taken, LineFault>
        ensures read { IfOk result (Reads self.old words.now self.new) }
        ensures unchanged { OnErr result (self.new ≡ self.old) }
        ensures refused { IfErr result (IsFault words.now) }
    {
        if let Some(opening) = unmodelled_opening(words) {
            return Err(LineFault::Refused(unmodelled_words(self.alloc, opening)?));
        }
        let Some((kind, rest)) = opening(words) else {
            return Ok(Taken::Ignored);
        };
        match kind {
            Kind::Address => self.read_address(rest)?,
            Kind::AccessGroup => self.read_group(rest)?,
            Kind::Setting(setting) => self.read_setting(setting, rest)?,
        }
        Ok(Taken::Modelled)
    }

    /// Takes what the words behind `ip address` say.
    fn read_address(&mut self, rest: &[Word]) -> Result<(), LineFault>
        ensures read { OnOk result (Makes self.old rest.now self.new kinds.Address) }
        ensures unchanged { OnErr result (self.new ≡ self.old) }
        ensures refused { IfErr result (IsRestFault kinds.Address rest.now) }
    {
        let (address, len, secondary) = match address_line(rest) {
            Ok(line) => line,
            Err(stop) => {
                let why = rest_reason(self.alloc, Kind::Address, rest, stop)?;
                return Err(LineFault::Refused(why));
            }
        };
        self.add_address(address, len, secondary)?;
        Ok(())
    }

    /// Adds a secondary address, or replaces the plain one.
    fn add_address(&mut self, address: u32, len: u8, secondary: bool) -> Result<(), AllocError>
        requires { len ≤ 32 }
        ensures added { OnOk result (self.new ≡ with_address self.old (address, len) secondary) }
        ensures unchanged { OnErr result (self.new ≡ self.old) }
    {
        if secondary {
            self.secondary.push((address, len))?;
        } else {
            self.plain = Some((address, len));
        }
        Ok(())
    }

    /// Takes what the words behind `ip access-group` say.
    fn read_group(&mut self, rest: &[Word]) -> Result<(), LineFault>
        ensures read { OnOk result (Makes self.old rest.now self.new kinds.AccessGroup) }
        ensures unchanged { OnErr result (self.new ≡ self.old) }
        ensures refused { IfErr result (IsRestFault kinds.AccessGroup rest.now) }
    {
        let (name, direction) = match access_group(rest) {
            Ok(group) => group,
            Err(stop) => {
                let why = rest_reason(self.alloc, Kind::AccessGroup, rest, stop)?;
                return Err(LineFault::Refused(why));
            }
        };
        let name = name.copy(self.alloc)?;
        self.set_list(name, direction);
        Ok(())
    }

    /// Sets the list of a direction.
    fn set_list(&mut self, name: Word, direction: Direction)
        ensures { self.new ≡ with_list self.old name direction }
    {
        match direction {
            Direction::In => self.list_in = Some(name),
            Direction::Out => self.list_out = Some(name),
        }
    }

    /// Takes what a line says that has no words behind these.
    fn read_setting(&mut self, setting: Setting, rest: &[Word]) -> Result<(), LineFault>
        ensures read { OnOk result (Makes self.old rest.now self.new (kinds.Setting setting)) }
        ensures unchanged { OnErr result (self.new ≡ self.old) }
        ensures refused { IfErr result (IsRestFault (kinds.Setting setting) rest.now) }
    {
        if let Err(stop) = next_end(rest) {
            let why = rest_reason(self.alloc, Kind::Setting(setting), rest, stop)?;
            return Err(LineFault::Refused(why));
        }
        self.set(setting);
        Ok(())
    }

    fn set(&mut self, setting: Setting)
        ensures { self.new ≡ with_setting self.old setting }
    {
        match setting {
            Setting::NoAddress => {
                self.plain = None;
                self.secondary.clear();
            }
            Setting::Inside => self.mark = NatMark::Inside,
            Setting::Outside => self.mark = NatMark::Outside,
            Setting::Shutdown => self.shut = true,
            Setting::NoShutdown => self.shut = false,
        }
    }

    /// The interface, its plain address before the secondary ones, these in the order of their lines.
    pub fn finish(self) -> Result<Interface, AllocError>
        ensures made { IfOk result (λ i. i ≡ interface_of self) }
        ensures lengths { IfOk result AreLengths }
    {
        let mut addresses = self.secondary;
        if let Some(plain) = self.plain {
            addresses.insert(0, plain)?;
        }
        Ok(Interface {
            name: self.name,
            number: self.number,
            addresses,
            list_in: self.list_in,
            list_out: self.list_out,
            mark: self.mark,
            shut: self.shut,
        })
    }
}
