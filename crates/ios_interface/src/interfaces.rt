ghost use Rattle.std.specs.Prelude.{◌≡◌, ◌<◌, ◌≤◌, ℕ, None, is_some, length, map, IfOk, IfErr, IfSome, IfNone, OnErr};
ghost use Rattle.std.specs.List.{AllByRecursion, IsDistinct};
ghost use Rattle.std.specs.Str.{bytes_eq};
ghost use Rattle.ios_names.specs.Names.{most_names, with_names};
ghost use Rattle.ios_route.specs.ActiveRoutes.{AreLengths};
ghost use Rattle.ios_interface.specs.Block.{interface_of};
ghost use Rattle.ios_interface.specs.Faults.{IsFault};
ghost use Rattle.ios_interface.specs.Interfaces.{HasNumber, IsHeadingFault, Opens, ReadsLineAt};
ghost use Rattle.ios_interface.specs.Interfaces.{block_named, names_so_far, no_blocks, number_of, with_new};

use crate::draft::Draft;
use crate::heading::heading_name;
use ios_lex::{IosReason, LineFault, Taken, Word};
use ios_names::{NameIndex, NameTable};
use ios_route::Interface;
use std::alloc::{AllocError, Global};
use std::marker::Model;

/// Numbers of interfaces have 16 bits.
const MOST_NAMES: u64 = 65_536;

/// The interfaces of a configuration while its lines are taken.
#[derive(Drop)]
pub struct Interfaces<'n> {
    alloc: Global,
    /// The names of interfaces before this configuration.
    known: &'n NameTable,
    /// In the order of their first headings.
    drafts: Vec<Draft>,
    /// The names of the drafts, each at its place.
    index: NameIndex,
    /// How many names are known with those of the drafts.
    count: u64,
}

impl<'n> Model for Interfaces<'n> {
    ghost use Rattle.ios_interface.specs.Interfaces.{Interfaces as InterfacesValue};
    ghost use Rattle.ios_interface.specs.Kept.{AreKept};

    ghost Value = { InterfacesValue };

    ghost view = { λ i. record { known = i.known.now; blocks = i.drafts.items } };

    ghost invariant = { λ i. AreKept i.known.now i.drafts.items i.index i.count };
}

impl<'n> Interfaces<'n> {
    /// No interfaces yet. The names in the table have their numbers, and others come behind them.
    pub fn new(alloc: Global, known: &'n NameTable) -> Interfaces<'n>
        ensures { result ≡ no_blocks known.now }
    {
        Interfaces {
            alloc,
            known,
            drafts: Vec::new(alloc),
            index: NameIndex::new(alloc),
            count: known.len(),
        }
    }

    /// Opens the block of an interface, by the words behind `interface`, and gives its place. A block that is opened
    /// again goes on.
    pub fn open(&mut self, words: &[Word]) -> Result<usize, LineFault>
        ensures opened { IfOk result (Opens self.old words.now self.new) }
        ensures unchanged { OnErr result (self.new ≡ self.old) }
        ensures refused { IfErr result (IsHeadingFault self.old words.now) }
    {
        let Some(name) = heading_name(words) else {
            return Err(LineFault::Refused(IosReason::BadEntry));
        };
        if let Some(place) = self.index.place(name.bytes()) {
            return Ok(place);
        }
        let Some(number) = self.number(name) else {
            return Err(LineFault::Refused(IosReason::TooMany));
        };
        let place = self.begin(name, number)?;
        Ok(place)
    }

    /// The number of an interface that has no block yet. None where the numbers are used up.
    fn number(&self, name: &Word) -> Option<u16>
        requires { block_named self.now.blocks name.now ≡ None }
        ensures found { IfSome result (λ number.
            number ≡ number_of self.now.known self.now.blocks name.now) }
        ensures few { IfSome result (λ number. number < most_names) }
        ensures none { IfNone result
            (most_names ≤ number_of self.now.known self.now.blocks name.now) }
    {
        if let Some(number) = self.known.place(name.bytes()) {
            return Some(number);
        }
        if self.count < MOST_NAMES {
            Some(self.count as u16)
        } else {
            None
        }
    }

    /// Begins the block of an interface with its number, at the end.
    fn begin(&mut self, name: &Word, number: u16) -> Result<usize, AllocError>
        requires absent { block_named self.old.blocks name.now ≡ None }
        requires number { number ≡ number_of self.old.known self.old.blocks name.now }
        ensures place { IfOk result (λ place. place ≡ length self.old.blocks) }
        ensures begun { IfOk result (λ _. self.new ≡ with_new self.old name.now) }
        ensures unchanged { OnErr result (self.new ≡ self.old) }
    {
        let place = self.drafts.len();
        let draft = Draft::new(self.alloc, name.copy(self.alloc)?, number);
        self.drafts.push(draft)?;
        if let Err(fault) = self.index.add(name) {
            self.drafts.truncate(place);
            return Err(fault);
        }
        if u64::from(number) == self.count {
            self.count += 1;
        }
        Ok(place)
    }

    /// Whether the configuration has an interface of this name.
    pub fn has(&self, name: &[u8]) -> bool
        ensures { result ≡ is_some (block_named self.now.blocks name.now) }
    {
        self.index.place(name).is_some()
    }

    /// Takes a line of the block at this place.
    pub fn take_line(&mut self, place: usize, words: &[Word]) -> Result<Taken, LineFault>
        requires { place < length self.old.blocks }
        ensures read { IfOk result (ReadsLineAt self.old place words.now self.new) }
        ensures unchanged { OnErr result (self.new ≡ self.old) }
        ensures refused { IfErr result (IsFault words.now) }
    {
        self.drafts[place].read_line(words)
    }

    /// The interfaces, in the order of their first headings.
    pub fn finish(self) -> Result<Vec<Interface>, AllocError>
        ensures made { IfOk result (λ all. all.items ≡ map interface_of self.entry.blocks) }
        ensures lengths { IfOk result (λ all. AllByRecursion AreLengths all.items) }
        ensures numbers { IfOk result (λ all. AllByRecursion
            (HasNumber (names_so_far self.entry.known self.entry.blocks)) all.items) }
        ensures names { IfOk result (λ all. IsDistinct bytes_eq (map (λ i. i.name) all.items)) }
        // so the names can be added to those that were known
        ensures few { IfOk result (λ all.
            length (with_names self.entry.known (map (λ i. i.name) all.items)) ≤ most_names) }
    {
        let mut all = Vec::new(self.alloc);
        for draft in self.drafts {
            all.push(draft.finish()?)?;
        }
        Ok(all)
    }
}
