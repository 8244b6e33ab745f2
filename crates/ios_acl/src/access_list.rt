ghost use Rattle.std.specs.Prelude.{◌≡◌, ◌<◌, ◌↔◌, [], length, IsTrue, OnOk, OnErr, IfOk, IfErr};
ghost use Rattle.ios_acl.specs.Decision.{decision, first_match};
ghost use Rattle.ios_acl.specs.Faults.{IsFault};
ghost use Rattle.ios_acl.specs.List.{IsRising};
ghost use Rattle.ios_acl.specs.Reading.{Reads};

use crate::entry::{Entry, Verdict};
use crate::fault::{AclFault, line_reason};
use crate::numbers::{is_taken, number_of, opened, place_of};
use crate::packet::Packet;
use crate::spelled::sentence;
use ios_lex::{IosReason, Word};
use std::alloc::{AllocError, Global};
use std::marker::Model;

/// How many entries a list may have.
const MOST_ENTRIES: usize = 5000;

/// An access list.
#[derive(Drop)]
pub struct Acl {
    alloc: Global,
    name: Word,
    extended: bool,
    entries: Vec<Entry>,
}

impl Model for Acl {
    ghost use Rattle.ios_acl.specs.List.{AccessList, IsAccessList};

    ghost Value = { AccessList };

    ghost view = { λ a. record {
      name = a.name;
      extended = a.extended;
      entries = a.entries.items;
    } };

    ghost invariant = { λ a. IsAccessList (record {
      name = a.name;
      extended = a.extended;
      entries = a.entries.items;
    }) };
}

impl Acl {
    ghost use Rattle.std.specs.Prelude.{◌≤◌, false, IfSome};
    ghost use Rattle.ios_lex.specs.Phrases.{Words};
    ghost use Rattle.ios_acl.specs.Adding.{Adds, CannotAdd};
    ghost use Rattle.ios_acl.specs.Grammar.{IsEntry};
    ghost use Rattle.ios_acl.specs.List.{has_number, greatest_sequence, IsAccessList};

    /// A list without entries, standard or extended. It takes its memory from this allocator.
    pub fn new(alloc: Global, name: Word, extended: bool) -> Acl
        ensures { result ≡ record { name = name; extended = extended; entries = [] } }
    {
        Acl {
            alloc,
            name,
            extended,
            entries: Vec::new(alloc),
        }
    }

    /// The same list once more.
    pub fn copy(&self) -> Result<Acl, AllocError>
        ensures { IfOk result (λ acl. acl ≡ self.now) }
    {
        Ok(Acl {
            alloc: self.alloc,
            name: self.name.copy(self.alloc)?,
            extended: self.extended,
            entries: Vec::from_slice(self.alloc, self.entries.as_slice())?,
        })
    }

    pub fn name(&self) -> &Word
        ensures { result.now ≡ self.now.name }
    {
        &self.name
    }

    /// Whether it is an extended list, and not a standard one.
    pub fn is_extended(&self) -> bool
        ensures { result ≡ self.now.extended }
    {
        self.extended
    }

    /// The entries, in the order of their numbers.
    pub fn entries(&self) -> &[Entry]
        ensures entries { result.now ≡ self.now.entries }
        ensures order { IsRising result.now }
        ensures whole { IsAccessList self.now }
    {
        self.entries.as_slice()
    }

    /// A list without entries is not defined: it permits where it is applied.
    pub fn is_defined(&self) -> bool
        ensures { IsTrue result ↔ (0 < length self.now.entries) }
    {
        !self.entries.is_empty()
    }

    /// Adds the entry that the words of a line of a list block spell, or those behind `access-list N`. A remark adds
    /// none. An entry without a number gets the greatest so far plus 10.
    pub fn read_line(&mut self, words: &[Word]) -> Result<(), AclFault>
        ensures read { OnOk result (Reads self.old words.now self.new) }
        ensures unchanged { OnErr result (self.new ≡ self.old) }
        ensures refused { IfErr result (IsFault self.old words.now) }
    {
        let (number, rest) = opened(words);
        if is_taken(self.entries.as_slice(), number, rest) {
            return Err(AclFault::Refused(IosReason::DuplicateSequence));
        }
        let line = match sentence(rest, self.extended) {
            Ok(line) => line,
            Err(stop) => {
                let why = line_reason(self.alloc, number, rest, stop)?;
                return Err(AclFault::Refused(why));
            }
        };
        match line {
            Some(entry) => self.add(entry, number),
            None => Ok(()),
        }
    }

    /// Adds an entry under this number, or under the next one.
    fn add(&mut self, entry: Entry, number: Option<u32>) -> Result<(), AclFault>
        requires spelled { (words : Words) × IsEntry self.old.extended false entry words }
        requires some { IfSome number (λ n. 0 < n) }
        requires small { IfSome number (λ n. n ≤ greatest_sequence) }
        requires free { IfSome number (λ n. has_number self.old.entries n ≡ false) }
        ensures added { OnOk result (Adds self.old entry number self.new) }
        ensures unchanged { OnErr result (self.new ≡ self.old) }
        ensures refused { IfErr result (CannotAdd self.old number) }
    {
        let Some(number) = number_of(self.entries.as_slice(), number) else {
            return Err(AclFault::Refused(IosReason::BadNumber));
        };
        if self.entries.len() >= MOST_ENTRIES {
            return Err(AclFault::Refused(IosReason::TooMany));
        }
        let place = place_of(self.entries.as_slice(), number);
        if self
            .entries
            .insert(place, Entry { number, ..entry })
            .is_err()
        {
            return Err(AclFault::NoMemory);
        }
        Ok(())
    }

    /// What the list says of a packet, and the number of the entry that says it; None for the default, which denies.
    pub fn decide(&self, packet: &Packet) -> (Verdict, Option<u32>)
        ensures { result ≡ decision self.now.entries packet.now }
    {
        match first_of(self.entries.as_slice(), packet) {
            Some(entry) => (entry.verdict, Some(entry.number)),
            None => (Verdict::Deny, None),
        }
    }
}

/// The first of the entries that matches.
fn first_of(entries: &[Entry], packet: &Packet) -> Option<Entry>
    ensures { result ≡ first_match entries.now packet.now }
{
    for entry in entries {
        if entry.matches(packet) {
            return Some(*entry);
        }
    }
    None
}
