ghost use Rattle.std.specs.Prelude.{◌≡◌, ◌↔◌, ◌<◌, [], length, not, IsTrue, None, Some, OnOk, OnErr, IfOk, IfErr};
ghost use Rattle.ios_acl.specs.Faults.{IsFault};
ghost use Rattle.ios_lists.specs.Entries.{ReadsEntryAt, FailsAt};
ghost use Rattle.ios_lists.specs.Faults.{IsAclFault};
ghost use Rattle.ios_lists.specs.Heads.{IsHead, OpensBlock, IsBlockRefused};
ghost use Rattle.ios_lists.specs.Holding.{IsBegun};
ghost use Rattle.ios_lists.specs.Lists.{list_named, with_list, kind_named, FitsLists, HaveDifferentNames};
ghost use Rattle.ios_lists.specs.Numbered.{ReadsNumbered, IsNumberedRefused};
ghost use Rattle.ios_lists.specs.Rules.{ReadsInto};

use crate::rules::{check_rule, kind};
use ios_acl::{Acl, AclFault, unmodelled};
use ios_lex::{IosReason, Taken, Word, is_foreign, is_name, is_number_of, kind_of, list_number};
use ios_names::NameIndex;
use std::alloc::{AllocError, Global};
use std::marker::Model;

/// The access lists of a configuration while its lines are taken, in the order in which they were begun.
#[derive(Drop)]
pub struct Lists {
    alloc: Global,
    lists: Vec<Acl>,
    /// The names of the lists, in the same order.
    index: NameIndex,
}

impl Model for Lists {
    ghost use Rattle.std.specs.Prelude.{List};
    ghost use Rattle.ios_acl.specs.List.{AccessList};
    ghost use Rattle.ios_lists.specs.Holding.{HasNames};

    ghost Value = { List AccessList };

    ghost view = { λ l. l.lists.items };

    ghost invariant = { λ l. HasNames l.lists.items l.index };
}

impl Lists {
    /// No lists yet. They take their memory from this allocator.
    pub fn new(alloc: Global) -> Lists
        ensures { result ≡ [] }
    {
        Lists {
            alloc,
            lists: Vec::new(alloc),
            index: NameIndex::new(alloc),
        }
    }

    /// The lists, in the order in which they were begun.
    pub fn finish(self) -> Vec<Acl>
        ensures lists { result.items ≡ self }
        ensures names { HaveDifferentNames result.items }
    {
        self.lists
    }

    /// Takes a line of a numbered list, by the words behind `access-list`.
    pub fn take_numbered(&mut self, words: &[Word]) -> Result<Taken, AclFault>
        ensures read { IfOk result (ReadsNumbered self.old words.now self.new) }
        ensures unchanged { OnErr result (self.new ≡ self.old) }
        ensures refused { IfErr result (IsAclFault (IsNumberedRefused self.old words.now)) }
    {
        let Some((name, rule)) = words.split_first() else {
            return Err(AclFault::Refused(IosReason::BadEntry));
        };
        let Some(n) = list_number(name.bytes()) else {
            return Err(AclFault::Refused(IosReason::BadNumber));
        };
        let Some(extended) = kind_of(n) else {
            if is_foreign(n) {
                return Ok(Taken::Ignored);
            }
            return Err(AclFault::Refused(IosReason::WrongKind));
        };
        if self.is_other_kind(name, extended) {
            return Err(AclFault::Refused(IosReason::WrongKind));
        }
        if let Err(fault) = check_rule(self.alloc, rule) {
            return Err(fault);
        }
        match self.add_rule(name, extended, rule) {
            Ok(()) => Ok(Taken::Modelled),
            Err(fault) => Err(fault),
        }
    }

    /// Opens the block of a list, by the words behind `ip access-list`, and gives the place of the list.
    pub fn open(&mut self, words: &[Word]) -> Result<usize, AclFault>
        ensures opened { IfOk result (OpensBlock self.old words.now self.new) }
        ensures unchanged { OnErr result (self.new ≡ self.old) }
        ensures refused { IfErr result (IsAclFault (IsBlockRefused self.old words.now)) }
    {
        let (name, extended) = self.head(words)?;
        match self.begin(name, extended) {
            Ok(place) => Ok(place),
            Err(_) => Err(AclFault::NoMemory),
        }
    }

    /// Takes a line of the block of the list at this place.
    pub fn take_entry(&mut self, place: usize, words: &[Word]) -> Result<(), AclFault>
        requires { place < length self.old }
        ensures read { OnOk result (ReadsEntryAt self.old place words.now self.new) }
        ensures unchanged { OnErr result (self.new ≡ self.old) }
        ensures refused { IfErr result (FailsAt self.old place words.now) }
    {
        self.lists[place].read_line(words)
    }

    /// The name of the list whose block the words open, and whether it is extended.
    fn head<'a>(&self, words: &'a [Word]) -> Result<(&'a Word, bool), AclFault>
        ensures found { IfOk result (λ head. IsHead self.now words.now head.0.now head.1) }
        ensures refused { IfErr result (IsAclFault (IsBlockRefused self.now words.now)) }
    {
        let Some((first, rest)) = words.split_first() else {
            return Err(AclFault::Refused(IosReason::BadEntry));
        };
        let Some(extended) = kind(first) else {
            return Err(unmodelled(self.alloc, first));
        };
        let Some((name, more)) = rest.split_first() else {
            return Err(AclFault::Refused(IosReason::BadEntry));
        };
        if is_number_of(name.bytes(), !extended) {
            return Err(AclFault::Refused(IosReason::WrongKind));
        }
        if self.is_other_kind(name, extended) {
            return Err(AclFault::Refused(IosReason::WrongKind));
        }
        if !more.is_empty() {
            return Err(AclFault::Refused(IosReason::BadEntry));
        }
        if is_name(name.bytes()) {
            Ok((name, extended))
        } else {
            Err(AclFault::Refused(IosReason::BadEntry))
        }
    }

    /// Whether the list of this name is of the other kind.
    fn is_other_kind(&self, name: &Word, extended: bool) -> bool
        ensures { IsTrue result ↔ (kind_named self.now name.now ≡ Some (not extended)) }
    {
        match self.index.place(name.bytes()) {
            Some(place) => self.lists[place].is_extended() != extended,
            None => false,
        }
    }

    /// The place of the list of this name, which is begun as one of this kind where there is none.
    fn begin(&mut self, name: &Word, extended: bool) -> Result<usize, AllocError>
        ensures begun { IfOk result (IsBegun self.old name.now extended self.new) }
        ensures unchanged { OnErr result (self.new ≡ self.old) }
    {
        if let Some(place) = self.index.place(name.bytes()) {
            return Ok(place);
        }
        let place = self.lists.len();
        let list = Acl::new(self.alloc, name.copy(self.alloc)?, extended);
        self.push(list)?;
        Ok(place)
    }

    /// Reads the words into the list of this name, which is begun as one of this kind where there is none.
    fn add_rule(&mut self, name: &Word, extended: bool, rule: &[Word]) -> Result<(), AclFault>
        requires { FitsLists self.old name.now extended }
        ensures read { OnOk result (ReadsInto self.old name.now extended rule.now self.new) }
        ensures unchanged { OnErr result (self.new ≡ self.old) }
        ensures refused { IfErr result (IsFault (list_named self.old name.now extended) rule.now) }
    {
        if let Some(place) = self.index.place(name.bytes()) {
            return self.take_entry(place, rule);
        }
        self.add_first(name, extended, rule)
    }

    /// Begins a list with this rule.
    fn add_first(&mut self, name: &Word, extended: bool, rule: &[Word]) -> Result<(), AclFault>
        requires { kind_named self.old name.now ≡ None }
        ensures read { OnOk result (ReadsInto self.old name.now extended rule.now self.new) }
        ensures unchanged { OnErr result (self.new ≡ self.old) }
        ensures refused { IfErr result (IsFault (list_named self.old name.now extended) rule.now) }
    {
        let Ok(name) = name.copy(self.alloc) else {
            return Err(AclFault::NoMemory);
        };
        let mut list = Acl::new(self.alloc, name, extended);
        if let Err(fault) = list.read_line(rule) {
            return Err(fault);
        }
        match self.push(list) {
            Ok(()) => Ok(()),
            Err(_) => Err(AclFault::NoMemory),
        }
    }

    /// Puts a list of a new name behind the others.
    fn push(&mut self, list: Acl) -> Result<(), AllocError>
        requires { kind_named self.old list.name ≡ None }
        ensures pushed { OnOk result (self.new ≡ with_list self.old list) }
        ensures unchanged { OnErr result (self.new ≡ self.old) }
    {
        let place = self.lists.len();
        self.index.add(list.name())?;
        if let Err(fault) = self.lists.push(list) {
            self.index.truncate(place);
            return Err(AllocError::from(fault));
        }
        Ok(())
    }
}
