ghost use Rattle.std.specs.Prelude.{◌≡◌, ◌≤◌, [], length, position, option_copied, slice_get, OnOk, OnErr};
ghost use Rattle.std.specs.List.{IsDistinct};
ghost use Rattle.std.specs.Str.{bytes_eq};
ghost use Rattle.ios_names.specs.Names.{most_names, with_names};

use crate::name_index::NameIndex;
use ios_lex::Word;
use std::alloc::{AllocError, Global};
use std::marker::Model;

/// The names of interfaces, each once, in the order in which they came. The place of a name, from 0, is its number.
#[derive(Drop)]
pub struct NameTable {
    names: NameIndex,
}

impl Model for NameTable {
    ghost use Rattle.std.specs.Prelude.{◌≤◌, ℕ, List, length};
    ghost use Rattle.ios_names.specs.Names.{most_names};

    ghost Value = { List (List ℕ) };

    ghost view = { λ t. t.names };

    ghost invariant = { λ t. length t.names ≤ most_names };
}

impl NameTable {
    /// A table without names. It takes its memory from this allocator.
    pub fn new(alloc: Global) -> NameTable
        ensures { result ≡ [] }
    {
        NameTable {
            names: NameIndex::new(alloc),
        }
    }

    /// The place of the name, from 0.
    pub fn place(&self, name: &[u8]) -> Option<u16>
        ensures { result ≡ position (bytes_eq name.now) self.now }
    {
        match self.names.place(name) {
            Some(place) => Some(place as u16),
            None => None,
        }
    }

    /// The name at the place.
    pub fn name(&self, place: u16) -> Option<&Word>
        ensures { option_copied result ≡ slice_get self.now place }
    {
        self.names.name(usize::from(place))
    }

    /// How many names there are, at most 65,536.
    pub fn len(&self) -> u64
        ensures len { result ≡ length self.now }
        ensures few { result ≤ most_names }
        ensures different { IsDistinct bytes_eq self.now }
    {
        self.names.len() as u64
    }

    /// Adds each of the names that is not there yet at the end, in order.
    pub fn add_all(&mut self, names: &[Word]) -> Result<(), AllocError>
        requires { length (with_names self.old names.now) ≤ most_names }
        ensures added { OnOk result (self.new ≡ with_names self.old names.now) }
        ensures unchanged { OnErr result (self.new ≡ self.old) }
    {
        let before = self.names.len();
        for name in names {
            if let Err(fault) = self.names.add(name) {
                self.names.truncate(before);
                return Err(fault);
            }
        }
        Ok(())
    }
}
