ghost use Rattle.std.specs.Prelude.{◌≡◌, ◌<◌, [], length, position, option_copied, slice_get, take, OnOk, OnErr, IfSome};
ghost use Rattle.std.specs.List.{IsDistinct};
ghost use Rattle.std.specs.Str.{bytes_eq};
ghost use Rattle.ios_names.specs.Names.{with_name};

use indexmap::IndexMap;
use ios_lex::Word;
use std::alloc::{AllocError, Global};
use std::marker::Model;

/// Names, each once, in the order in which they came. The place of a name, from 0, is its number.
#[derive(Drop)]
pub struct NameIndex {
    alloc: Global,
    /// Each name by its bytes.
    names: IndexMap<Vec<u8>, Word>,
}

impl Model for NameIndex {
    ghost use Rattle.std.specs.Prelude.{◌≡◌, ℕ, List, map};
    ghost use Rattle.indexmap.specs.IndexMap.{keys, values};

    ghost Value = { List (List ℕ) };

    ghost view = { λ t. values t.names };

    ghost invariant = { λ t. map (λ key. key.items) (keys t.names) ≡ values t.names };
}

impl NameIndex {
    /// An index without names. It takes its memory from this allocator.
    pub fn new(alloc: Global) -> NameIndex
        ensures { result ≡ [] }
    {
        NameIndex {
            alloc,
            names: IndexMap::new(alloc),
        }
    }

    /// The place of the name, from 0.
    pub fn place(&self, name: &[u8]) -> Option<usize>
        ensures place { result ≡ position (bytes_eq name.now) self.now }
        ensures within { IfSome result (λ place. place < length self.now) }
    {
        self.names.get_index_of(name)
    }

    /// The name at the place.
    pub fn name(&self, place: usize) -> Option<&Word>
        ensures { option_copied result ≡ slice_get self.now place }
    {
        match self.names.get_index(place) {
            Some((_, name)) => Some(name),
            None => None,
        }
    }

    /// How many names there are.
    pub fn len(&self) -> usize
        ensures len { result ≡ length self.now }
        ensures different { IsDistinct bytes_eq self.now }
    {
        self.names.len()
    }

    /// Adds the name at the end, if it is not there yet.
    pub fn add(&mut self, name: &Word) -> Result<(), AllocError>
        ensures added { OnOk result (self.new ≡ with_name self.old name.now) }
        ensures unchanged { OnErr result (self.new ≡ self.old) }
    {
        if self.names.contains_key(name.bytes()) {
            return Ok(());
        }
        let key = Vec::from_slice(self.alloc, name.bytes())?;
        let word = name.copy(self.alloc)?;
        self.names.insert(key, word)?;
        Ok(())
    }

    /// Keeps so many names, the first ones.
    pub fn truncate(&mut self, len: usize)
        ensures { self.new ≡ take len self.old }
    {
        self.names.truncate(len);
    }
}
