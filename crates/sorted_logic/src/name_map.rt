//! What names stand for.

ghost use Rattle.std.specs.Prelude.{◌≡◌, ◌++◌, ◌∷◌, [], ◌+◌, ◌<◌, ◌^◌, length, take, IfOk, IfErr, OnOk, OnErr, None, false};
ghost use Rattle.std.specs.List.{list_any};
ghost use Rattle.std.specs.Str.{bytes_eq};
ghost use Rattle.sorted_logic.specs.Adding.{IsReason};
ghost use Rattle.sorted_logic.specs.Field.{field_names};
ghost use Rattle.sorted_logic.specs.Inside.Kept.{meaning, is_known, any_known, meant_sorts};

use crate::declarations::{SortDecl, Symbol};
use crate::fault::SigFault;
use crate::request::is_field_name;
use crate::term::Sort;
use crate::text::Text;
use indexmap::IndexMap;
use std::alloc::{AllocError, Global};
use std::marker::Model;

/// What names stand for.
#[derive(Drop)]
pub(crate) struct NameMap {
    alloc: Global,
    symbols: IndexMap<Vec<u8>, Symbol>,
}

impl Model for NameMap {
    ghost use Rattle.std.specs.Prelude.{List, ℕ, map};
    ghost use Rattle.sorted_logic.specs.Inside.Kept.{Meant};

    ghost Value = { List Meant };

    ghost view = { λ m. map (λ entry. record { name = entry.0.items; symbol = entry.1 }) m.symbols.entries };
}

impl NameMap {
    pub(crate) fn new(alloc: Global) -> NameMap
        ensures { result ≡ [] }
    {
        NameMap {
            alloc,
            symbols: IndexMap::new(alloc),
        }
    }

    pub(crate) fn len(&self) -> usize
        ensures { result ≡ length self.now }
    {
        self.symbols.len()
    }

    /// What the name stands for.
    pub(crate) fn find(&self, name: &[u8]) -> Option<Symbol>
        ensures { result ≡ meaning self.now name.now }
    {
        self.symbols.get(name).copied()
    }

    /// Adds a name that is not there yet and is not that of a field of requests.
    pub(crate) fn add(&mut self, name: &Text, symbol: Symbol) -> Result<(), SigFault>
        ensures added { OnOk result (self.new ≡ self.old ++ (record { name = name.now; symbol = symbol }) ∷ []) }
        ensures new { OnOk result (is_known self.old name.now ≡ false) }
        ensures reason { IfErr result (IsReason (is_known self.old name.now) false) }
        ensures unchanged { OnErr result (self.new ≡ self.old) }
    {
        if self.find(name.bytes()).is_some() || is_field_name(name.bytes()) {
            return Err(SigFault::Duplicate);
        }
        self.put(name.bytes(), symbol)?;
        Ok(())
    }

    /// Adds a name that is not there yet.
    fn put(&mut self, name: &[u8], symbol: Symbol) -> Result<(), AllocError>
        requires { meaning self.old name.now ≡ None }
        ensures added { OnOk result (self.new ≡ self.old ++ (record { name = name.now; symbol = symbol }) ∷ []) }
        ensures unchanged { OnErr result (self.new ≡ self.old) }
    {
        let key = Vec::from_slice(self.alloc, name)?;
        self.symbols.insert(key, symbol)?;
        Ok(())
    }

    /// The same names once more.
    pub(crate) fn copy(&self) -> Result<NameMap, AllocError>
        ensures { IfOk result (λ copy. copy ≡ self.now) }
    {
        let mut copy = NameMap::new(self.alloc);
        for place in 0..self.symbols.len() {
            if let Some((name, symbol)) = self.symbols.get_index(place) {
                copy.put(name.as_slice(), *symbol)?;
            }
        }
        Ok(copy)
    }

    /// Keeps so many names, the first ones.
    pub(crate) fn truncate(&mut self, len: usize)
        ensures { self.new ≡ take len self.old }
    {
        self.symbols.truncate(len);
    }

    /// Adds the names of sorts that stand one behind the other from the first place on, all or none.
    pub(crate) fn add_sorts(&mut self, first: u64, decls: &[SortDecl]) -> Result<(), SigFault>
        requires { first + length decls.now < 2 ^ 64 }
        ensures added { OnOk result (self.new ≡ self.old ++ meant_sorts first decls.now) }
        ensures new { OnOk result (any_known self.old first decls.now ≡ false) }
        ensures reason { IfErr result (IsReason (any_known self.old first decls.now) false) }
        ensures unchanged { OnErr result (self.new ≡ self.old) }
    {
        let before = self.len();
        let mut place = first;
        for decl in decls {
            if let Err(fault) = self.add(&decl.name, Symbol::Sort(Sort(place))) {
                self.truncate(before);
                return Err(fault);
            }
            place += 1;
        }
        Ok(())
    }
}
