ghost use Rattle.std.specs.Prelude.{◌≡◌, ◌↔◌, ◌++◌, ◌∷◌, [], false, IsTrue, OnOk, OnErr};
ghost use Rattle.ios_nat.specs.Reading.{is_pool_taken, IsPoolTaken};
ghost use Rattle.ios_nat.specs.Table.{pool_named};

use crate::kind::Kind;
use indexmap::IndexMap;
use ios_lex::{Word, next_name};
use std::alloc::{AllocError, Global};
use std::marker::Model;

/// Pools of addresses, each with a name of its own.
#[derive(Drop)]
pub(crate) struct Pools {
    ranges: IndexMap<Vec<u8>, (u32, u32)>,
}

impl Model for Pools {
    ghost use Rattle.std.specs.Prelude.{List, map};
    ghost use Rattle.ios_nat.specs.Table.{Pool};

    ghost Value = { List Pool };

    ghost view = { λ p. map (λ e. (e.0.items, e.1)) p.ranges.entries };
}

impl Pools {
    pub(crate) fn new(alloc: Global) -> Pools
        ensures { result ≡ [] }
    {
        Pools {
            ranges: IndexMap::new(alloc),
        }
    }

    /// The first and the last address of the pool of this name.
    pub(crate) fn get(&self, name: &[u8]) -> Option<(u32, u32)>
        ensures { result ≡ pool_named self.now name.now }
    {
        self.ranges.get(name).copied()
    }

    /// Whether the rest of a pool's line begins with a name that a pool has.
    pub(crate) fn is_taken(&self, rest: &[Word]) -> bool
        ensures { IsTrue result ↔ IsPoolTaken self.now rest.now }
    {
        match next_name(rest, Kind::Pool.unmodelled()) {
            Ok((name, _)) => self.get(name.bytes()).is_some(),
            Err(_) => false,
        }
    }

    /// Adds a pool with a new name behind the others.
    pub(crate) fn add(
        &mut self,
        alloc: Global,
        name: &Word,
        first: u32,
        last: u32,
    ) -> Result<(), AllocError>
        requires { is_pool_taken self.old name.now ≡ false }
        ensures added { OnOk result (self.new ≡ self.old ++ (name.now, (first, last)) ∷ []) }
        ensures unchanged { OnErr result (self.new ≡ self.old) }
    {
        let name = Vec::from_slice(alloc, name.bytes())?;
        self.ranges.insert(name, (first, last))?;
        Ok(())
    }
}
