//! A folder and an output that tell their bytes, and give or take one at a time.
ghost use Rattle.std.specs.Prelude.{◌≡◌, ◌∷◌, ◌++◌, [], OnOk, OnErr};

use mg_outside::{Failed, Folder, OpenFault, Output};
use std::alloc::{AllocError, Global};
use std::marker::Model;

/// A name that was to be opened.
#[derive(Drop)]
struct Name {
    bytes: Vec<u8>,
}

impl Model for Name {
    ghost use Rattle.std.specs.Prelude.{List, ℕ};

    ghost Value = { List ℕ };

    ghost view = { λ n. n.bytes.items };
}

/// Puts the name behind the others.
fn push_name(alloc: Global, names: &mut Vec<Name>, name: &str) -> Result<(), AllocError>
    ensures ok { OnOk result (names.new.items ≡ names.old.items ++ name.now ∷ []) }
    ensures err { OnErr result (names.new.items ≡ names.old.items) }
{
    let bytes = Vec::from_slice(alloc, name.as_bytes())?;
    names.push(Name { bytes })?;
    Ok(())
}

/// A folder that has the same bytes under each name. The read of the byte behind which `last` are left fails.
#[derive(Drop)]
pub(crate) struct SlowFolder<'a> {
    alloc: Global,
    bytes: &'a [u8],
    last: usize,
    names: Vec<Name>,
    given: u64,
    faults: u64,
}

impl<'a> SlowFolder<'a> {
    pub(crate) fn new(alloc: Global, bytes: &'a [u8], last: usize) -> SlowFolder<'a> {
        SlowFolder {
            alloc,
            bytes,
            last,
            names: Vec::new(alloc),
            given: 0,
            faults: 0,
        }
    }
}

impl<'a> Folder for SlowFolder<'a> {
    type Opened = &'a [u8];

    ghost use Rattle.std.specs.Prelude.{Some};

    ghost holds = { λ f _. Some f.bytes.now };

    ghost left = { λ rest. Some rest.now };

    ghost log = { λ f. record { names = f.names.items; given = f.given; faults = f.faults } };

    fn open(&mut self, name: &str) -> Result<&'a [u8], OpenFault> {
        match push_name(self.alloc, &mut self.names, name) {
            Ok(()) => Ok(self.bytes),
            Err(_) => Err(OpenFault::NoMemory),
        }
    }

    fn read_some(&mut self, opened: &mut &'a [u8], piece: &mut [u8]) -> Result<usize, Failed> {
        let rest = *opened;
        if rest.is_empty() || piece.is_empty() {
            return Ok(0);
        }
        if rest.len() == self.last {
            self.faults = self.faults.saturating_add(1);
            return Err(Failed);
        }
        self.given = self.given.saturating_add(1);
        piece[0] = rest[0];
        *opened = &rest[1..];
        Ok(1)
    }
}

/// An output that fails once it has taken `most` bytes.
#[derive(Drop)]
pub(crate) struct SlowOutput {
    bytes: Vec<u8>,
    most: usize,
    faults: u64,
}

impl SlowOutput {
    pub(crate) fn new(alloc: Global, most: usize) -> SlowOutput {
        SlowOutput {
            bytes: Vec::new(alloc),
            most,
            faults: 0,
        }
    }
}

impl Output for SlowOutput {
    ghost use Rattle.std.specs.Prelude.{Some};

    ghost taken = { λ o. Some o.bytes.items };

    ghost faults = { λ o. o.faults };

    fn write_some(&mut self, bytes: &[u8]) -> Result<usize, Failed> {
        if self.bytes.len() < self.most && self.bytes.push(bytes[0]).is_ok() {
            return Ok(1);
        }
        self.faults = self.faults.saturating_add(1);
        Err(Failed)
    }
}
