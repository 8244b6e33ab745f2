ghost use Rattle.std.specs.Prelude.{◌≡◌, []};

use crate::failed::{Failed, counted};
use crate::folder::{Folder, OpenFault};
use crate::names::Names;
use std::alloc::Global;
use std::fs;
use std::io::Read;
use std::marker::Model;

/// The real file system. It tells no bytes of a name: that the call which opens a file opens that of the name, and
/// fails only where the system does, no contract says. What is read of an opened file is told where the system tells it.
#[derive(Drop)]
pub struct Disk<'a, R> {
    rt: &'a R,
    names: Names,
    given: u64,
    faults: u64,
}

impl<'a, R> Model for Disk<'a, R> {
    ghost use Rattle.mg_outside.specs.Logs.{FolderLog};

    ghost Value = { FolderLog };

    ghost view = { λ d. record { names = d.names; given = d.given; faults = d.faults } };
}

impl<'a, R: std::rt::Files> Disk<'a, R> {
    pub(crate) fn new(alloc: Global, rt: &'a R) -> Disk<'a, R>
        ensures { result ≡ record { names = []; given = 0; faults = 0 } }
    {
        Disk {
            rt,
            names: Names::new(alloc),
            given: 0,
            faults: 0,
        }
    }
}

impl<R: std::rt::Files> Folder for Disk<'_, R> {
    type Opened = R::File;

    ghost use Rattle.std.specs.Prelude.{None};

    ghost holds = { λ _ _. None };

    ghost left = { λ file. R.File.remaining file };

    ghost log = { λ d. d };

    fn open(&mut self, name: &str) -> Result<R::File, OpenFault> {
        if self.names.push(name).is_err() {
            return Err(OpenFault::NoMemory);
        }
        match counted(fs::open(self.rt, name), &mut self.faults) {
            Ok(file) => Ok(file),
            Err(Failed) => Err(OpenFault::Failed),
        }
    }

    fn read_some(&mut self, opened: &mut R::File, piece: &mut [u8]) -> Result<usize, Failed> {
        let count = counted(opened.read(piece), &mut self.faults)?;
        self.given = self.given.saturating_add(count as u64);
        Ok(count)
    }
}
