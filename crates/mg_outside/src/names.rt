ghost use Rattle.std.specs.Prelude.{◌≡◌, ◌<◌, ◌^◌, ◌∷◌, ◌++◌, [], length, OnOk, OnErr};

use std::alloc::{AllocError, Global};
use std::marker::Model;

/// A name of a file.
#[derive(Drop)]
struct Name {
    bytes: Vec<u8>,
}

impl Model for Name {
    ghost use Rattle.std.specs.Prelude.{List, ℕ};

    ghost Value = { List ℕ };

    ghost view = { λ n. n.bytes.items };
}

/// Names of files, in the order in which they came.
#[derive(Drop)]
pub(crate) struct Names {
    alloc: Global,
    names: Vec<Name>,
}

impl Model for Names {
    ghost use Rattle.std.specs.Prelude.{List, ℕ};

    ghost Value = { List (List ℕ) };

    ghost view = { λ n. n.names.items };
}

impl Names {
    pub(crate) fn new(alloc: Global) -> Names
        ensures { result ≡ [] }
    {
        Names {
            alloc,
            names: Vec::new(alloc),
        }
    }

    pub(crate) fn len(&self) -> usize
        ensures len { result ≡ length self.now }
        ensures small { result < 2 ^ 63 }
    {
        self.names.len()
    }

    pub(crate) fn push(&mut self, name: &str) -> Result<(), AllocError>
        ensures ok { OnOk result (self.new ≡ self.old ++ name.now ∷ []) }
        ensures err { OnErr result (self.new ≡ self.old) }
    {
        let bytes = Vec::from_slice(self.alloc, name.as_bytes())?;
        self.names.push(Name { bytes })?;
        Ok(())
    }
}
