ghost use Rattle.std.specs.Prelude.{◌≡◌, IfOk};

use std::alloc::{AllocError, Global};
use std::marker::Model;

/// A word of a configuration, or a name: any bytes.
#[derive(Debug, Drop)]
pub struct Word {
    bytes: Vec<u8>,
}

impl Model for Word {
    ghost use Rattle.std.specs.Prelude.{List, ℕ};

    ghost Value = { List ℕ };

    ghost view = { λ w. w.bytes.items };
}

impl Word {
    ghost use Rattle.std.specs.Str.{bytes_eq};

    /// The word of these bytes.
    pub fn of(alloc: Global, bytes: &[u8]) -> Result<Word, AllocError>
        ensures { IfOk result (λ word. word ≡ bytes.now) }
    {
        Ok(Word {
            bytes: Vec::from_slice(alloc, bytes)?,
        })
    }

    pub fn bytes(&self) -> &[u8]
        ensures { result.now ≡ self.now }
    {
        self.bytes.as_slice()
    }

    /// Whether the word is this text.
    pub fn is(&self, text: &str) -> bool
        ensures { result ≡ bytes_eq self.now text.now }
    {
        self.bytes() == text.as_bytes()
    }

    /// The same word once more.
    pub fn copy(&self, alloc: Global) -> Result<Word, AllocError>
        ensures { IfOk result (λ word. word ≡ self.now) }
    {
        Word::of(alloc, self.bytes())
    }
}
