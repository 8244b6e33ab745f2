ghost use Rattle.std.specs.Prelude.{◌≡◌, take, option_copied, slice_get};

use ios_lex::Word;
use ios_names::NameTable;
use std::marker::Model;

/// The first names of a table: those that were known when a question was asked.
#[derive(Drop)]
pub struct KnownNames<'a> {
    table: &'a NameTable,
    len: u64,
}

impl<'a> Model for KnownNames<'a> {
    ghost use Rattle.std.specs.Prelude.{ℕ, List, take};

    ghost Value = { List (List ℕ) };

    ghost view = { λ k. take k.len k.table.now };
}

impl<'a> KnownNames<'a> {
    /// So many names of the table, the first ones.
    pub fn of(table: &'a NameTable, len: u64) -> KnownNames<'a>
        ensures { result ≡ take len table.now }
    {
        KnownNames { table, len }
    }

    /// The name at the place.
    pub fn name(&self, place: u16) -> Option<&Word>
        ensures { option_copied result ≡ slice_get self.now place }
    {
        if u64::from(place) < self.len {
            self.table.name(place)
        } else {
            None
        }
    }
}
