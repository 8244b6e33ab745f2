ghost use Rattle.std.specs.Prelude.{◌≡◌};

use std::marker::Model;

/// A diagram of a table: the place of its first node.
#[derive(Clone, Copy, Debug, PartialEq, Eq, Hash)]
pub struct Diagram {
    place: u32,
}

impl Model for Diagram {
    ghost use Rattle.std.specs.Prelude.{ℕ};

    ghost Value = { ℕ };

    ghost view = { λ d. d.place };

    ghost inverse = { λ n. record { place = n } };
}

impl Diagram {
    pub(crate) fn at(place: u32) -> Diagram
        ensures { result ≡ place }
    {
        Diagram { place }
    }

    pub(crate) fn place(self) -> usize
        ensures { result ≡ self }
    {
        self.place as usize
    }
}

/// One node of a table.
#[derive(Clone, Copy, Debug, PartialEq, Eq, Hash)]
pub enum Node {
    /// The same value for all bits.
    Leaf(bool),
    /// The bit that is looked at, and what follows where it is false and where it is true.
    Branch(u32, Diagram, Diagram),
}
