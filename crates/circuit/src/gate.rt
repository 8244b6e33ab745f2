ghost use Rattle.std.specs.Prelude.{◌≡◌, ◌==◌};
ghost use Rattle.std.proofs.Common.{rules};
ghost use Rattle.std.specs.Cmp.Lexicographic.{pointwise};
ghost use Rattle.std.specs.Cmp.Rules.{comparing, hashing};
ghost use Rattle.std.specs.Hash as fed;

use std::hash::{Hash, Hasher};
use std::marker::Model;

/// A node of a circuit: the place of its gate.
#[derive(Clone, Copy, Debug, PartialEq, Eq, Hash)]
pub struct Node {
    place: usize,
}

impl Model for Node {
    ghost use Rattle.std.specs.Prelude.{ℕ};

    ghost Value = { ℕ };

    ghost view = { λ n. n.place };

    ghost inverse = { λ n. record { place = n } };
}

impl Node {
    pub(crate) fn at(place: usize) -> Node
        ensures { result ≡ place }
    {
        Node { place }
    }

    pub(crate) fn place(self) -> usize
        ensures { result ≡ self }
    {
        self.place
    }
}

/// The nodes that a gate is made of.
#[derive(Debug, Drop)]
pub struct Parts {
    nodes: Vec<Node>,
}

impl Model for Parts {
    ghost use Rattle.std.specs.Prelude.{List, ℕ};

    ghost Value = { List ℕ };

    ghost view = { λ p. p.nodes.items };
}

impl Parts {
    pub(crate) fn new(nodes: Vec<Node>) -> Parts
        ensures { result ≡ nodes.items }
    {
        Parts { nodes }
    }

    pub(crate) fn nodes(&self) -> &[Node]
        ensures { result.now ≡ self.now }
    {
        self.nodes.as_slice()
    }
}

impl PartialEq for Parts {
    ghost eq = { pointwise ◌==◌ };

    ghost laws = { Prim.search (comparing, rules) };

    fn eq(&self, other: &Parts) -> bool {
        self.nodes() == other.nodes()
    }
}

impl Eq for Parts {
    ghost laws = { Prim.search (comparing, rules) };
}

impl Hash for Parts {
    ghost hash_input = { fed.slice fed.usize };

    ghost respects_eq = { Prim.search (hashing, rules) };

    fn hash<H: Hasher>(&self, state: &mut H) {
        self.nodes().hash(state);
    }
}

/// How a node is made.
#[derive(Debug, Drop, PartialEq, Eq, Hash)]
pub enum Gate {
    /// The input of this number, counted from 0.
    Input(usize),
    /// True where all of these are; true where there are none.
    And(Parts),
    /// True where one of these is; false where there are none.
    Or(Parts),
    Not(Node),
    /// If then else: worth the second node where the first is true, and the third where it is false.
    Ite(Node, Node, Node),
}
