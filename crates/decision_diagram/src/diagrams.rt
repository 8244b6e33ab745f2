ghost use Rattle.std.specs.Prelude.{◌≡◌, ◌↔◌, ◌<◌, ◌≤◌, ◌+◌, ℕ, Bool, true, false, List, length, slice_get, Some, IfOk, OnErr, IsTrue, Err, MatchOption, if◌then◌else◌};
ghost use Rattle.circuit.specs.Value.{value_at};
ghost use Rattle.decision_diagram.specs.declared.fault.DiagramFault.TheVariants as fault;
ghost use Rattle.decision_diagram.specs.declared.node.Node.TheVariants as node;
ghost use Rattle.decision_diagram.specs.Tree.{branch, leaf, SameValue};
ghost use Rattle.decision_diagram.specs.Table.{AreEndsBefore, Extends, HasValue, IsFoundOrAdded, IsOf, IsTable, LooksFrom, diagram, node_tree, table_of, trees, two_leaves, value_in};
ghost use Rattle.decision_diagram.specs.Listing.{size};

use crate::NoMemory;
use crate::fault::DiagramFault;
use crate::node::{Diagram, Node};
use indexmap::IndexSet;
use std::alloc::Global;
use std::marker::Model;

/// No table has more nodes.
pub const MOST_NODES: usize = 33_554_432;

/// A table of ordered and reduced decision diagrams, each once. Its diagrams stay as they are when more are made.
#[derive(Drop)]
pub struct Diagrams {
    alloc: Global,
    bits: u32,
    /// The place of a node is its diagram.
    nodes: IndexSet<Node>,
}

impl Model for Diagrams {
    ghost use Rattle.std.specs.Prelude.{length, ◌≤◌};
    ghost use Rattle.decision_diagram.specs.Table.{Table, IsTable, table_of};

    ghost Value = { Table };

    ghost view = { λ d. table_of d.bits d.nodes.keys };

    ghost invariant = { λ d. IsTable (table_of d.bits d.nodes.keys) × (length d.nodes.keys ≤ 33554432) };
}

impl Diagrams {
    /// A table with the two leaves alone, for diagrams over this many bits, which are numbered from 0.
    pub fn new(alloc: Global, bits: u32) -> Result<Diagrams, NoMemory>
        ensures { IfOk result (λ table. table ≡ table_of bits two_leaves) }
    {
        let mut nodes = IndexSet::new(alloc);
        nodes.insert(Node::Leaf(false))?;
        nodes.insert(Node::Leaf(true))?;
        Ok(Diagrams { alloc, bits, nodes })
    }

    /// Over how many bits the diagrams are.
    pub fn bits(&self) -> u32
        ensures bits { result ≡ self.now.bits }
        ensures table { IsTable self.now }
    {
        self.bits
    }

    /// How many nodes were made, those that no diagram needs any more among them. No diagram of the table has more.
    pub fn node_count(&self) -> usize
        ensures count { result ≡ length self.now.nodes }
        ensures most { result ≤ MOST_NODES }
        ensures sizes { (d : ℕ) → IsOf self.now d → size (diagram self.now d) ≤ result }
        ensures table { IsTable self.now }
    {
        self.nodes.len()
    }

    /// The diagram that has this value for all bits.
    pub fn leaf(&self, constant: bool) -> Diagram
        ensures place { result ≡ (if constant then 1 else 0) }
        ensures within { IsOf self.now result }
        ensures leaf { diagram self.now result ≡ leaf constant }
    {
        prove!(self.nodes.len() >= 2, "the two leaves are there");
        if constant {
            Diagram::at(1)
        } else {
            Diagram::at(0)
        }
    }

    /// The diagram that looks at a bit and goes on with one of these two, which look at later bits: that one where both
    /// are the same.
    #[tactic(auto, using(crate::proofs::Placing::branch_rules))]
    pub fn branch(&mut self, bit: u32, low: Diagram, high: Diagram) -> Result<Diagram, DiagramFault>
        requires bit { bit < self.old.bits }
        requires low { IsOf self.old low }
        requires high { IsOf self.old high }
        requires low_later { LooksFrom self.old (bit + 1) low }
        requires high_later { LooksFrom self.old (bit + 1) high }
        ensures value { IfOk result (HasValue self.new (λ bits.
            if value_at bits bit then value_in self.old high bits else value_in self.old low bits)) }
        ensures from { IfOk result (LooksFrom self.new bit) }
        ensures few { length self.new.nodes ≤ length self.old.nodes + 1 }
        ensures older { Extends self.old self.new }
        ensures full { result ≡ Err fault.TooManyNodes → length self.new.nodes ≡ MOST_NODES }
        ensures err { OnErr result (self.new ≡ self.old) }
    {
        if low == high {
            return Ok(low);
        }
        self.place_of(bit, low, high)
    }

    /// Whether two diagrams have the same value for all bits.
    pub fn same(&self, a: Diagram, b: Diagram) -> bool
        requires a { IsOf self.now a }
        requires b { IsOf self.now b }
        ensures { IsTrue result ↔ SameValue self.now.bits (diagram self.now a) (diagram self.now b) }
    {
        prove!(a.place() < self.nodes.len(), "a diagram of this table");
        a == b
    }

    /// The node at a place.
    pub(crate) fn node(&self, place: Diagram) -> Node
        requires { IsOf self.now place }
        ensures node { slice_get self.now.nodes place ≡ Some result }
        ensures ends { AreEndsBefore place result }
        ensures built { diagram self.now place ≡ node_tree (trees self.now.nodes) result }
        ensures table { IsTable self.now }
    {
        self.nodes.as_slice()[place.place()]
    }

    pub(crate) fn alloc(&self) -> Global {
        self.alloc
    }

    /// The place of a branch with different ends: the one that is there, or one more.
    pub(crate) fn place_of(
        &mut self,
        bit: u32,
        low: Diagram,
        high: Diagram,
    ) -> Result<Diagram, DiagramFault>
        requires bit { bit < self.old.bits }
        requires low { IsOf self.old low }
        requires high { IsOf self.old high }
        requires different { low ≡ high → ⊥ }
        requires low_later { LooksFrom self.old (bit + 1) low }
        requires high_later { LooksFrom self.old (bit + 1) high }
        ensures within { IfOk result (IsOf self.new) }
        ensures from { IfOk result (LooksFrom self.new bit) }
        ensures tree { IfOk result (λ d.
            diagram self.new d ≡ branch bit (diagram self.old low) (diagram self.old high)) }
        ensures nodes { IfOk result (λ d. IsFoundOrAdded self.old self.new
            (node.Branch bit low high) d) }
        ensures older { Extends self.old self.new }
        ensures full { result ≡ Err fault.TooManyNodes → length self.new.nodes ≡ MOST_NODES }
        ensures absent { result ≡ Err fault.TooManyNodes
            → (d : ℕ) → slice_get self.old.nodes d ≡ Some (node.Branch bit low high) → ⊥ }
        ensures err { OnErr result (self.new ≡ self.old) }
    {
        let node = Node::Branch(bit, low, high);
        if self.nodes.len() >= MOST_NODES {
            return self.found(&node).ok_or(DiagramFault::TooManyNodes);
        }
        let (place, _) = self.nodes.insert_full(node)?;
        Ok(Diagram::at(place as u32))
    }

    /// The diagram of a node that is there.
    fn found(&self, node: &Node) -> Option<Diagram>
        ensures { MatchOption result ((d : ℕ) → slice_get self.now.nodes d ≡ Some node.now → ⊥)
            (λ d. slice_get self.now.nodes d ≡ Some node.now) }
    {
        let place = self.nodes.get_index_of(node)?;
        Some(Diagram::at(place as u32))
    }
}
