ghost use Rattle.std.specs.Prelude.{◌≡◌, ◌<◌, ◌≤◌, ◌+◌, length, replicate, [], IfOk, OnOk};
ghost use Rattle.decision_diagram.specs.Guarded.{edges_into, with_edge};

use crate::NoMemory;
use crate::node::Diagram;
use circuit::Node;
use std::alloc::Global;
use std::marker::Model;

/// The edges into each branch, the branches counted from the first one behind the two leaves.
#[derive(Drop)]
pub(crate) struct EdgesInto {
    branches: Vec<Vec<Node>>,
}

impl Model for EdgesInto {
    ghost use Rattle.std.specs.Prelude.{ℕ, List, map};

    ghost Value = { List (List ℕ) };

    ghost view = { λ e. map (λ edges. edges.items) e.branches.items };
}

impl EdgesInto {
    /// So many branches, and no edge into any.
    pub(crate) fn new(alloc: Global, count: usize) -> Result<EdgesInto, NoMemory>
        ensures { IfOk result (λ edges. edges ≡ replicate count []) }
    {
        let mut branches = Vec::new(alloc);
        for _ in 0..count {
            branches.push(Vec::new(alloc))?;
        }
        Ok(EdgesInto { branches })
    }

    /// Those into the branch at a place.
    pub(crate) fn at(&self, place: Diagram) -> &[Node]
        requires branch { 2 ≤ place }
        requires within { place < length self.now + 2 }
        ensures { result.now ≡ edges_into self.now place }
    {
        self.branches[place.place() - 2].as_slice()
    }

    /// One more, unless it ends in a leaf.
    pub(crate) fn add(&mut self, end: Diagram, edge: Node) -> Result<(), NoMemory>
        requires { end < length self.old + 2 }
        ensures { OnOk result (self.new ≡ with_edge self.old end edge) }
    {
        let place = end.place();
        if place >= 2 {
            self.branches[place - 2].push(edge)?;
        }
        Ok(())
    }
}
