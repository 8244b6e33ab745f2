ghost use Rattle.std.specs.Prelude.{◌≡◌, ◌<◌, ◌≤◌, ◌+◌, length, OnOk, IfOk};
ghost use Rattle.decision_diagram.specs.declared.diagrams.TheConstants.{MOST_NODES};
ghost use Rattle.decision_diagram.specs.declared.node.Node.TheVariants as node;
ghost use Rattle.decision_diagram.specs.Tree.{branch};
ghost use Rattle.decision_diagram.specs.Table.{Extends, IsFoundOrAdded, IsOf, IsTable, LooksFrom, diagram, table_of, trees};
ghost use Rattle.decision_diagram.specs.Listing.{listing, root_of, with_parts};
ghost use Rattle.decision_diagram.specs.Inside.Copying.{AreCopies};

use crate::NoMemory;
use crate::diagrams::Diagrams;
use crate::fault::DiagramFault;
use crate::node::{Diagram, Node};
use std::alloc::Global;

impl Diagrams {
    /// A table of the diagram's own nodes and the leaves alone, and the diagram in it. Its nodes and their order are a
    /// function of the diagram's values: each one once, behind what follows where its bit is false, and then behind what
    /// follows where it is true.
    pub fn alone(&self, alloc: Global, root: Diagram) -> Result<(Diagrams, Diagram), NoMemory>
        requires { IsOf self.now root }
        ensures nodes { IfOk result (λ alone.
            alone.0 ≡ table_of self.now.bits (listing (diagram self.now root))) }
        ensures place { IfOk result (λ alone. alone.1 ≡ root_of (diagram self.now root)) }
        ensures within { IfOk result (λ alone. IsOf alone.0 alone.1) }
        ensures same { IfOk result (λ alone.
            diagram alone.0 alone.1 ≡ diagram self.now root) }
        ensures table { IfOk result (λ alone. IsTable alone.0) }
    {
        let mut fresh = Diagrams::new(alloc, self.bits())?;
        let mut copies = vec![in alloc; None; self.node_count()]?;
        let copy = self.copy_into(&mut fresh, &mut copies, root)?;
        Ok((fresh, copy))
    }

    /// The copy of a diagram in a fresh table: the one that was made before, or a new one behind copies of its ends. It
    /// calls itself no deeper than there are bits, since the ends look at later ones.
    fn copy_into(
        &self,
        fresh: &mut Diagrams,
        copies: &mut Vec<Option<Diagram>>,
        root: Diagram,
    ) -> Result<Diagram, NoMemory>
        requires root { IsOf self.now root }
        requires copies { AreCopies self.now fresh.old copies.old.items }
        requires room { length (with_parts (trees fresh.old.nodes) (diagram self.now root))
            ≤ MOST_NODES }
        ensures trees { OnOk result (trees fresh.new.nodes
            ≡ with_parts (trees fresh.old.nodes) (diagram self.now root)) }
        ensures within { IfOk result (IsOf fresh.new) }
        ensures same { IfOk result (λ copy. diagram fresh.new copy ≡ diagram self.now root) }
        ensures older { OnOk result (Extends fresh.old fresh.new) }
        ensures copies { OnOk result (AreCopies self.now fresh.new copies.new.items) }
    {
        match self.node(root) {
            Node::Leaf(constant) => Ok(fresh.leaf(constant)),
            Node::Branch(bit, low, high) => {
                if let Some(copy) = copies[root.place()] {
                    return Ok(copy);
                }
                let low_copy = self.copy_into(fresh, copies, low)?;
                let high_copy = self.copy_into(fresh, copies, high)?;
                let copy = place_in_room(fresh, bit, low_copy, high_copy)?;
                copies[root.place()] = Some(copy);
                Ok(copy)
            }
        }
    }
}

/// The place of a branch in a table with room for it. A table of one diagram's nodes always has it, since they are no
/// more than those of the table that the diagram is from.
fn place_in_room(
    fresh: &mut Diagrams,
    bit: u32,
    low: Diagram,
    high: Diagram,
) -> Result<Diagram, NoMemory>
    requires room { length fresh.old.nodes < MOST_NODES }
    requires bit { bit < fresh.old.bits }
    requires low { IsOf fresh.old low }
    requires high { IsOf fresh.old high }
    requires different { low ≡ high → ⊥ }
    requires low_later { LooksFrom fresh.old (bit + 1) low }
    requires high_later { LooksFrom fresh.old (bit + 1) high }
    ensures tree { IfOk result (λ d.
        diagram fresh.new d ≡ branch bit (diagram fresh.old low) (diagram fresh.old high)) }
    ensures nodes { IfOk result (λ d. IsFoundOrAdded fresh.old fresh.new
        (node.Branch bit low high) d) }
    ensures older { Extends fresh.old fresh.new }
{
    match fresh.place_of(bit, low, high) {
        Ok(place) => Ok(place),
        Err(DiagramFault::NoMemory) => Err(NoMemory),
        Err(DiagramFault::TooManyNodes) => unreachable!(),
    }
}
