ghost use Rattle.std.specs.Prelude.{◌≡◌, Err, IfOk, OnOk, length};
ghost use Rattle.decision_diagram.specs.declared.diagrams.TheConstants.{MOST_NODES};
ghost use Rattle.decision_diagram.specs.declared.fault.DiagramFault.TheVariants as fault;
ghost use Rattle.decision_diagram.specs.Table.{Extends, IsOf, diagram};
ghost use Rattle.decision_diagram.specs.Inside.Copying.{AreAdopted};

use crate::diagrams::Diagrams;
use crate::fault::DiagramFault;
use crate::node::{Diagram, Node};
use std::alloc::Global;

impl Diagrams {
    /// The diagram of another table over as many bits, in this one.
    pub fn adopt(
        &mut self,
        alloc: Global,
        other: &Diagrams,
        root: Diagram,
    ) -> Result<Diagram, DiagramFault>
        requires bits { other.now.bits ≡ self.old.bits }
        requires root { IsOf other.now root }
        ensures within { IfOk result (IsOf self.new) }
        ensures same { IfOk result (λ copy. diagram self.new copy ≡ diagram other.now root) }
        ensures older { Extends self.old self.new }
        ensures full { result ≡ Err fault.TooManyNodes → length self.new.nodes ≡ MOST_NODES }
    {
        let mut copies = vec![in alloc; None; other.node_count()]?;
        self.adopt_part(&mut copies, other, root)
    }

    /// The copy of a part of the other table's diagram: the one that was made before, or what stands in this table behind
    /// copies of its ends. It calls itself no deeper than there are bits, since the ends look at later ones.
    fn adopt_part(
        &mut self,
        copies: &mut Vec<Option<Diagram>>,
        other: &Diagrams,
        root: Diagram,
    ) -> Result<Diagram, DiagramFault>
        requires root { IsOf other.now root }
        requires copies { AreAdopted other.now self.old copies.old.items }
        ensures within { IfOk result (IsOf self.new) }
        ensures same { IfOk result (λ copy. diagram self.new copy ≡ diagram other.now root) }
        ensures copies { OnOk result (AreAdopted other.now self.new copies.new.items) }
        ensures older { Extends self.old self.new }
        ensures full { result ≡ Err fault.TooManyNodes → length self.new.nodes ≡ MOST_NODES }
    {
        match other.node(root) {
            Node::Leaf(constant) => Ok(self.leaf(constant)),
            Node::Branch(bit, low, high) => {
                if let Some(copy) = copies[root.place()] {
                    return Ok(copy);
                }
                let low_copy = self.adopt_part(copies, other, low)?;
                let high_copy = self.adopt_part(copies, other, high)?;
                let copy = self.place_of(bit, low_copy, high_copy)?;
                copies[root.place()] = Some(copy);
                Ok(copy)
            }
        }
    }
}
