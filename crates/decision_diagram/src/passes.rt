ghost use Rattle.std.specs.Prelude.{◌≡◌, ◌<◌, ◌≤◌, ◌+◌, ◌-◌, ℕ, List, [], ◌∷◌, ◌++◌, length, drop, replicate, reverse, slice_get, slice_index_or, Some, IfOk, OnOk};
ghost use Rattle.circuit.specs.Value.{AreNodes, Extends, Grows};
ghost use Rattle.circuit.specs.Sharing.{made};
ghost use Rattle.decision_diagram.specs.declared.node.Node.TheVariants as node;
ghost use Rattle.decision_diagram.specs.Table.{IsOf};
ghost use Rattle.decision_diagram.specs.Guarded.{ascend, ascend_at, ascent, descend, descend_at, descent, joined, returned, with_edge};
ghost use Rattle.decision_diagram.specs.Inside.Passes.{AreEdges, ArePairs, IsPair};

use crate::NoMemory;
use crate::diagrams::Diagrams;
use crate::edges::EdgesInto;
use crate::node::{Diagram, Node as TableNode};
use circuit::{Circuit, Node};
use std::alloc::Global;

/// Down over all branches of a table, begun with an edge into the root: the two edges of each branch, those of the first one
/// at the end.
pub(crate) fn descend_all(
    alloc: Global,
    circuit: &mut Circuit,
    table: &Diagrams,
    root: Diagram,
    start: Node,
    bits: &[Node],
) -> Result<Vec<(Node, Node)>, NoMemory>
    requires root { IsOf table.now root }
    requires start { start < length circuit.old }
    requires bits { AreNodes circuit.old bits.now }
    requires count { table.now.bits ≤ length bits.now }
    ensures made { IfOk result (λ edges. let down = descend bits.now 2
        (descent circuit.old (with_edge (replicate (length table.now.nodes - 2) []) root start) [])
        (drop 2 table.now.nodes) in
        descent circuit.new down.into (reverse edges.items) ≡ down) }
    ensures count { IfOk result (λ edges. length edges.items + 2 ≡ length table.now.nodes) }
    ensures pairs { IfOk result (λ edges. ArePairs circuit.new edges.items) }
    ensures grown { Grows circuit.old circuit.new }
    ensures older { Extends circuit.old circuit.new }
{
    let count = table.node_count();
    let mut into = EdgesInto::new(alloc, count - 2)?;
    into.add(root, start)?;
    let mut edges = Vec::new(alloc);
    for place in (2..count).rev() {
        descend_one(
            circuit,
            &mut into,
            &mut edges,
            table,
            Diagram::at(place as u32),
            bits,
        )?;
    }
    Ok(edges)
}

/// One branch further down.
fn descend_one(
    circuit: &mut Circuit,
    into: &mut EdgesInto,
    edges: &mut Vec<(Node, Node)>,
    table: &Diagrams,
    place: Diagram,
    bits: &[Node],
) -> Result<(), NoMemory>
    requires branch { 2 ≤ place }
    requires within { IsOf table.now place }
    requires into { length into.old + 2 ≡ length table.now.nodes }
    requires nodes { AreEdges circuit.old into.old }
    requires pairs { ArePairs circuit.old edges.old.items }
    requires bits { AreNodes circuit.old bits.now }
    requires count { table.now.bits ≤ length bits.now }
    ensures made { OnOk result ((n : _) → slice_get table.now.nodes place ≡ Some n
        → descent circuit.new into.new (reverse edges.new.items)
        ≡ descend_at bits.now place (descent circuit.old into.old (reverse edges.old.items)) n) }
    ensures into { OnOk result (length into.new ≡ length into.old) }
    ensures nodes { OnOk result (AreEdges circuit.new into.new) }
    ensures count { OnOk result (length edges.new.items ≡ length edges.old.items + 1) }
    ensures pairs { OnOk result (ArePairs circuit.new edges.new.items) }
    ensures grown { Grows circuit.old circuit.new }
    ensures older { Extends circuit.old circuit.new }
{
    if let TableNode::Branch(bit, low, high) = table.node(place) {
        let taken = take(circuit, into, place, bits[bit as usize], low, high)?;
        edges.push(taken)?;
    }
    Ok(())
}

/// The gates of a branch: where it is reached, and where each of its edges is taken.
fn take(
    circuit: &mut Circuit,
    into: &mut EdgesInto,
    place: Diagram,
    bit: Node,
    low: Diagram,
    high: Diagram,
) -> Result<(Node, Node), NoMemory>
    requires branch { 2 ≤ place }
    requires within { place < length into.old + 2 }
    requires low { low < place }
    requires high { high < place }
    requires bit { bit < length circuit.old }
    requires nodes { AreEdges circuit.old into.old }
    ensures made { IfOk result (λ taken. (number : ℕ) (bits : List ℕ) (edges : List (ℕ × ℕ))
        → bit ≡ slice_index_or bits number 0
        → descent circuit.new into.new (taken ∷ edges) ≡ descend_at bits place
        (descent circuit.old into.old edges) (node.Branch number low high)) }
    ensures into { OnOk result (length into.new ≡ length into.old) }
    ensures nodes { OnOk result (AreEdges circuit.new into.new) }
    ensures pair { IfOk result (IsPair circuit.new) }
    ensures grown { Grows circuit.old circuit.new }
    ensures older { Extends circuit.old circuit.new }
{
    let reached = join(circuit, into.at(place))?;
    let off = circuit.not(bit)?;
    let if_false = circuit.and(&[reached, off])?;
    let if_true = circuit.and(&[reached, bit])?;
    into.add(low, if_false)?;
    into.add(high, if_true)?;
    Ok((if_false, if_true))
}

/// Where one of these edges is taken.
fn join(circuit: &mut Circuit, edges: &[Node]) -> Result<Node, NoMemory>
    requires { AreNodes circuit.old edges.now }
    ensures made { IfOk result (λ node. made circuit.new node ≡ joined circuit.old edges.now) }
    ensures within { IfOk result (λ node. node < length circuit.new) }
    ensures grown { Grows circuit.old circuit.new }
    ensures older { Extends circuit.old circuit.new }
{
    if edges.len() == 1 {
        return Ok(edges[0]);
    }
    circuit.or(edges)
}

/// Up over all branches: where each one is reached and the value is true.
pub(crate) fn ascend_all(
    alloc: Global,
    circuit: &mut Circuit,
    table: &Diagrams,
    edges: &[(Node, Node)],
) -> Result<Vec<Node>, NoMemory>
    requires count { length edges.now + 2 ≡ length table.now.nodes }
    requires pairs { ArePairs circuit.old edges.now }
    ensures made { IfOk result (λ accepted. ascent circuit.new accepted.items
        ≡ ascend (ascent circuit.old []) (drop 2 table.now.nodes) (reverse edges.now)) }
    ensures nodes { IfOk result (λ accepted. AreNodes circuit.new accepted.items) }
    ensures count { IfOk result (λ accepted. length accepted.items + 2 ≡ length table.now.nodes) }
    ensures grown { Grows circuit.old circuit.new }
    ensures older { Extends circuit.old circuit.new }
{
    let count = table.node_count();
    let mut accepted = Vec::new(alloc);
    for place in 2..count {
        let taken = edges[count - 1 - place];
        ascend_one(
            circuit,
            &mut accepted,
            table,
            Diagram::at(place as u32),
            taken,
        )?;
    }
    Ok(accepted)
}

/// One branch further up.
fn ascend_one(
    circuit: &mut Circuit,
    accepted: &mut Vec<Node>,
    table: &Diagrams,
    place: Diagram,
    taken: (Node, Node),
) -> Result<(), NoMemory>
    requires branch { 2 ≤ place }
    requires within { IsOf table.now place }
    requires count { length accepted.old.items + 2 ≡ place }
    requires nodes { AreNodes circuit.old accepted.old.items }
    requires pair { IsPair circuit.old taken }
    ensures made { OnOk result ((n : _) → slice_get table.now.nodes place ≡ Some n
        → ascent circuit.new accepted.new.items
        ≡ ascend_at (ascent circuit.old accepted.old.items) n taken) }
    ensures count { OnOk result (length accepted.new.items ≡ length accepted.old.items + 1) }
    ensures nodes { OnOk result (AreNodes circuit.new accepted.new.items) }
    ensures grown { Grows circuit.old circuit.new }
    ensures older { Extends circuit.old circuit.new }
{
    if let TableNode::Branch(_, low, high) = table.node(place) {
        let node = accept(circuit, accepted.as_slice(), low, high, taken)?;
        accepted.push(node)?;
    }
    Ok(())
}

/// Where a branch is reached and its value is true: one of its edges is taken, and the value is true at its end.
fn accept(
    circuit: &mut Circuit,
    accepted: &[Node],
    low: Diagram,
    high: Diagram,
    taken: (Node, Node),
) -> Result<Node, NoMemory>
    requires low { low < length accepted.now + 2 }
    requires high { high < length accepted.now + 2 }
    requires nodes { AreNodes circuit.old accepted.now }
    requires pair { IsPair circuit.old taken }
    ensures made { IfOk result (λ one. (bit : ℕ)
        → ascent circuit.new (accepted.now ++ one ∷ []) ≡ ascend_at
        (ascent circuit.old accepted.now) (node.Branch bit low high) taken) }
    ensures within { IfOk result (λ node. node < length circuit.new) }
    ensures grown { Grows circuit.old circuit.new }
    ensures older { Extends circuit.old circuit.new }
{
    let by_low = come_back(circuit, accepted, taken.0, low)?;
    let by_high = come_back(circuit, accepted, taken.1, high)?;
    if low.place() == 0 {
        return Ok(by_high);
    }
    if high.place() == 0 {
        return Ok(by_low);
    }
    circuit.or(&[by_low, by_high])
}

/// Where an edge is taken and the value is true, unless it ends in the leaf of false.
fn come_back(
    circuit: &mut Circuit,
    accepted: &[Node],
    edge: Node,
    end: Diagram,
) -> Result<Node, NoMemory>
    requires end { end < length accepted.now + 2 }
    requires nodes { AreNodes circuit.old accepted.now }
    requires edge { edge < length circuit.old }
    ensures made { IfOk result (λ node. made circuit.new node
        ≡ returned (ascent circuit.old accepted.now) edge end) }
    ensures within { IfOk result (λ node. node < length circuit.new) }
    ensures grown { Grows circuit.old circuit.new }
    ensures older { Extends circuit.old circuit.new }
{
    let place = end.place();
    if place < 2 {
        return Ok(edge);
    }
    circuit.and(&[edge, accepted[place - 2]])
}
