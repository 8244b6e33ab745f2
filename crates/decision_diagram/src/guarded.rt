ghost use Rattle.std.specs.Prelude.{◌≡◌, ◌<◌, ◌≤◌, List, Bool, map, length, IfOk};
ghost use Rattle.circuit.specs.Value.{value as node_value, AreNodes, Extends, Grows};
ghost use Rattle.circuit.specs.Sharing.{made};
ghost use Rattle.decision_diagram.specs.Table.{IsOf, diagram, value_in};
ghost use Rattle.decision_diagram.specs.Guarded.{guarded, guarded_nodes};

use crate::NoMemory;
use crate::diagrams::Diagrams;
use crate::node::Diagram;
use crate::passes::{ascend_all, descend_all};
use circuit::{Circuit, Node};
use std::alloc::Global;

/// Adds the guarded gates of a diagram to a circuit, over nodes for its bits, in order. The answer is a node with the
/// diagram's value. Want of memory leaves gates that no node needs.
pub fn gates(
    alloc: Global,
    circuit: &mut Circuit,
    diagrams: &Diagrams,
    root: Diagram,
    bits: &[Node],
) -> Result<Node, NoMemory>
    requires root { IsOf diagrams.now root }
    requires bits { AreNodes circuit.old bits.now }
    requires count { diagrams.now.bits ≤ length bits.now }
    ensures made { IfOk result (λ node.
        made circuit.new node ≡ guarded circuit.old bits.now (diagram diagrams.now root)) }
    ensures within { IfOk result (λ node. node < length circuit.new) }
    ensures value { IfOk result (λ node. (inputs : List Bool) → node_value circuit.new inputs node
        ≡ value_in diagrams.now root (map (node_value circuit.old inputs) bits.now)) }
    ensures grown { Grows circuit.old circuit.new }
    ensures older { Extends circuit.old circuit.new }
{
    let (table, place) = diagrams.alone(alloc, root)?;
    // What the nodes are worth is proved of circuits alone, and a call has to say that this is one.
    let _nodes = circuit.nodes();
    let node = gates_alone(alloc, circuit, &table, place, bits)?;
    Ok(node)
}

/// The gates of a table's nodes.
fn gates_alone(
    alloc: Global,
    circuit: &mut Circuit,
    table: &Diagrams,
    root: Diagram,
    bits: &[Node],
) -> Result<Node, NoMemory>
    requires root { IsOf table.now root }
    requires bits { AreNodes circuit.old bits.now }
    requires count { table.now.bits ≤ length bits.now }
    ensures made { IfOk result (λ node.
        made circuit.new node ≡ guarded_nodes circuit.old bits.now table.now.nodes root) }
    ensures grown { Grows circuit.old circuit.new }
    ensures older { Extends circuit.old circuit.new }
{
    let place = root.place();
    if place == 0 {
        let never = circuit.or(&[])?;
        return Ok(never);
    }
    let start = circuit.and(&[])?;
    if place == 1 {
        return Ok(start);
    }
    let edges = descend_all(alloc, circuit, table, root, start, bits)?;
    let accepted = ascend_all(alloc, circuit, table, edges.as_slice())?;
    Ok(accepted[place - 2])
}
