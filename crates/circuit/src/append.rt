ghost use Rattle.std.specs.Prelude.{◌≡◌, ◌≤◌, ◌<◌, ◌+◌, Bool, List, length, map, IfOk, OnErr};
ghost use Rattle.circuit.specs.Value.{AreNodes, Extends, Grows, IsCircuit, IsInputBelow, input_count, parts_of, value as node_value};
ghost use Rattle.circuit.specs.Sharing.{made, made_all};
ghost use Rattle.circuit.specs.Append.{number_at, with_circuit, with_copies, with_copy};
ghost use Rattle.std.specs.List.{AllByRecursion};

use crate::NoMemory;
use crate::circuit::Circuit;
use crate::gate::{Gate, Node, Parts};
use std::alloc::Global;

impl Circuit {
    /// The gates of another circuit, each found or added: the nodes of this one take the place of the other one's
    /// inputs, in order. The answer has for each root, in order, a node of this circuit with its value.
    pub fn append(
        &mut self,
        other: &Circuit,
        inputs: &[Node],
        roots: &[Node],
    ) -> Result<Vec<Node>, NoMemory>
        requires inputs { AreNodes self.old inputs.now }
        requires count { length inputs.now ≡ input_count other.now }
        requires roots { AreNodes other.now roots.now }
        ensures made { IfOk result (λ nodes. made_all self.new nodes.items
            ≡ with_circuit self.old other.now inputs.now roots.now) }
        ensures within { IfOk result (λ nodes. AreNodes self.new nodes.items) }
        ensures value { IfOk result (λ nodes. (values : List Bool)
            → map (node_value self.new values) nodes.items
            ≡ map (node_value other.now (map (node_value self.old values) inputs.now)) roots.now) }
        ensures few { length self.new ≤ length self.old + length other.now }
        ensures grown { Grows self.old self.new }
        ensures older { Extends self.old self.new }
        ensures err { OnErr result (self.new ≡ self.old) }
    {
        let before = self.nodes();
        match add_circuit(self, other.gates(), inputs, roots) {
            Ok(nodes) => Ok(nodes),
            Err(error) => {
                self.back_to(before);
                Err(error)
            }
        }
    }
}

/// `append`, but that want of memory leaves what was added.
fn add_circuit(
    circuit: &mut Circuit,
    gates: &[Gate],
    inputs: &[Node],
    roots: &[Node],
) -> Result<Vec<Node>, NoMemory>
    requires circuit { IsCircuit circuit.old }
    requires other { IsCircuit gates.now }
    requires inputs { AreNodes circuit.old inputs.now }
    requires count { length inputs.now ≡ input_count gates.now }
    requires roots { AreNodes gates.now roots.now }
    ensures made { IfOk result (λ nodes. made_all circuit.new nodes.items
        ≡ with_circuit circuit.old gates.now inputs.now roots.now) }
    ensures grown { Grows circuit.old circuit.new }
{
    let nodes = add_copies(circuit, gates, inputs)?;
    moved_nodes(circuit.alloc(), roots, nodes.as_slice())
}

/// For each gate the node where it stands in the circuit.
fn add_copies(circuit: &mut Circuit, gates: &[Gate], inputs: &[Node]) -> Result<Vec<Node>, NoMemory>
    requires circuit { IsCircuit circuit.old }
    requires other { IsCircuit gates.now }
    requires inputs { AreNodes circuit.old inputs.now }
    requires count { length inputs.now ≡ input_count gates.now }
    ensures made { IfOk result (λ nodes. made_all circuit.new nodes.items
        ≡ with_copies circuit.old gates.now inputs.now) }
    ensures grown { Grows circuit.old circuit.new }
{
    let mut nodes = Vec::with_capacity(circuit.alloc(), gates.len())?;
    for gate in gates {
        let node = add_copy(circuit, gate, inputs, nodes.as_slice())?;
        nodes.push(node)?;
    }
    Ok(nodes)
}

/// The node of a gate over these nodes for its parts.
fn add_copy(
    circuit: &mut Circuit,
    gate: &Gate,
    inputs: &[Node],
    nodes: &[Node],
) -> Result<Node, NoMemory>
    requires inputs { AreNodes circuit.old inputs.now }
    requires nodes { AreNodes circuit.old nodes.now }
    requires input { IsInputBelow (length inputs.now) gate.now }
    requires parts { AllByRecursion (λ part. part < length nodes.now) (parts_of gate.now) }
    ensures made { IfOk result (λ node.
        made circuit.new node ≡ with_copy inputs.now circuit.old nodes.now gate.now) }
    ensures grown { Grows circuit.old circuit.new }
{
    match gate {
        Gate::Input(number) => Ok(inputs[*number]),
        Gate::And(parts) => {
            let moved = moved_nodes(circuit.alloc(), parts.nodes(), nodes)?;
            circuit.find_or_add(Gate::And(Parts::new(moved)))
        }
        Gate::Or(parts) => {
            let moved = moved_nodes(circuit.alloc(), parts.nodes(), nodes)?;
            circuit.find_or_add(Gate::Or(Parts::new(moved)))
        }
        Gate::Not(part) => circuit.not(nodes[part.place()]),
        Gate::Ite(condition, a, b) => circuit.ite(
            nodes[condition.place()],
            nodes[a.place()],
            nodes[b.place()],
        ),
    }
}

/// For each of the places the node that stands there.
fn moved_nodes(alloc: Global, places: &[Node], nodes: &[Node]) -> Result<Vec<Node>, NoMemory>
    requires { AllByRecursion (λ place. place < length nodes.now) places.now }
    ensures { IfOk result (λ moved. moved.items ≡ map (number_at nodes.now) places.now) }
{
    let mut moved = Vec::with_capacity(alloc, places.len())?;
    for place in places {
        moved.push(nodes[place.place()])?;
    }
    Ok(moved)
}
