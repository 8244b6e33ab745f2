ghost use Rattle.std.specs.Prelude.{◌≡◌, ◌≤◌, ◌<◌, ◌+◌, ◌/◌, ◌^◌, Bool, List, length, map, IfOk, OnErr};
ghost use Rattle.bit_patterns.specs.Patterns.{agrees as agrees_lem};
ghost use Rattle.circuit.specs.Value.{AreNodes, Extends, Grows, value as node_value};
ghost use Rattle.circuit.specs.Number.{number};
ghost use Rattle.circuit.specs.Sharing.{made, found_or_added};
ghost use Rattle.circuit.specs.Gates.{with_masked, differing_gate, fixed_nodes};

use crate::NoMemory;
use crate::circuit::Circuit;
use crate::gate::Node;
use bit_patterns::agrees;
use std::alloc::Global;

impl Circuit {
    /// A node that is true where the number of the bits agrees with the value on each bit that is 0 in the wildcard.
    /// The bits stand highest first, and there are at most 128.
    pub fn masked(&mut self, bits: &[Node], value: u128, wildcard: u128) -> Result<Node, NoMemory>
        requires nodes { AreNodes self.old bits.now }
        requires few { length bits.now ≤ 128 }
        ensures made { IfOk result (λ node.
            made self.new node ≡ with_masked self.old bits.now value wildcard) }
        ensures within { IfOk result (λ node. node < length self.new) }
        ensures value { IfOk result (λ node. (inputs : List Bool) → node_value self.new inputs node
            ≡ agrees_lem (number (map (node_value self.old inputs) bits.now)) value wildcard) }
        ensures few { length self.new ≤ length self.old + 3 }
        ensures grown { Grows self.old self.new }
        ensures older { Extends self.old self.new }
        ensures err { OnErr result (self.new ≡ self.old) }
    {
        let before = self.nodes();
        match add_masked(self, bits, value, wildcard) {
            Ok(node) => Ok(node),
            Err(error) => {
                self.back_to(before);
                Err(error)
            }
        }
    }
}

/// `masked`, but that want of memory leaves what was added.
fn add_masked(
    circuit: &mut Circuit,
    bits: &[Node],
    value: u128,
    wildcard: u128,
) -> Result<Node, NoMemory>
    requires nodes { AreNodes circuit.old bits.now }
    requires few { length bits.now ≤ 128 }
    ensures made { IfOk result (λ node.
        made circuit.new node ≡ with_masked circuit.old bits.now value wildcard) }
    ensures grown { Grows circuit.old circuit.new }
{
    let differing = add_differing(circuit, bits, value, wildcard)?;
    let alike = circuit.not(differing)?;
    let mut parts = fixed_nodes(circuit.alloc(), bits, value, wildcard, 1)?;
    parts.push(alike)?;
    circuit.and(parts.as_slice())
}

/// A node that is true where the number has a 1 that has to be 0, or where a 1 above its bits is asked for.
fn add_differing(
    circuit: &mut Circuit,
    bits: &[Node],
    value: u128,
    wildcard: u128,
) -> Result<Node, NoMemory>
    requires nodes { AreNodes circuit.old bits.now }
    requires few { length bits.now ≤ 128 }
    ensures made { IfOk result (λ node. made circuit.new node
        ≡ found_or_added circuit.old (differing_gate bits.now value wildcard)) }
    ensures within { IfOk result (λ node. node < length circuit.new) }
    ensures grown { Grows circuit.old circuit.new }
{
    if agree_above(bits.len(), value, wildcard) {
        let zeros = fixed_nodes(circuit.alloc(), bits, value, wildcard, 0)?;
        return circuit.or(zeros.as_slice());
    }
    circuit.and(&[])
}

/// Whether a number of this many bits, which has zeros above them, agrees with the value there.
fn agree_above(count: usize, value: u128, wildcard: u128) -> bool
    requires { count ≤ 128 }
    ensures { result ≡ agrees_lem 0 (value / 2 ^ count) (wildcard / 2 ^ count) }
{
    if count == 128 {
        return true;
    }
    agrees(0, value >> count, wildcard >> count)
}

/// The nodes of a number, its highest bit first, that have to be this bit.
fn fixed_nodes(
    alloc: Global,
    bits: &[Node],
    value: u128,
    wildcard: u128,
    bit: u128,
) -> Result<Vec<Node>, NoMemory>
    requires { length bits.now ≤ 128 }
    ensures { IfOk result (λ nodes. nodes.items ≡ fixed_nodes bits.now value wildcard bit) }
{
    let mut nodes = Vec::new(alloc);
    for (index, node) in bits.iter().enumerate() {
        let shift = bits.len() - 1 - index;
        if (wildcard >> shift) & 1 == 0 && (value >> shift) & 1 == bit {
            nodes.push(*node)?;
        }
    }
    Ok(nodes)
}
