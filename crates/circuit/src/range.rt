ghost use Rattle.std.specs.Prelude.{◌≡◌, ◌≤◌, ◌<◌, ◌+◌, ◌*◌, ◌^◌, Bool, true, false, List, length, map, nat_lt, IfOk, OnErr};
ghost use Rattle.bit_patterns.specs.Patterns.{within};
ghost use Rattle.circuit.specs.Value.{AreNodes, Extends, Grows, value as node_value};
ghost use Rattle.circuit.specs.Number.{number};
ghost use Rattle.circuit.specs.Sharing.{made, found_or_added};
ghost use Rattle.circuit.specs.Gates.{constant_gate, bit_gate, reached_gate, with_comparison, with_bound, with_range};

use crate::NoMemory;
use crate::circuit::Circuit;
use crate::gate::Node;

impl Circuit {
    /// A node that is true where the number of the bits is from `lo` to `hi`, both included. The bits stand highest
    /// first, and there are at most 128. An end above all numbers of the bits is allowed, and so are ends the wrong way
    /// round, between which there is no number.
    pub fn range(&mut self, bits: &[Node], lo: u128, hi: u128) -> Result<Node, NoMemory>
        requires nodes { AreNodes self.old bits.now }
        requires few { length bits.now ≤ 128 }
        ensures made { IfOk result (λ node.
            made self.new node ≡ with_range self.old bits.now lo hi) }
        ensures within { IfOk result (λ node. node < length self.new) }
        ensures value { IfOk result (λ node. (inputs : List Bool) → node_value self.new inputs node
            ≡ within lo hi (number (map (node_value self.old inputs) bits.now))) }
        ensures few { length self.new ≤ length self.old + (2 * length bits.now + 6) }
        ensures grown { Grows self.old self.new }
        ensures older { Extends self.old self.new }
        ensures err { OnErr result (self.new ≡ self.old) }
    {
        let before = self.nodes();
        match add_range(self, bits, lo, hi) {
            Ok(node) => Ok(node),
            Err(error) => {
                self.back_to(before);
                Err(error)
            }
        }
    }
}

/// `range`, but that want of memory leaves what was added.
fn add_range(circuit: &mut Circuit, bits: &[Node], lo: u128, hi: u128) -> Result<Node, NoMemory>
    requires nodes { AreNodes circuit.old bits.now }
    requires few { length bits.now ≤ 128 }
    ensures made { IfOk result (λ node.
        made circuit.new node ≡ with_range circuit.old bits.now lo hi) }
    ensures grown { Grows circuit.old circuit.new }
{
    let reached = add_bound(circuit, bits, lo, true)?;
    let above = add_bound(circuit, bits, hi, false)?;
    let kept = circuit.not(above)?;
    circuit.and(&[reached, kept])
}

/// A node that is true where the number is above the bound, and, if inclusive, where it is the same.
fn add_bound(
    circuit: &mut Circuit,
    bits: &[Node],
    bound: u128,
    inclusive: bool,
) -> Result<Node, NoMemory>
    requires nodes { AreNodes circuit.old bits.now }
    requires few { length bits.now ≤ 128 }
    ensures made { IfOk result (λ node.
        made circuit.new node ≡ with_bound circuit.old bits.now bound inclusive) }
    ensures within { IfOk result (λ node. node < length circuit.new) }
    ensures grown { Grows circuit.old circuit.new }
{
    let compared = add_comparison(circuit, bits, bound, inclusive)?;
    add_reached(circuit, compared, bits.len(), bound)
}

/// A node that compares the number with as many of the lowest bits of a bound.
fn add_comparison(
    circuit: &mut Circuit,
    bits: &[Node],
    bound: u128,
    inclusive: bool,
) -> Result<Node, NoMemory>
    requires nodes { AreNodes circuit.old bits.now }
    requires few { length bits.now ≤ 128 }
    ensures made { IfOk result (λ node.
        made circuit.new node ≡ with_comparison circuit.old bits.now bound inclusive) }
    ensures within { IfOk result (λ node. node < length circuit.new) }
    ensures grown { Grows circuit.old circuit.new }
{
    let mut lower = add_constant(circuit, inclusive)?;
    for place in 0..bits.len() {
        let bit = bits[bits.len() - 1 - place];
        lower = add_bit(circuit, bit, lower, (bound >> place) & 1)?;
    }
    Ok(lower)
}

fn add_constant(circuit: &mut Circuit, value: bool) -> Result<Node, NoMemory>
    ensures made { IfOk result (λ node.
        made circuit.new node ≡ found_or_added circuit.old (constant_gate value)) }
    ensures within { IfOk result (λ node. node < length circuit.new) }
    ensures grown { Grows circuit.old circuit.new }
{
    if value {
        return circuit.and(&[]);
    }
    circuit.or(&[])
}

/// A node that compares a bit more, at the high end, where the bound has this digit.
fn add_bit(circuit: &mut Circuit, bit: Node, lower: Node, digit: u128) -> Result<Node, NoMemory>
    requires bit { bit < length circuit.old }
    requires lower { lower < length circuit.old }
    ensures made { IfOk result (λ node.
        made circuit.new node ≡ found_or_added circuit.old (bit_gate bit lower digit)) }
    ensures within { IfOk result (λ node. node < length circuit.new) }
    ensures grown { Grows circuit.old circuit.new }
{
    if digit == 1 {
        return circuit.and(&[bit, lower]);
    }
    circuit.or(&[bit, lower])
}

/// A node behind the comparison of this many bits. No number of so many bits reaches a bound above them.
fn add_reached(
    circuit: &mut Circuit,
    compared: Node,
    count: usize,
    bound: u128,
) -> Result<Node, NoMemory>
    requires node { compared < length circuit.old }
    requires few { count ≤ 128 }
    ensures made { IfOk result (λ node.
        made circuit.new node ≡ found_or_added circuit.old (reached_gate compared count bound)) }
    ensures within { IfOk result (λ node. node < length circuit.new) }
    ensures grown { Grows circuit.old circuit.new }
{
    if is_below(bound, count) {
        return circuit.and(&[compared]);
    }
    circuit.or(&[])
}

/// Whether the value has no ones above this many bits.
fn is_below(value: u128, count: usize) -> bool
    requires { count ≤ 128 }
    ensures { result ≡ nat_lt value (2 ^ count) }
{
    if count == 128 {
        return true;
    }
    value >> count == 0
}
