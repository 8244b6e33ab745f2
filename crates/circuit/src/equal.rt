ghost use Rattle.std.specs.Prelude.{◌≡◌, ◌≤◌, ◌<◌, ◌+◌, ◌*◌, ◌↔◌, ◌==◌, Bool, true, List, length, map, IfOk, OnErr};
ghost use Rattle.circuit.specs.Value.{AreNodes, Extends, Grows, value as node_value};
ghost use Rattle.circuit.specs.Number.{number};
ghost use Rattle.circuit.specs.Sharing.{made, made_all};
ghost use Rattle.circuit.specs.Gates.{with_pair, with_pairs, with_equal};

use crate::NoMemory;
use crate::circuit::Circuit;
use crate::gate::Node;

impl Circuit {
    /// A node that is true where the two lists, which are of one length, have the same value at each place; so they
    /// stand for the same number.
    pub fn equal(&mut self, a: &[Node], b: &[Node]) -> Result<Node, NoMemory>
        requires first { AreNodes self.old a.now }
        requires second { AreNodes self.old b.now }
        requires same { length a.now ≡ length b.now }
        ensures made { IfOk result (λ node. made self.new node ≡ with_equal self.old a.now b.now) }
        ensures within { IfOk result (λ node. node < length self.new) }
        ensures value { IfOk result (λ node. (inputs : List Bool) → node_value self.new inputs node
            ≡ (number (map (node_value self.old inputs) a.now)
            == number (map (node_value self.old inputs) b.now))) }
        ensures same { IfOk result (λ node. (inputs : List Bool)
            → (node_value self.new inputs node ≡ true)
            ↔ (map (node_value self.old inputs) a.now ≡ map (node_value self.old inputs) b.now)) }
        ensures few { length self.new ≤ length self.old + (2 * length a.now + 1) }
        ensures grown { Grows self.old self.new }
        ensures older { Extends self.old self.new }
        ensures err { OnErr result (self.new ≡ self.old) }
    {
        let before = self.nodes();
        match add_equal(self, a, b) {
            Ok(node) => Ok(node),
            Err(error) => {
                self.back_to(before);
                Err(error)
            }
        }
    }
}

/// `equal`, but that want of memory leaves what was added.
fn add_equal(circuit: &mut Circuit, a: &[Node], b: &[Node]) -> Result<Node, NoMemory>
    requires first { AreNodes circuit.old a.now }
    requires second { AreNodes circuit.old b.now }
    requires same { length a.now ≡ length b.now }
    ensures made { IfOk result (λ node.
        made circuit.new node ≡ with_equal circuit.old a.now b.now) }
    ensures grown { Grows circuit.old circuit.new }
{
    let tests = add_pairs(circuit, a, b)?;
    circuit.and(tests.as_slice())
}

/// A node for each pair, true where the two have the same value.
fn add_pairs(circuit: &mut Circuit, a: &[Node], b: &[Node]) -> Result<Vec<Node>, NoMemory>
    requires first { AreNodes circuit.old a.now }
    requires second { AreNodes circuit.old b.now }
    requires same { length a.now ≡ length b.now }
    ensures made { IfOk result (λ tests.
        made_all circuit.new tests.items ≡ with_pairs circuit.old a.now b.now) }
    ensures within { IfOk result (λ tests. AreNodes circuit.new tests.items) }
    ensures grown { Grows circuit.old circuit.new }
{
    let mut tests = Vec::new(circuit.alloc());
    for index in 0..a.len() {
        let test = add_pair(circuit, a[index], b[index])?;
        tests.push(test)?;
    }
    Ok(tests)
}

/// A node that is true where the two have the same value.
fn add_pair(circuit: &mut Circuit, a: Node, b: Node) -> Result<Node, NoMemory>
    requires first { a < length circuit.old }
    requires second { b < length circuit.old }
    ensures made { IfOk result (λ node. made circuit.new node ≡ with_pair circuit.old a b) }
    ensures within { IfOk result (λ node. node < length circuit.new) }
    ensures grown { Grows circuit.old circuit.new }
{
    let other = circuit.not(b)?;
    circuit.ite(a, b, other)
}
