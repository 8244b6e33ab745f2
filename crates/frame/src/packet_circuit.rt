ghost use Rattle.std.specs.Prelude.{◌≡◌, ◌<◌, not, Bool, List, length, IfOk};
ghost use Rattle.std.specs.List.{list_any, list_all};
ghost use Rattle.bit_patterns.specs.Patterns.{agrees, within};
ghost use Rattle.circuit.specs.Value.{AreNodes, Extends, input_count, value as node_value};
ghost use Rattle.decision_diagram.specs.Table.{IsOf};
ghost use Rattle.ios_acl.specs.declared.packet.Packet.{Packet};
ghost use Rattle.frame.specs.Meaning.{Adds, AskFor};
ghost use Rattle.frame.specs.PacketDiagrams.{MeansIn};
ghost use Rattle.frame.specs.Scenario.{request_of};

use crate::NoMemory;
use crate::bits::field_bits;
use crate::inputs::inputs;
use crate::packet_diagrams::PacketDiagrams;
use circuit::{Circuit, Node, to_cnf};
use cnf::Cnf;
use decision_diagram::{Diagram, gates};
use sorted_logic::Field;
use std::alloc::Global;
use std::marker::Model;

/// A circuit whose inputs are the bits of a packet.
#[derive(Drop)]
pub(crate) struct PacketCircuit {
    circuit: Circuit,
    bits: Vec<Node>,
}

impl Model for PacketCircuit {
    ghost use Rattle.std.specs.Prelude.{List};
    ghost use Rattle.circuit.specs.declared.gate.Gate.{Gate};
    ghost use Rattle.frame.specs.Meaning.{HasBits};

    ghost Value = { List Gate };

    ghost view = { λ c. c.circuit };

    ghost invariant = { λ c. HasBits c.circuit c.bits.items };
}

impl PacketCircuit {
    /// A circuit of the inputs alone.
    pub(crate) fn new(alloc: Global) -> Result<PacketCircuit, NoMemory> {
        let (circuit, bits) = inputs(alloc, 126)?;
        Ok(PacketCircuit { circuit, bits })
    }

    /// Adds a node that is true where the field agrees with the value on each bit that is 0 in the wildcard.
    pub(crate) fn masked(
        &mut self,
        field: Field,
        value: u32,
        wildcard: u32,
    ) -> Result<Node, NoMemory>
        ensures { IfOk result (λ node. Adds self.old self.new node
            (λ packet. agrees (request_of packet field) value wildcard)) }
    {
        let bits = field_bits(self.bits.as_slice(), field);
        self.circuit
            .masked(bits, u128::from(value), u128::from(wildcard))
    }

    /// Adds a node that is true where the field is from `low` to `high`, both included. A single number takes fewer
    /// gates.
    pub(crate) fn within(&mut self, field: Field, low: u32, high: u32) -> Result<Node, NoMemory>
        ensures { IfOk result (λ node. Adds self.old self.new node
            (λ packet. within low high (request_of packet field))) }
    {
        if low == high {
            return self.masked(field, low, 0);
        }
        self.range(field, low, high)
    }

    fn range(&mut self, field: Field, low: u32, high: u32) -> Result<Node, NoMemory>
        ensures { IfOk result (λ node. Adds self.old self.new node
            (λ packet. within low high (request_of packet field))) }
    {
        let bits = field_bits(self.bits.as_slice(), field);
        self.circuit.range(bits, u128::from(low), u128::from(high))
    }

    /// Adds a node that is true where all of the parts are.
    pub(crate) fn and(&mut self, parts: &[Node]) -> Result<Node, NoMemory>
        requires { AreNodes self.old parts.now }
        ensures node { IfOk result (λ node. node < length self.new) }
        ensures older { Extends self.old self.new }
        ensures value { IfOk result (λ node. (inputs : List Bool) →
            node_value self.new inputs node ≡ list_all (node_value self.old inputs) parts.now) }
    {
        self.circuit.and(parts)
    }

    /// Adds a node that is true where one of the parts is.
    pub(crate) fn or(&mut self, parts: &[Node]) -> Result<Node, NoMemory>
        requires { AreNodes self.old parts.now }
        ensures node { IfOk result (λ node. node < length self.new) }
        ensures older { Extends self.old self.new }
        ensures value { IfOk result (λ node. (inputs : List Bool) →
            node_value self.new inputs node ≡ list_any (node_value self.old inputs) parts.now) }
    {
        self.circuit.or(parts)
    }

    /// Adds a node that is true where the part is false.
    pub(crate) fn not(&mut self, part: Node) -> Result<Node, NoMemory>
        requires { part < length self.old }
        ensures node { IfOk result (λ node. node < length self.new) }
        ensures older { Extends self.old self.new }
        ensures value { IfOk result (λ node. (inputs : List Bool) →
            node_value self.new inputs node ≡ not (node_value self.old inputs part)) }
    {
        self.circuit.not(part)
    }

    /// Adds the guarded gates of a diagram: a node that has its value.
    pub(crate) fn diagram(
        &mut self,
        alloc: Global,
        table: &PacketDiagrams,
        root: Diagram,
    ) -> Result<Node, NoMemory>
        requires { IsOf table.now root }
        ensures { IfOk result (λ node. (meaning : Packet → Bool) → MeansIn table.now root meaning
            → Adds self.old self.new node meaning) }
    {
        let bits = self.bits.as_slice();
        let node = gates(alloc, &mut self.circuit, table.table(), root, bits)?;
        Ok(node)
    }

    /// The gates alone.
    pub(crate) fn circuit(&self) -> &Circuit
        ensures circuit { result.now ≡ self.now }
        ensures inputs { input_count self.now ≡ 126 }
    {
        &self.circuit
    }

    /// The clauses of the node. The least of their models begins with the bits of the least packet for which it is true;
    /// they have none exactly where no packet makes it true.
    pub(crate) fn clauses(&self, alloc: Global, root: Node) -> Result<Cnf, NoMemory>
        requires { root < length self.now }
        ensures { IfOk result (AskFor self.now root) }
    {
        to_cnf(alloc, &self.circuit, root)
    }
}
