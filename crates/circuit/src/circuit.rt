ghost use Rattle.std.specs.Prelude.{◌≡◌, ◌≤◌, ◌<◌, ◌+◌, ℕ, Bool, false, List, [], ◌∷◌, not, if◌then◌else◌, length, take, IfOk, OnOk, OnErr};
ghost use Rattle.std.specs.List.{IsDistinct, list_any, list_all};
ghost use Rattle.circuit.specs.declared.gate.Gate.{Gate};
ghost use Rattle.circuit.specs.declared.gate.Gate.TheVariants as gate;
ghost use Rattle.circuit.specs.Value.{AreNodes, Extends, Grows, IsNext, IsCircuit, values, value as node_value, value_at, gate_value, is_input, input_count};
ghost use Rattle.circuit.specs.Sharing.{made, found_or_added, same_gate};
ghost use Rattle.circuit.specs.Gates.{with_input};

use crate::NoMemory;
use crate::gate::{Gate, Node, Parts};
use indexmap::IndexSet;
use std::alloc::Global;
use std::marker::Model;

/// A circuit that grows at its end, and has each gate once.
#[derive(Drop)]
pub struct Circuit {
    alloc: Global,
    /// The place of a gate is its node.
    gates: IndexSet<Gate>,
    inputs: usize,
}

impl Model for Circuit {
    ghost use Rattle.std.specs.Prelude.{List, ◌≡◌};
    ghost use Rattle.circuit.specs.declared.gate.Gate.{Gate};
    ghost use Rattle.circuit.specs.Value.{input_count, IsCircuit};

    ghost Value = { List Gate };

    ghost view = { λ c. c.gates.keys };

    ghost invariant = { λ c. (c.inputs ≡ input_count c.gates.keys) × IsCircuit c.gates.keys };
}

impl Circuit {
    /// A circuit without nodes.
    pub fn new(alloc: Global) -> Circuit
        ensures { result ≡ [] }
    {
        Circuit {
            alloc,
            gates: IndexSet::new(alloc),
            inputs: 0,
        }
    }

    /// How many nodes there are. No two of them have gates of one kind with the same parts.
    pub fn nodes(&self) -> usize
        ensures count { result ≡ length self.now }
        ensures circuit { IsCircuit self.now }
        ensures different { IsDistinct same_gate self.now }
    {
        self.gates.len()
    }

    /// Adds an input. Inputs are numbered from 0 in the order in which they are added.
    pub fn input(&mut self) -> Result<Node, NoMemory>
        ensures node { IfOk result (λ node. node ≡ length self.old) }
        ensures circuit { OnOk result (self.new ≡ with_input self.old) }
        ensures value { IfOk result (λ node. (inputs : List Bool) → node_value self.new inputs node
            ≡ value_at inputs (input_count self.old)) }
        ensures older { Extends self.old self.new }
        ensures err { OnErr result (self.new ≡ self.old) }
    {
        let node = Node::at(self.gates.len());
        self.gates.insert(Gate::Input(self.inputs))?;
        self.inputs += 1;
        Ok(node)
    }

    /// A node that is true where all of the parts are: the one that is there, or one more.
    #[tactic(auto, unfolding(crate::specs::Value::value))]
    pub fn and(&mut self, parts: &[Node]) -> Result<Node, NoMemory>
        requires { AreNodes self.old parts.now }
        ensures made { IfOk result (λ node.
            made self.new node ≡ found_or_added self.old (gate.And parts.now)) }
        ensures within { IfOk result (λ node. node < length self.new) }
        ensures value { IfOk result (λ node. (inputs : List Bool) → node_value self.new inputs node
            ≡ list_all (node_value self.old inputs) parts.now) }
        ensures few { length self.new ≤ length self.old + 1 }
        ensures grown { Grows self.old self.new }
        ensures older { Extends self.old self.new }
        ensures err { OnErr result (self.new ≡ self.old) }
    {
        let nodes = Vec::from_slice(self.alloc, parts)?;
        self.find_or_add(Gate::And(Parts::new(nodes)))
    }

    /// A node that is true where one of the parts is: the one that is there, or one more.
    #[tactic(auto, unfolding(crate::specs::Value::value))]
    pub fn or(&mut self, parts: &[Node]) -> Result<Node, NoMemory>
        requires { AreNodes self.old parts.now }
        ensures made { IfOk result (λ node.
            made self.new node ≡ found_or_added self.old (gate.Or parts.now)) }
        ensures within { IfOk result (λ node. node < length self.new) }
        ensures value { IfOk result (λ node. (inputs : List Bool) → node_value self.new inputs node
            ≡ list_any (node_value self.old inputs) parts.now) }
        ensures few { length self.new ≤ length self.old + 1 }
        ensures grown { Grows self.old self.new }
        ensures older { Extends self.old self.new }
        ensures err { OnErr result (self.new ≡ self.old) }
    {
        let nodes = Vec::from_slice(self.alloc, parts)?;
        self.find_or_add(Gate::Or(Parts::new(nodes)))
    }

    /// A node that is true where the part is false: the one that is there, or one more.
    #[tactic(auto, unfolding(crate::specs::Value::value))]
    pub fn not(&mut self, part: Node) -> Result<Node, NoMemory>
        requires { part < length self.old }
        ensures made { IfOk result (λ node.
            made self.new node ≡ found_or_added self.old (gate.Not part)) }
        ensures within { IfOk result (λ node. node < length self.new) }
        ensures value { IfOk result (λ node. (inputs : List Bool) → node_value self.new inputs node
            ≡ not (node_value self.old inputs part)) }
        ensures few { length self.new ≤ length self.old + 1 }
        ensures grown { Grows self.old self.new }
        ensures older { Extends self.old self.new }
        ensures err { OnErr result (self.new ≡ self.old) }
    {
        self.find_or_add(Gate::Not(part))
    }

    /// A node that is worth `a` where the condition is true, and `b` where it is false: the one that is there, or one
    /// more.
    #[tactic(auto, unfolding(crate::specs::Value::value))]
    pub fn ite(&mut self, condition: Node, a: Node, b: Node) -> Result<Node, NoMemory>
        requires { AreNodes self.old (condition ∷ a ∷ b ∷ []) }
        ensures made { IfOk result (λ node.
            made self.new node ≡ found_or_added self.old (gate.Ite condition a b)) }
        ensures within { IfOk result (λ node. node < length self.new) }
        ensures value { IfOk result (λ node. (inputs : List Bool) → node_value self.new inputs node
            ≡ (if node_value self.old inputs condition
            then node_value self.old inputs a else node_value self.old inputs b)) }
        ensures few { length self.new ≤ length self.old + 1 }
        ensures grown { Grows self.old self.new }
        ensures older { Extends self.old self.new }
        ensures err { OnErr result (self.new ≡ self.old) }
    {
        self.find_or_add(Gate::Ite(condition, a, b))
    }

    pub(crate) fn alloc(&self) -> Global {
        self.alloc
    }

    /// How many of the gates are inputs.
    pub(crate) fn inputs(&self) -> usize
        ensures { result ≡ input_count self.now }
    {
        self.inputs
    }

    pub(crate) fn gates(&self) -> &[Gate]
        ensures gates { result.now ≡ self.now }
        ensures circuit { IsCircuit self.now }
    {
        self.gates.as_slice()
    }

    /// The node of a gate that is no input.
    pub(crate) fn find_or_add(&mut self, gate: Gate) -> Result<Node, NoMemory>
        requires next { IsNext self.old gate }
        requires kind { is_input gate ≡ false }
        ensures made { IfOk result (λ node. made self.new node ≡ found_or_added self.old gate) }
        ensures within { IfOk result (λ node. node < length self.new) }
        ensures value { IfOk result (λ node. (inputs : List Bool) → node_value self.new inputs node
            ≡ gate_value inputs (values self.old inputs) gate) }
        ensures few { length self.new ≤ length self.old + 1 }
        ensures grown { Grows self.old self.new }
        ensures older { Extends self.old self.new }
        ensures err { OnErr result (self.new ≡ self.old) }
    {
        let (place, _) = self.gates.insert_full(gate)?;
        Ok(Node::at(place))
    }

    /// Keeps so many gates, the first ones. None of the others is an input.
    pub(crate) fn back_to(&mut self, count: usize)
        requires { input_count (take count self.old) ≡ input_count self.old }
        ensures { self.new ≡ take count self.old }
    {
        self.gates.truncate(count);
    }
}
