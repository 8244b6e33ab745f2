ghost use Rattle.std.specs.Prelude.{◌≡◌, ◌≤◌, ◌<◌, Bool, List, drop, length, IfOk, OnOk};
ghost use Rattle.decision_diagram.specs.Table.{IsOf, value_in};
ghost use Rattle.ios_acl.specs.declared.entry.Entry.{Entry as AnyEntry};
ghost use Rattle.frame.specs.PacketDiagrams.{AreDifferences, MeansIn};
ghost use Rattle.std.specs.Bool.{beq};
ghost use Rattle.circuit.specs.Value.{AreNodes, Grows, value as node_value};
ghost use Rattle.frame.specs.Comparing.{AreClausesOfTwo, asks};
ghost use Rattle.frame.specs.Meaning.{HasInputs, permits};
ghost use Rattle.frame.specs.Verdicts.{AsksFor, chosen, shows_nodes};

use crate::NoMemory;
use crate::decision::permitted;
use crate::difference::{Differences, join_lists};
use crate::inputs::inputs;
use crate::list_diagram::{ListEnd, small_end};
use crate::packet_circuit::PacketCircuit;
use circuit::{Circuit, Node, to_cnf};
use cnf::Cnf;
use decision_diagram::gates;
use ios_acl::Entry;
use std::alloc::Global;

/// What is asked of two lists: for which packet they decide so.
#[derive(Clone, Copy, Debug, PartialEq, Eq)]
pub enum Comparison {
    /// One of them permits the packet and the other denies it.
    Differs,
    /// The second permits the packet, and the first denies it.
    Widens,
}

/// The most nodes of a list's diagram that is compared with another one. Two lists are hard to be told equal by gates for each
/// entry, so more is made diagrams here than of one list.
const MOST_NODES: usize = 100_000;

/// The clauses of a question about two lists. Their first two variables are whether the first and whether the second
/// list permits the packet, and the next 126 its bits. They have a model exactly where there is a packet; the least one
/// begins with the least verdicts, and of these with the least packet.
pub fn comparison_clauses(
    alloc: Global,
    first: &[Entry],
    second: &[Entry],
    asked: Comparison,
) -> Result<Cnf, NoMemory>
    ensures { IfOk result (AreClausesOfTwo asked first.now second.now) }
{
    let (circuit, root) = asking(alloc, first, second, asked)?;
    let clauses = to_cnf(alloc, &circuit, root)?;
    Ok(clauses)
}

/// A circuit that asks of two lists.
fn asking(
    alloc: Global,
    first: &[Entry],
    second: &[Entry],
    asked: Comparison,
) -> Result<(Circuit, Node), NoMemory>
    ensures { IfOk result (λ made. AsksFor asked first.now second.now made.0 made.1) }
{
    let one = small_end(alloc, first, MOST_NODES)?;
    let two = small_end(alloc, second, MOST_NODES)?;
    match join_lists(alloc, &one, &two)? {
        Some(found) => {
            let made = by_differences(alloc, &found, asked)?;
            Ok(made)
        }
        None => {
            let made = by_lists(alloc, first, &one, second, &two, asked)?;
            Ok(made)
        }
    }
}

/// The same by the gates of both lists, given an end of each as a diagram.
fn by_lists(
    alloc: Global,
    first: &[Entry],
    one: &ListEnd,
    second: &[Entry],
    two: &ListEnd,
    asked: Comparison,
) -> Result<(Circuit, Node), NoMemory>
    requires one_from { one.now.from ≤ length first.now }
    requires one_means { MeansIn one.now.table one.now.root (permits (drop one.now.from first.now)) }
    requires two_from { two.now.from ≤ length second.now }
    requires two_means { MeansIn two.now.table two.now.root (permits (drop two.now.from second.now)) }
    ensures { IfOk result (λ made. AsksFor asked first.now second.now made.0 made.1) }
{
    let mut lists = PacketCircuit::new(alloc)?;
    let first_permits = permitted(alloc, &mut lists, first, one)?;
    let second_permits = permitted(alloc, &mut lists, second, two)?;
    let (mut circuit, nodes) = inputs(alloc, 128)?;
    let verdicts = [first_permits, second_permits];
    let root = compared(&mut circuit, nodes.as_slice(), &lists, &verdicts, asked)?;
    Ok((circuit, root))
}

/// The same by the gates of the diagrams that say where they differ.
fn by_differences(
    alloc: Global,
    found: &Differences,
    asked: Comparison,
) -> Result<(Circuit, Node), NoMemory>
    requires first { IsOf found.now.table found.now.only_first }
    requires second { IsOf found.now.table found.now.only_second }
    ensures { IfOk result (λ made. (first second : List AnyEntry)
        → AreDifferences first second found.now.table found.now.only_first found.now.only_second
        → AsksFor asked first second made.0 made.1) }
{
    let (mut circuit, nodes) = inputs(alloc, 128)?;
    let root = one_of_two(alloc, &mut circuit, nodes.as_slice(), found, asked)?;
    Ok((circuit, root))
}

/// Adds the gates of both diagrams and a node that is true where the first two inputs are as is asked and the packet is one of the
/// diagram that the first input chooses.
fn one_of_two(
    alloc: Global,
    circuit: &mut Circuit,
    inputs: &[Node],
    found: &Differences,
    asked: Comparison,
) -> Result<Node, NoMemory>
    requires inputs { HasInputs 128 circuit.old inputs.now }
    requires first { IsOf found.now.table found.now.only_first }
    requires second { IsOf found.now.table found.now.only_second }
    ensures inputs { OnOk result (HasInputs 128 circuit.new inputs.now) }
    ensures within { IfOk result (λ root. root < length circuit.new) }
    ensures chosen { IfOk result (λ root. (values : List Bool) → length values ≡ 128
        → node_value circuit.new values root ≡ chosen asked values
        (value_in found.now.table found.now.only_first (drop 2 values))
        (value_in found.now.table found.now.only_second (drop 2 values))) }
{
    let bits = behind_two(inputs);
    let by_first = gates(alloc, circuit, found.table.table(), found.only_first, bits)?;
    let by_second = gates(alloc, circuit, found.table.table(), found.only_second, bits)?;
    let chosen = circuit.ite(inputs[0], by_first, by_second)?;
    let as_asked = asked_of(circuit, asked, inputs[0], inputs[1])?;
    let root = circuit.and(&[as_asked, chosen])?;
    Ok(root)
}

/// Adds the gates of two lists and a node that is true where the first two inputs are what these permit, and are as is
/// asked.
fn compared(
    circuit: &mut Circuit,
    inputs: &[Node],
    lists: &PacketCircuit,
    verdicts: &[Node],
    asked: Comparison,
) -> Result<Node, NoMemory>
    requires inputs { HasInputs 128 circuit.old inputs.now }
    requires verdicts { AreNodes lists.now verdicts.now }
    requires two { length verdicts.now ≡ 2 }
    ensures inputs { OnOk result (HasInputs 128 circuit.new inputs.now) }
    ensures within { IfOk result (λ root. root < length circuit.new) }
    ensures shows { IfOk result (λ root. (values : List Bool) → length values ≡ 128
        → node_value circuit.new values root ≡ shows_nodes asked lists.now verdicts.now values) }
{
    let bits = behind_two(inputs);
    let permitted = circuit.append(lists.circuit(), bits, verdicts)?;
    let as_asked = asked_of(circuit, asked, inputs[0], inputs[1])?;
    let first = same(circuit, inputs[0], permitted[0])?;
    let second = same(circuit, inputs[1], permitted[1])?;
    let root = circuit.and(&[as_asked, first, second])?;
    Ok(root)
}

fn behind_two(nodes: &[Node]) -> &[Node]
    requires { 2 ≤ length nodes.now }
    ensures { result.now ≡ drop 2 nodes.now }
{
    &nodes[2..]
}

/// Adds a node that is true where the two have the same value.
fn same(circuit: &mut Circuit, a: Node, b: Node) -> Result<Node, NoMemory>
    requires a { a < length circuit.old }
    requires b { b < length circuit.old }
    ensures within { IfOk result (λ node. node < length circuit.new) }
    ensures value { IfOk result (λ node. (values : List Bool) → node_value circuit.new values node
        ≡ beq (node_value circuit.old values a) (node_value circuit.old values b)) }
    ensures grown { Grows circuit.old circuit.new }
{
    let other = circuit.not(b)?;
    let node = circuit.ite(a, b, other)?;
    Ok(node)
}

/// Adds a node that is true where the verdicts of these two nodes are as is asked.
fn asked_of(
    circuit: &mut Circuit,
    asked: Comparison,
    first: Node,
    second: Node,
) -> Result<Node, NoMemory>
    requires first { first < length circuit.old }
    requires second { second < length circuit.old }
    ensures within { IfOk result (λ node. node < length circuit.new) }
    ensures value { IfOk result (λ node. (values : List Bool) → node_value circuit.new values node
        ≡ asks asked (node_value circuit.old values first) (node_value circuit.old values second)) }
    ensures grown { Grows circuit.old circuit.new }
{
    match asked {
        Comparison::Differs => {
            let other = circuit.not(second)?;
            let node = circuit.ite(first, other, second)?;
            Ok(node)
        }
        Comparison::Widens => {
            let denied = circuit.not(first)?;
            let node = circuit.and(&[denied, second])?;
            Ok(node)
        }
    }
}
