ghost use Rattle.std.specs.Prelude.{◌≡◌, ◌<◌, Bool, length, IfOk, ◌&&◌};
ghost use Rattle.std.specs.List.{list_any, AllByRecursion};
ghost use Rattle.ios_acl.specs.declared.packet.Packet.{Packet};
ghost use Rattle.sorted_logic.specs.Field.{place};
ghost use Rattle.frame.specs.Meaning.{Adds, Means, passes_all};
ghost use Rattle.frame.specs.Asking.{AreClausesOf};
ghost use Rattle.frame.specs.Question.{IsOfPacket, accepts, asked, passes};
ghost use Rattle.frame.specs.Scenario.{request_of, same_test};
ghost use Rattle.frame.specs.Scenario as specs;

use crate::NoMemory;
use crate::decision::decided;
use crate::packet_circuit::PacketCircuit;
use crate::relevance::relevant;
use bit_patterns::agrees;
use circuit::Node;
use cnf::Cnf;
use ios_acl::{Entry, Verdict};
use sorted_logic::Field;
use std::alloc::Global;

/// What is asked of a number: one of two tests.
#[derive(Clone, Copy, Debug, PartialEq, Eq)]
pub enum Pattern {
    /// The number agrees with the value on each bit that is 0 in the wildcard.
    Masked { value: u32, wildcard: u32 },
    /// The number is from `low` to `high`, both included: where they are the same it is this one number, and where
    /// `high` is below `low` it is none.
    Range { low: u32, high: u32 },
}

impl Pattern {
    /// Whether the number is as the pattern asks.
    pub fn accepts(self, number: u32) -> bool
        ensures { result ≡ accepts self number }
    {
        match self {
            Pattern::Masked { value, wildcard } => agrees(
                u128::from(number),
                u128::from(value),
                u128::from(wildcard),
            ),
            Pattern::Range { low, high } => low <= number && number <= high,
        }
    }
}

/// A test of a field: its number is as the pattern asks.
#[derive(Clone, Copy, Debug, PartialEq, Eq)]
pub struct Test {
    pub field: Field,
    pub pattern: Pattern,
}

/// The tests that are shown: one that is written twice is shown once, in its first place.
pub fn visible(alloc: Global, tests: &[Test]) -> Result<Vec<Test>, NoMemory>
    ensures { IfOk result (λ shown. shown.items ≡ specs.visible tests.now) }
{
    let mut shown = Vec::new(alloc);
    for test in tests {
        if !is_shown(shown.as_slice(), test) {
            shown.push(*test)?;
        }
    }
    Ok(shown)
}

/// Whether the test is among those that are shown.
fn is_shown(shown: &[Test], test: &Test) -> bool
    ensures { result ≡ list_any (λ other. same_test other test.now) shown.now }
{
    for other in shown {
        if is_same(other, test) {
            return true;
        }
    }
    false
}

fn is_same(a: &Test, b: &Test) -> bool
    ensures { result ≡ same_test a.now b.now }
{
    a.field == b.field && a.pattern == b.pattern
}

/// The clauses of a question. The least of their models begins with the packet of the first scenario: of the requests
/// that the entries decide so and that pass the tests, the one of the least signature and then of the least values; the
/// fields that are not the packet's are 0 in it. They have no model exactly where no request does.
pub fn question_clauses(
    alloc: Global,
    entries: &[Entry],
    verdict: Verdict,
    tests: &[Test],
) -> Result<Cnf, NoMemory>
    requires { AllByRecursion IsOfPacket tests.now }
    ensures { IfOk result (AreClausesOf (asked entries.now verdict tests.now)) }
{
    let kept = relevant(alloc, entries, tests)?;
    let mut circuit = PacketCircuit::new(alloc)?;
    let decided = decided(alloc, &mut circuit, kept.as_slice(), verdict)?;
    let root = tested(&mut circuit, decided, tests)?;
    circuit.clauses(alloc, root)
}

/// Adds a node that is true where the other node is and the packet passes the tests.
fn tested(circuit: &mut PacketCircuit, other: Node, tests: &[Test]) -> Result<Node, NoMemory>
    requires { other < length circuit.old }
    ensures { IfOk result (λ node. (meaning : Packet → Bool) → Means circuit.old other meaning
        → Adds circuit.old circuit.new node
        (λ packet. meaning packet && passes_all tests.now packet)) }
{
    let mut node = other;
    for test in tests {
        let passed = passed(circuit, test)?;
        node = circuit.and(&[node, passed])?;
    }
    Ok(node)
}

/// Adds a node that is true where the packet passes the test.
fn passed(circuit: &mut PacketCircuit, test: &Test) -> Result<Node, NoMemory>
    ensures { IfOk result (λ node. Adds circuit.old circuit.new node
        (λ packet. passes (request_of packet) test.now)) }
{
    match test.pattern {
        Pattern::Masked { value, wildcard } => circuit.masked(test.field, value, wildcard),
        Pattern::Range { low, high } => circuit.within(test.field, low, high),
    }
}
