ghost use Rattle.std.specs.Prelude.{Bool, IfOk, length, drop, ◌<◌, ◌≤◌, if◌then◌else◌};
ghost use Rattle.decision_diagram.specs.Table.{IsOf};
ghost use Rattle.ios_acl.specs.declared.packet.Packet.{Packet};
ghost use Rattle.ios_acl.specs.Matching.{matches};
ghost use Rattle.frame.specs.PacketDiagrams.{MeansIn};
ghost use Rattle.frame.specs.Meaning.{Adds, Means, decides, is_permit, permits};

use crate::NoMemory;
use crate::list_diagram::{ListEnd, small_end};
use crate::matching::matched;
use crate::packet_circuit::PacketCircuit;
use circuit::Node;
use ios_acl::{Entry, Verdict};
use std::alloc::Global;

/// The most nodes of a diagram that the end of a list becomes. The first packet of one list is found with hardly a turn, so that
/// gates for each entry serve as well, and a larger diagram takes longer to be made than it spares.
const MOST_NODES: usize = 10_000;

/// Adds a node that is true where the entries decide so.
pub(crate) fn decided(
    alloc: Global,
    circuit: &mut PacketCircuit,
    entries: &[Entry],
    verdict: Verdict,
) -> Result<Node, NoMemory>
    ensures { IfOk result (λ node.
        Adds circuit.old circuit.new node (decides entries.now verdict)) }
{
    let end = small_end(alloc, entries, MOST_NODES)?;
    let permitted = permitted(alloc, circuit, entries, &end)?;
    match verdict {
        Verdict::Permit => Ok(permitted),
        Verdict::Deny => circuit.not(permitted),
    }
}

/// Adds a node that is true where the first of the entries that matches permits: the gates of the diagram of an end of
/// theirs, and one gate more for each entry before it.
pub(crate) fn permitted(
    alloc: Global,
    circuit: &mut PacketCircuit,
    entries: &[Entry],
    end: &ListEnd,
) -> Result<Node, NoMemory>
    requires from { end.now.from ≤ length entries.now }
    requires within { IsOf end.now.table end.now.root }
    requires means { MeansIn end.now.table end.now.root (permits (drop end.now.from entries.now)) }
    ensures { IfOk result (λ node. Adds circuit.old circuit.new node (permits entries.now)) }
{
    let mut node = circuit.diagram(alloc, &end.table, end.root)?;
    let mut left = end.from;
    while left > 0 {
        left -= 1;
        node = decided_by(alloc, circuit, &entries[left], node)?;
    }
    Ok(node)
}

/// Adds a node that is what the entry says where it matches, and else the other node.
fn decided_by(
    alloc: Global,
    circuit: &mut PacketCircuit,
    entry: &Entry,
    other: Node,
) -> Result<Node, NoMemory>
    requires { other < length circuit.old }
    ensures { IfOk result (λ node. (meaning : Packet → Bool) → Means circuit.old other meaning
        → Adds circuit.old circuit.new node (λ packet.
        if matches entry.now packet then is_permit entry.now.verdict else meaning packet)) }
{
    let matched = matched(alloc, circuit, entry)?;
    match entry.verdict {
        Verdict::Permit => circuit.or(&[matched, other]),
        Verdict::Deny => {
            let unmatched = circuit.not(matched)?;
            circuit.and(&[unmatched, other])
        }
    }
}
