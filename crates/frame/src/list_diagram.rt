ghost use Rattle.std.specs.Prelude.{◌≡◌, ◌<◌, ◌≤◌, ◌+◌, ◌-◌, Bool, false, [], drop, length, IfOk, IsTrue, if◌then◌else◌};
ghost use Rattle.ios_acl.specs.declared.packet.Packet.{Packet};
ghost use Rattle.ios_acl.specs.Matching.{matches};
ghost use Rattle.frame.specs.Meaning.{is_permit};
ghost use Rattle.frame.specs.PacketDiagrams.{IsSmallIn, MeansIn};
ghost use Rattle.frame.specs.SmallLists.{IsGreatestSmallEnd, IsLarge};
ghost use Rattle.decision_diagram.specs.Table.{Extends, IsOf};

use crate::NoMemory;
use crate::entry_diagram::matched;
use crate::packet_diagrams::PacketDiagrams;
use decision_diagram::Diagram;
use ios_acl::{Entry, Verdict};
use std::alloc::Global;

/// The diagram of an end of a list.
#[derive(Drop)]
pub(crate) struct ListEnd {
    pub(crate) table: PacketDiagrams,
    pub(crate) root: Diagram,
    /// Where the end begins in the list.
    pub(crate) from: usize,
}

/// The greatest end of the list all of whose ends have diagrams of at most so many nodes, and its diagram.
pub(crate) fn small_end(alloc: Global, entries: &[Entry], most: usize) -> Result<ListEnd, NoMemory>
    requires { 2 ≤ most }
    ensures greatest { IfOk result (λ end. IsGreatestSmallEnd most entries.now end.from) }
    ensures diagram { IfOk result (λ end.
        IsSmallIn most end.table (drop end.from entries.now) end.root) }
{
    let mut end = no_entries(alloc, entries, most)?;
    while end.from > 0 {
        if !extend(alloc, &mut end, entries, most)? {
            return Ok(end);
        }
    }
    Ok(end)
}

/// The end without entries, which permits nothing.
fn no_entries(alloc: Global, entries: &[Entry], most: usize) -> Result<ListEnd, NoMemory>
    requires { 2 ≤ most }
    ensures from { IfOk result (λ end. end.from ≡ length entries.now) }
    ensures diagram { IfOk result (λ end. IsSmallIn most end.table [] end.root) }
{
    let table = PacketDiagrams::new(alloc)?;
    let root = table.leaf(false);
    Ok(ListEnd {
        table,
        root,
        from: entries.len(),
    })
}

/// Puts the entry before the end in front of it, if that end is small as well; whether it is.
fn extend(
    alloc: Global,
    end: &mut ListEnd,
    entries: &[Entry],
    most: usize,
) -> Result<bool, NoMemory>
    requires some { 0 < end.old.from }
    requires within { end.old.from ≤ length entries.now }
    requires diagram { IsSmallIn most end.old.table (drop end.old.from entries.now) end.old.root }
    ensures more { IfOk result (λ more. IsTrue more → (end.new.from + 1 ≡ end.old.from)
        × IsSmallIn most end.new.table (drop end.new.from entries.now) end.new.root) }
    ensures large { IfOk result (λ more. more ≡ false → (end.new.from ≡ end.old.from)
        × IsSmallIn most end.new.table (drop end.new.from entries.now) end.new.root
        × IsLarge most (drop (end.new.from - 1) entries.now)) }
{
    let whole = decided_by(&mut end.table, &entries[end.from - 1], end.root)?;
    if end.table.node_count() <= most {
        end.root = whole;
        end.from -= 1;
        return Ok(true);
    }
    let (table, root) = end.table.alone(alloc, whole)?;
    if table.node_count() > most {
        return Ok(false);
    }
    end.table = table;
    end.root = root;
    end.from -= 1;
    Ok(true)
}

/// The diagram of what the entry says where it matches, and else of the other one.
fn decided_by(
    table: &mut PacketDiagrams,
    entry: &Entry,
    other: Diagram,
) -> Result<Diagram, NoMemory>
    requires { IsOf table.old other }
    ensures means { IfOk result (λ d. (meaning : Packet → Bool) → MeansIn table.old other meaning
        → MeansIn table.new d (λ packet.
        if matches entry.now packet then is_permit entry.now.verdict else meaning packet)) }
    ensures older { Extends table.old table.new }
{
    let matched = matched(table, entry)?;
    let decided = table.leaf(entry.verdict == Verdict::Permit);
    table.ite(matched, decided, other)
}
