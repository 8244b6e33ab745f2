ghost use Rattle.std.specs.Prelude.{◌≡◌, List, IfOk, IfSome, IfNone};
ghost use Rattle.ios_acl.specs.declared.entry.Entry.{Entry};
ghost use Rattle.decision_diagram.specs.Meeting.{MeetOften, MeetSeldom};
ghost use Rattle.decision_diagram.specs.Table.{IsOf, diagram};
ghost use Rattle.frame.specs.Meaning.{permits};
ghost use Rattle.frame.specs.PacketDiagrams.{AreDifferences, MeansIn};

use crate::NoMemory;
use crate::list_diagram::ListEnd;
use crate::packet_diagrams::PacketDiagrams;
use decision_diagram::Diagram;
use std::alloc::Global;

/// The most pairs of parts at which the diagrams of two lists may meet that are made one: that takes a step for each.
pub(crate) const MOST_PAIRS: usize = 4_000_000;

/// The packets that one of two lists alone permits.
#[derive(Drop)]
pub(crate) struct Differences {
    pub(crate) table: PacketDiagrams,
    pub(crate) only_first: Diagram,
    pub(crate) only_second: Diagram,
}

/// Where two lists differ, as diagrams, if both ends are whole lists and their diagrams meet at few pairs.
pub(crate) fn join_lists(
    alloc: Global,
    one: &ListEnd,
    two: &ListEnd,
) -> Result<Option<Differences>, NoMemory>
    requires one { IsOf one.now.table one.now.root }
    requires two { IsOf two.now.table two.now.root }
    ensures differ { IfOk result (λ found. IfSome found (λ d. (first second : List Entry)
        → MeansIn one.now.table one.now.root (permits first)
        → MeansIn two.now.table two.now.root (permits second)
        → AreDifferences first second d.table d.only_first d.only_second)) }
    ensures joined { IfOk result (λ found. IfSome found (λ d. (one.now.from ≡ 0) × (two.now.from ≡ 0)
        × MeetSeldom MOST_PAIRS (diagram one.now.table one.now.root)
        (diagram two.now.table two.now.root))) }
    ensures apart { IfOk result (λ found. IfNone found (one.now.from ≡ 0 → two.now.from ≡ 0
        → MeetOften MOST_PAIRS (diagram one.now.table one.now.root)
        (diagram two.now.table two.now.root))) }
{
    if one.from > 0 {
        return Ok(None);
    }
    if two.from > 0 {
        return Ok(None);
    }
    let (mut table, first) = one.table.alone(alloc, one.root)?;
    let second = table.adopt(alloc, &two.table, two.root)?;
    if !table.meet_seldom(alloc, first, second, MOST_PAIRS)? {
        return Ok(None);
    }
    let never = table.leaf(false);
    let only_first = table.ite(second, never, first)?;
    let only_second = table.ite(first, never, second)?;
    Ok(Some(Differences {
        table,
        only_first,
        only_second,
    }))
}
