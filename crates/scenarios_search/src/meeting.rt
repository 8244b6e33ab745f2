use crate::diagrams::draw;
use std::alloc::Global;
use std::test::Fail;
use test_tables::{answered, push_answer};

/// Writes whether the second of two formulas, drawn in a table of its own and then put into that of the first, is the same
/// diagram, and at how many pairs of nodes the two meet.
fn push_meeting(alloc: Global, formulas: &str, text: &mut String) -> Result<(), Fail> {
    let (one, other) = formulas.split_once("|").ok_or("no bar")?;
    let mut first = draw(alloc, one)?;
    let second = draw(alloc, other)?;
    if first.table.bits() != second.table.bits() {
        return Err("other bits")?;
    }
    let root = first.root;
    let copy = first.table.adopt(alloc, &second.table, second.root)?;
    push_answer(text, first.table.same(root, copy))?;
    for most in 0..64usize {
        if first.table.meet_seldom(alloc, root, copy, most)? {
            write!(text, " {most}")?;
            break;
        }
    }
    Ok(())
}

/// Leaves, which meet once; a bit and a leaf, a bit and itself, two bits; a chain and itself; a chain and one that parts from
/// it at its end.
const MEETING: &str = "4 or range 0 4 0 15;|4 or masked 0 1 1 0;or masked 0 1 0 0; => yes 1
4 or masked 0 1 1 0;|4 or range 0 4 9 5; => no 3
4 or masked 0 1 1 0;|4 or range 0 1 1 1; => yes 3
4 or masked 0 1 1 0;|4 or masked 1 1 1 0; => no 7
4 or masked 0 4 15 0;|4 or range 0 4 15 15; => yes 6
4 or masked 0 4 15 0;|4 or masked 0 4 14 0; => no 7
";

#[test]
fn diagrams_meet_at_pairs(rt: HostRuntime) -> Result<(), Fail> {
    let text = answered(rt.alloc(), MEETING, "\n", push_meeting)?;
    assert_eq!(rt; text.as_str(), MEETING);
    Ok(())
}
