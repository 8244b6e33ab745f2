use crate::diagram_gates::least_model;
use crate::questions::entries_named;
use frame::{Comparison, comparison_clauses, model_packet};
use sat_core::Solver;
use std::alloc::Global;
use std::test::Fail;
use test_tables::{answered, parted, push_answer, push_packet};

/// Writes whether the first list and whether the second permits, and the packet, as the least model shows them; or `none`.
/// What is asked is given, and the names of each list's entries, with a bar between them.
fn push_shown(alloc: Global, question: &str, text: &mut String) -> Result<(), Fail> {
    let (asked, lists) = parted(question)?;
    let (one, other) = lists.split_once("| ").ok_or("no bar")?;
    let (one, other) = (entries_named(alloc, one)?, entries_named(alloc, other)?);
    let asked = if asked == "differs" {
        Comparison::Differs
    } else {
        Comparison::Widens
    };
    let clauses = comparison_clauses(alloc, one.as_slice(), other.as_slice(), asked)?;
    let mut solver = Solver::new(alloc, clauses)?;
    let Some(model) = least_model(&mut solver)? else {
        return Ok(text.push_str("none")?);
    };
    let values = model.as_slice();
    if values.len() < 128 {
        return Err("a model without the bits")?;
    }
    push_answer(text, values[0])?;
    text.push(' ')?;
    push_answer(text, values[1])?;
    text.push(' ')?;
    push_packet(text, &model_packet(&values[2..]))
}

/// A list and itself, also with an entry that changes nothing; the empty list; a source, a port and a code that only one
/// of the lists permits; and an entry that the one before it hides.
const SHOWN: &str = "differs web | web  => none
differs web | web none  => none
differs | none  => none
differs every |  => yes no 0 0 0 0 0 0 0 0
differs lower-half | every  => no yes 80000000 0 0 0 0 0 0 0
differs every | lower-half  => yes no 80000000 0 0 0 0 0 0 0
widens lower-half | every  => no yes 80000000 0 0 0 0 0 0 0
widens every | lower-half  => none
widens no-web every | every  => no yes a000000 0 0 80 6 0 0 0
differs type-3 | type-3-code-4  => yes no 0 0 0 0 0 0 3 0
differs high-to-any | high-to-any no-port  => none
differs every no-web | no-web every  => yes no a000000 0 0 80 6 0 0 0
";

#[test]
fn comparisons_show_a_packet(rt: HostRuntime) -> Result<(), Fail> {
    let text = answered(rt.alloc(), SHOWN, "\n", push_shown)?;
    assert_eq!(rt; text.as_str(), SHOWN);
    Ok(())
}
