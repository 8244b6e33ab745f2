ghost use Rattle.std.specs.Prelude.{◌≡◌, ◌+◌, IfOk, IfSome, IfNone, OnOk};
ghost use Rattle.std.specs.List.{AllByRecursion};
ghost use Rattle.frame.specs.Question.{IsOfPacket, asked};
ghost use Rattle.frame.specs.Scenario.{IsFirst, request_of};
ghost use Rattle.frame.specs.Solution.{HasNoSolution};

use crate::NoMemory;
use frame::{Test, model_packet, question_clauses};
use ios_acl::{Entry, Packet, Verdict};
use sat_core::{Solved, Solver, Steps};
use std::alloc::Global;
use std::sync::ledger::Ledger;

/// The packet of the first scenario: of the requests that the entries decide so and that pass the tests, the one of the
/// least signature and then of the least values. The fields that are not the packet's are 0 in it. None where no
/// request does. It takes one search.
pub fn first_packet<L: Ledger>(
    alloc: Global,
    entries: &[Entry],
    verdict: Verdict,
    tests: &[Test],
    steps: &mut Steps<L>,
) -> Result<Option<Packet>, NoMemory>
    requires { AllByRecursion IsOfPacket tests.now }
    ensures found { IfOk result (λ answer. IfSome answer (λ packet.
        IsFirst (asked entries.now verdict tests.now) (request_of packet))) }
    ensures none { IfOk result (λ answer. IfNone answer
        (HasNoSolution (asked entries.now verdict tests.now))) }
    ensures one_step { OnOk result (steps.new ≡ steps.old + 1) }
{
    let clauses = question_clauses(alloc, entries, verdict, tests)?;
    let mut solver = Solver::new(alloc, clauses)?;
    match solver.solve(&[], steps)? {
        Solved::Least(model) => Ok(Some(model_packet(model.as_slice()))),
        Solved::None(_) => Ok(None),
    }
}
