ghost use Rattle.std.specs.Prelude.{◌≡◌, ◌<◌, ◌≤◌, length, OnOk, IfOk};
ghost use Rattle.solver_run.specs.Run.{AreNodesOf, IsTaskRun, Performs};
ghost use Rattle.solver_run.specs.Stores.{StoreLog};
ghost use Rattle.solver_run.specs.Tasks as task;
ghost use Rattle.mg_outside.specs.Logs.{FileLog};
ghost use Rattle.std.specs.Prelude.{ℕ, List, Option};

use crate::cause::Cause;
use crate::endings::say;
use crate::run_lines::nodes_text;
use circuit::{Circuit, NoMemory, Node};
use mg_outside::Sink;
use std::alloc::Global;

/// Makes so many gates, each of the two nodes before it.
fn make(circuit: &mut Circuit, first: Node, second: Node, count: u64) -> Result<(), NoMemory>
    requires first { first < length circuit.old }
    requires second { second < length circuit.old }
    ensures { OnOk result (length circuit.old ≤ length circuit.new) }
{
    let mut before = first;
    let mut last = second;
    for _ in 0..count {
        let next = circuit.and(&[before, last])?;
        before = last;
        last = next;
    }
    Ok(())
}

/// How many nodes there are when so many gates were made, and then the same again.
fn shared_nodes(alloc: Global, count: u64) -> Result<usize, NoMemory>
    ensures { IfOk result AreNodesOf }
{
    let mut circuit = Circuit::new(alloc);
    let first = circuit.input()?;
    let second = circuit.input()?;
    make(&mut circuit, first, second, count)?;
    make(&mut circuit, first, second, count)?;
    Ok(circuit.nodes())
}

/// Makes so many gates twice, and says how many nodes the circuit has.
pub fn gates<S: Sink>(alloc: Global, count: u64, out: &mut S) -> Cause
    ensures { (told : List ℕ → Option (List ℕ)) (files : FileLog) (log : StoreLog)
        → Performs (IsTaskRun told (task.gates count)) files files
        (S.log out.old) (S.log out.new) log log result }
{
    let Ok(nodes) = shared_nodes(alloc, count) else {
        return Cause::NoMemory;
    };
    let Ok(text) = nodes_text(alloc, nodes) else {
        return Cause::NoMemory;
    };
    say(out, text.as_bytes(), Cause::Done)
}
