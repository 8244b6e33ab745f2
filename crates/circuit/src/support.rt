ghost use Rattle.std.specs.Prelude.{◌≡◌, ◌<◌, ℕ, length, All, IfOk};
ghost use Rattle.std.specs.List.{AllByRecursion};
ghost use Rattle.circuit.specs.Value.{parts_of, input_count, IsCircuit};
ghost use Rattle.circuit.specs.Support.{with_marks, IsCone, AreInputsNeeded, IsSupportBy};

use crate::NoMemory;
use crate::gate::{Gate, Node};
use std::alloc::Global;

/// For each input, whether the root is made from it, not looking behind the nodes that the table has settled.
pub(crate) fn support(
    alloc: Global,
    gates: &[Gate],
    root: usize,
    table: &[Option<bool>],
) -> Result<Vec<bool>, NoMemory>
    requires circuit { IsCircuit gates.now }
    requires root { root < length gates.now }
    requires count { length table.now ≡ length gates.now }
    ensures { IfOk result (λ needed. IsSupportBy gates.now root table.now needed.items) }
{
    let marked = cone(alloc, gates, root, table)?;
    needed_inputs(alloc, gates, marked.as_slice())
}

/// Marks the root and the nodes from which it is made, but not those that are only behind a settled one.
fn cone(
    alloc: Global,
    gates: &[Gate],
    root: usize,
    table: &[Option<bool>],
) -> Result<Vec<bool>, NoMemory>
    requires circuit { IsCircuit gates.now }
    requires root { root < length gates.now }
    requires count { length table.now ≡ length gates.now }
    ensures { IfOk result (λ marked. IsCone gates.now root table.now marked.items) }
{
    let mut marked = vec![in alloc; false; gates.len()]?;
    marked[root] = true;
    for place in (0..gates.len()).rev() {
        if marked[place] && table[place].is_none() {
            mark_parts(&gates[place], marked.as_mut_slice());
        }
    }
    Ok(marked)
}

/// Marks the parts of a gate.
fn mark_parts(gate: &Gate, marked: &mut [bool])
    requires { AllByRecursion (λ part. part < length marked.old) (parts_of gate.now) }
    ensures { marked.new ≡ with_marks marked.old (parts_of gate.now) }
{
    match gate {
        Gate::Input(_) => {}
        Gate::And(parts) | Gate::Or(parts) => mark_all(parts.nodes(), marked),
        Gate::Not(part) => marked[part.place()] = true,
        Gate::Ite(condition, a, b) => {
            marked[condition.place()] = true;
            marked[a.place()] = true;
            marked[b.place()] = true;
        }
    }
}

fn mark_all(nodes: &[Node], marked: &mut [bool])
    requires { All (λ node. node < length marked.old) nodes.now }
    ensures { marked.new ≡ with_marks marked.old nodes.now }
{
    for node in nodes {
        marked[node.place()] = true;
    }
}

/// Which inputs have a marked gate.
fn needed_inputs(alloc: Global, gates: &[Gate], marked: &[bool]) -> Result<Vec<bool>, NoMemory>
    requires circuit { IsCircuit gates.now }
    requires count { length marked.now ≡ length gates.now }
    ensures count { IfOk result (λ needed. length needed.items ≡ input_count gates.now) }
    ensures needed { IfOk result (λ needed. AreInputsNeeded gates.now marked.now needed.items) }
{
    let mut needed = Vec::new(alloc);
    for (place, gate) in gates.iter().enumerate() {
        if let Gate::Input(_) = gate {
            needed.push(marked[place])?;
        }
    }
    Ok(needed)
}
