ghost use Rattle.std.specs.Prelude.{◌<◌, IfOk};
ghost use Rattle.frame.specs.Meaning.{HasInputs};

use crate::NoMemory;
use circuit::{Circuit, Node};
use std::alloc::Global;

/// A circuit of so many inputs alone, and their nodes in order.
pub(crate) fn inputs(alloc: Global, count: usize) -> Result<(Circuit, Vec<Node>), NoMemory>
    ensures { IfOk result (λ made. HasInputs count made.0 made.1.items) }
{
    let mut circuit = Circuit::new(alloc);
    let mut nodes = Vec::new(alloc);
    for _ in 0..count {
        nodes.push(circuit.input()?)?;
    }
    Ok((circuit, nodes))
}
