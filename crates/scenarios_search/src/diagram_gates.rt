ghost use Rattle.std.specs.Prelude.{◌≡◌, ◌<◌, IfOk, length};

use crate::circuits::{inputs, number_of};
use crate::diagrams::draw;
use circuit::{Circuit, NoMemory, Node, to_cnf};
use cnf::Lit;
use decision_diagram::{equal_diagrams_are_one, gates, gates_have_the_value, listings_are_one};
use sat_core::{Solved, Solver, Steps};
use std::alloc::Global;
use std::marker::Brand;
use std::sync::ledger::{Blank, Ledger};
use std::test::Fail;
use test_tables::{answered, parted};

/// The gates of a formula's diagram over inputs, with the node that has its value.
fn guarded(alloc: Global, formula: &str) -> Result<(Circuit, Node), Fail>
    ensures { IfOk result (λ made. made.1 < length made.0) }
{
    let drawn = draw(alloc, formula)?;
    let mut circuit = Circuit::new(alloc);
    let bits = inputs(alloc, &mut circuit, drawn.table.bits() as usize)?;
    let root = gates(
        alloc,
        &mut circuit,
        &drawn.table,
        drawn.root,
        bits.as_slice(),
    )?;
    Ok((circuit, root))
}

/// The least model, by a search that is counted.
fn counted_model<L: Ledger>(
    solver: &mut Solver,
    blank: Blank,
) -> Result<Option<Vec<bool>>, NoMemory>
    requires name { blank.name ≡ L.name }
    requires parts { blank.parts ≡ L.parts }
    requires some { 0 < blank.parts }
{
    let mut steps: Steps<L> = Steps::begin(blank);
    match solver.solve(&[], &mut steps)? {
        Solved::Least(model) => Ok(Some(model)),
        Solved::None(_) => Ok(None),
    }
}

/// The least model, by who counts no searches.
pub(crate) fn least_model(solver: &mut Solver) -> Result<Option<Vec<bool>>, NoMemory> {
    counted_model::<Brand>(solver, Blank::new(1))
}

/// The clause that values are not these.
fn other_than(alloc: Global, values: &[bool]) -> Result<Vec<Lit>, NoMemory> {
    let mut lits = Vec::new(alloc);
    for var in 0..values.len() {
        lits.push(Lit::new(var, values[var]))?;
    }
    Ok(lits)
}

/// Writes how many gates the diagram of a formula has over its bits, and the numbers of these in all models that the
/// search finds, one after another, each the least that is left.
fn push_models(alloc: Global, formula: &str, text: &mut String) -> Result<(), Fail> {
    let (bits, _) = parted(formula)?;
    let bits = bits.parse::<usize>()?;
    let (circuit, root) = guarded(alloc, formula)?;
    write!(text, "{}:", circuit.nodes().saturating_sub(bits))?;
    let mut solver = Solver::new(alloc, to_cnf(alloc, &circuit, root)?)?;
    for _ in 0..64 {
        let Some(model) = least_model(&mut solver)? else {
            break;
        };
        let values = model
            .as_slice()
            .get(..bits)
            .ok_or("a model without the bits")?;
        write!(text, " {}", number_of(values))?;
        solver.add(other_than(alloc, values)?.as_slice())?;
    }
    Ok(())
}

/// Leaves, which are one gate; chains, also over a part of the bits; a range, and both its ends; the list that
/// `docs/architecture.md` draws; bits that agree, of which no branch is shared; an odd number of three bits, of which two
/// are; and branches that are reached by two and by three edges.
const GATES: &str = "4 or range 0 4 0 15; => 1: 0 1 2 3 4 5 6 7 8 9 10 11 12 13 14 15
4 or range 0 4 9 5; => 1:
4 or masked 0 4 15 0; => 16: 15
4 or masked 0 4 10 5; => 8: 10 11 14 15
4 or range 0 4 11 16; => 17: 11 12 13 14 15
4 or range 0 4 5 9; => 24: 5 6 7 8 9
4 or masked 0 1 1 0;less range 0 3 6 6;or masked 0 3 1 2; => 16: 2 3 6 7 8 9 10 11 14 15
4 or masked 0 1 1 0;iff masked 3 1 1 0; => 12: 0 2 4 6 9 11 13 15
4 or masked 0 1 1 0;iff masked 1 1 1 0;iff masked 2 1 1 0; => 25: 2 3 4 5 8 9 14 15
5 or masked 0 2 1 0;or range 2 3 1 6;and masked 4 1 1 0; => 28: 1 3 5 9 11 13 15 17 19 21 25 27 29
5 or range 0 5 3 20;less range 1 3 2 5; => 31: 3 12 13 14 15 16 17 18 19
";

#[test]
fn gates_have_the_values_of_their_diagram(rt: HostRuntime) -> Result<(), Fail> {
    let text = answered(rt.alloc(), GATES, "\n", push_models)?;
    assert_eq!(rt; text.as_str(), GATES);
    Ok(())
}

#[test]
fn laws_of_diagrams() {
    equal_diagrams_are_one();
    listings_are_one();
    gates_have_the_value();
}
