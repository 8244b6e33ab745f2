ghost use Rattle.std.specs.Prelude.{◌≡◌, ◌≤◌, ◌<◌, ◌+◌, ◌^◌, ◌∷◌, [], All, Bool, List, length, map, IfOk, OnOk};
ghost use Rattle.std.specs.List.{AllByRecursion};
ghost use Rattle.circuit.specs.declared.gate.Gate.{Gate};
ghost use Rattle.circuit.specs.Value.{IsCircuit, input_count, parts_of};
ghost use Rattle.circuit.specs.Append.{moved, number_at};
ghost use Rattle.circuit.specs.Clauses.{circuit_formula, gate_clauses, junction_clauses, no, variables, variables_from, yes};
ghost use Rattle.cnf.specs.Clauses.{with_clauses};

use crate::NoMemory;
use crate::circuit::Circuit;
use crate::gate::{Gate, Node};
use cnf::{Clause, Cnf, Lit};
use std::alloc::Global;

/// The clauses of a circuit whose root is to be true. The first variables are its inputs, in order, and then there is
/// one for each other gate, in order. The clauses make each of these the value of its gate, gate by gate in order; the
/// last one is the root's literal alone. What their models are, `clauses_are_circuits` says of each circuit.
pub fn to_cnf(alloc: Global, circuit: &Circuit, root: Node) -> Result<Cnf, NoMemory>
    requires { root < length circuit.now }
    ensures formula { IfOk result (λ formula. formula ≡ circuit_formula circuit.now root) }
    ensures circuit { IsCircuit circuit.now }
{
    let gates = circuit.gates();
    let all = variables(alloc, gates, circuit.inputs())?;
    let variables = all.as_slice();
    let mut formula = Cnf::new(alloc, gates.len());
    for (place, gate) in gates.iter().enumerate() {
        push_gate(alloc, &mut formula, variables[place], gate, variables)?;
    }
    let root = Lit::new(variables[root.place()], false);
    push(alloc, &mut formula, &[root])?;
    Ok(formula)
}

/// The variable of each gate.
fn variables(alloc: Global, gates: &[Gate], inputs: usize) -> Result<Vec<usize>, NoMemory>
    requires inputs { inputs ≡ input_count gates.now }
    requires few { length gates.now < 2 ^ 63 }
    ensures { IfOk result (λ all. all.items ≡ variables gates.now) }
{
    let mut all = Vec::with_capacity(alloc, gates.len())?;
    let mut next = inputs;
    for gate in gates {
        let (variable, later) = numbered(gate, next);
        all.push(variable)?;
        next = later;
    }
    Ok(all)
}

/// The variable of a gate, and the next one for a gate behind it, where the next one is given.
fn numbered(gate: &Gate, next: usize) -> (usize, usize)
    requires { next + 1 < 2 ^ 64 }
    ensures variable { (gates : List Gate) → variables_from next (gate.now ∷ gates)
        ≡ result.0 ∷ variables_from result.1 gates }
    ensures later { result.1 ≤ next + 1 }
{
    match gate {
        Gate::Input(number) => (*number, next),
        Gate::And(_) | Gate::Or(_) | Gate::Not(_) | Gate::Ite(_, _, _) => (next, next + 1),
    }
}

/// Adds the clauses by which the variable is the value of the gate.
fn push_gate(
    alloc: Global,
    formula: &mut Cnf,
    variable: usize,
    gate: &Gate,
    variables: &[usize],
) -> Result<(), NoMemory>
    requires parts { AllByRecursion (λ part. part < length variables.now) (parts_of gate.now) }
    requires variable { variable < formula.old.vars }
    requires variables { All (λ other. other < formula.old.vars) variables.now }
    ensures { OnOk result (formula.new
        ≡ with_clauses formula.old (gate_clauses variable (moved variables.now gate.now))) }
{
    match gate {
        Gate::Input(_) => Ok(()),
        Gate::And(parts) => {
            let parts = variables_at(alloc, parts.nodes(), variables)?;
            push_junction(alloc, formula, variable, parts.as_slice(), false)
        }
        Gate::Or(parts) => {
            let parts = variables_at(alloc, parts.nodes(), variables)?;
            push_junction(alloc, formula, variable, parts.as_slice(), true)
        }
        Gate::Not(part) => {
            let part = variables[part.place()];
            push(
                alloc,
                formula,
                &[Lit::new(variable, true), Lit::new(part, true)],
            )?;
            push(
                alloc,
                formula,
                &[Lit::new(variable, false), Lit::new(part, false)],
            )
        }
        Gate::Ite(condition, a, b) => {
            let condition = variables[condition.place()];
            push_same_where(
                alloc,
                formula,
                Lit::new(condition, true),
                variable,
                variables[a.place()],
            )?;
            push_same_where(
                alloc,
                formula,
                Lit::new(condition, false),
                variable,
                variables[b.place()],
            )
        }
    }
}

/// For each of the places the variable that stands there.
fn variables_at(alloc: Global, places: &[Node], variables: &[usize]) -> Result<Vec<usize>, NoMemory>
    requires { AllByRecursion (λ place. place < length variables.now) places.now }
    ensures { IfOk result (λ moved. moved.items ≡ map (number_at variables.now) places.now) }
{
    let mut moved = Vec::with_capacity(alloc, places.len())?;
    for place in places {
        moved.push(variables[place.place()])?;
    }
    Ok(moved)
}

/// Adds the clauses by which a variable is true where all of the parts are; if negative, by which it is false where all
/// of them are.
fn push_junction(
    alloc: Global,
    formula: &mut Cnf,
    variable: usize,
    parts: &[usize],
    negative: bool,
) -> Result<(), NoMemory>
    requires variable { variable < formula.old.vars }
    requires parts { All (λ part. part < formula.old.vars) parts.now }
    ensures { OnOk result (formula.new
        ≡ with_clauses formula.old (junction_clauses variable parts.now negative)) }
{
    let mut last = vec![in alloc; Lit::new(variable, negative)]?;
    for part in parts {
        push(
            alloc,
            formula,
            &[Lit::new(variable, !negative), Lit::new(*part, negative)],
        )?;
        last.push(Lit::new(*part, !negative))?;
    }
    push(alloc, formula, last.as_slice())
}

/// Adds the clauses by which the literal holds or both variables have the same value.
fn push_same_where(
    alloc: Global,
    formula: &mut Cnf,
    unless: Lit,
    a: usize,
    b: usize,
) -> Result<(), NoMemory>
    requires unless { unless.var < formula.old.vars }
    requires a { a < formula.old.vars }
    requires b { b < formula.old.vars }
    ensures { OnOk result (formula.new ≡ with_clauses formula.old
        ((unless ∷ no a ∷ yes b ∷ []) ∷ (unless ∷ yes a ∷ no b ∷ []) ∷ [])) }
{
    push(
        alloc,
        formula,
        &[unless, Lit::new(a, true), Lit::new(b, false)],
    )?;
    push(
        alloc,
        formula,
        &[unless, Lit::new(a, false), Lit::new(b, true)],
    )
}

/// Adds a clause whose variables are in range.
fn push(alloc: Global, formula: &mut Cnf, lits: &[Lit]) -> Result<(), NoMemory>
    requires { AllByRecursion (λ l. l.var < formula.old.vars) lits.now }
    ensures { OnOk result (formula.new ≡ with_clauses formula.old (lits.now ∷ [])) }
{
    formula.push_in_range(Clause::from_lits(alloc, lits)?)
}
