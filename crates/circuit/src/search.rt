ghost use Rattle.std.specs.Prelude.{◌≡◌, ◌<◌, ◌≤◌, ◌++◌, ◌∷◌, [], ℕ, Bool, List, length, IfOk, IfSome, IfNone};
ghost use Rattle.circuit.specs.Value.{input_count};
ghost use Rattle.circuit.specs.Least.{IsLeast, Satisfies};
ghost use Rattle.circuit.specs.Settled.{settled};
ghost use Rattle.circuit.specs.Search.{IsQuestion, Finds};

use crate::NoMemory;
use crate::circuit::Circuit;
use crate::gate::{Gate, Node};
use crate::support::support;
use crate::table::Table;
use std::alloc::Global;

/// The least inputs, in dictionary order with false first, that make the root true: one value for each input.
/// None where no inputs do.
pub fn least(alloc: Global, circuit: &Circuit, root: Node) -> Result<Option<Vec<bool>>, NoMemory>
    requires { root < length circuit.now }
    ensures found { IfOk result
        (λ answer. IfSome answer (λ inputs. IsLeast circuit.now root inputs.items)) }
    ensures none { IfOk result (λ answer. IfNone answer
        ((inputs : List Bool) → Satisfies circuit.now root inputs → ⊥)) }
{
    let gates = circuit.gates();
    let mut inputs = Vec::new(alloc);
    let blank = Table::blank(alloc, gates.len())?;
    let table = blank.settle(alloc, gates, inputs.as_slice())?;
    let support = support(alloc, gates, root.place(), table.values())?;
    let search = Search {
        alloc,
        gates,
        root: root.place(),
        support: support.as_slice(),
    };
    if search.decide(&table, &mut inputs)? {
        Ok(Some(inputs))
    } else {
        Ok(None)
    }
}

/// A search for the least inputs that make the root true.
#[derive(Drop)]
struct Search<'a> {
    alloc: Global,
    gates: &'a [Gate],
    root: usize,
    /// For each input, whether it can change the root where nothing is chosen.
    support: &'a [bool],
}

impl Search<'_> {
    /// Whether inputs that begin with the chosen ones make the root true. If so, the least of them are chosen.
    #[cycle(search)]
    fn decide(&self, table: &Table, chosen: &mut Vec<bool>) -> Result<bool, NoMemory>
        requires question { IsQuestion self.now.gates.now self.now.root self.now.support.now }
        requires table { table.now ≡ settled self.now.gates.now chosen.old.items }
        requires few { length chosen.old.items ≤ input_count self.now.gates.now }
        ensures { IfOk result (Finds self.now.gates.now self.now.root
            chosen.old.items chosen.old.items chosen.new.items) }
    {
        match table.values()[self.root] {
            Some(true) => {
                chosen.resize(self.support.len(), false)?;
                Ok(true)
            }
            Some(false) => Ok(false),
            None => self.split(table, chosen),
        }
    }

    /// `decide` where the root is not settled, so that an input is left to choose.
    #[cycle(search)]
    fn split(&self, table: &Table, chosen: &mut Vec<bool>) -> Result<bool, NoMemory>
        requires question { IsQuestion self.now.gates.now self.now.root self.now.support.now }
        requires table { table.now ≡ settled self.now.gates.now chosen.old.items }
        requires few { length chosen.old.items < input_count self.now.gates.now }
        ensures { IfOk result (Finds self.now.gates.now self.now.root
            chosen.old.items chosen.old.items chosen.new.items) }
    {
        if self.choose(table, chosen, false)? {
            return Ok(true);
        }
        let number = chosen.len();
        if !self.support[number] {
            return Ok(false);
        }
        let support = support(self.alloc, self.gates, self.root, table.values())?;
        if !support[number] {
            return Ok(false);
        }
        self.choose(table, chosen, true)
    }

    /// `decide` with one value more.
    #[cycle(search)]
    fn choose(&self, table: &Table, chosen: &mut Vec<bool>, value: bool) -> Result<bool, NoMemory>
        requires question { IsQuestion self.now.gates.now self.now.root self.now.support.now }
        requires table { table.now ≡ settled self.now.gates.now chosen.old.items }
        requires few { length chosen.old.items < input_count self.now.gates.now }
        ensures { IfOk result (Finds self.now.gates.now self.now.root
            (chosen.old.items ++ value ∷ []) chosen.old.items chosen.new.items) }
    {
        chosen.push(value)?;
        let next = table.settle(self.alloc, self.gates, chosen.as_slice())?;
        if self.decide(&next, chosen)? {
            return Ok(true);
        }
        chosen.pop();
        Ok(false)
    }
}
